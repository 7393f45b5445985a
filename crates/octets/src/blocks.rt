// Blocks of bytes, each stored from a place on.
ghost use Rattle.std.specs.Prelude.{◌≡◌, ℕ, ◌+◌, ◌≤◌, length, replicate};
ghost use Rattle.base.specs.Bytes.{part_at};
ghost use Rattle.base.specs.Patched.{patched};
ghost use Rattle.octets.specs.Counted.{counted};

use crate::numbers::put8;

// The bytes `src` from `at` on.
pub fn copy(out: &mut [u8], at: usize, src: &[u8])
    requires { at + length src.now ≤ length out.old }
    ensures { out.new ≡ patched at src.now out.old }
{
    out[at..at + src.len()].copy_from_slice(src);
}

// How many bytes `src` has, in one byte, and these.
pub fn put_counted(out: &mut [u8], at: usize, src: &[u8])
    requires { at + (1 + length src.now) ≤ length out.old }
    ensures { out.new ≡ patched at (counted src.now) out.old }
{
    put8(out, at, (src.len() % 256) as u8);
    copy(out, at + 1, src);
}

// Copies the `count` bytes from `from` on, which lie in front of `to`, to `to`.
pub fn copy_up(out: &mut [u8], from: usize, to: usize, count: usize)
    requires { (from + count ≤ to) × (to + count ≤ length out.old) }
    ensures { out.new ≡ patched to (part_at count out.old from) out.old }
{
    let (front, back) = out.split_at_mut(to);
    back[..count].copy_from_slice(&front[from..from + count]);
}

// Zeros for `count` bytes from `at` on.
pub fn clear(out: &mut [u8], at: usize, count: usize)
    requires { at + count ≤ length out.old }
    ensures { out.new ≡ patched at (replicate {A = ℕ} count 0) out.old }
{
    out[at..at + count].fill(0);
}
