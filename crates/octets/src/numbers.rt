// Numbers in bytes, big-endian: read and written.
ghost use Rattle.std.specs.Prelude.{◌≡◌, ◌+◌, ◌≤◌, ◌<◌, length};
ghost use Rattle.base.specs.Bytes.{number_at, bytes_of};
ghost use Rattle.base.specs.Patched.{patched};

use crate::blocks::copy;

// The number in the byte at `at`.
pub fn num8(e: &[u8], at: usize) -> u8
    requires { at < length e.now }
    ensures { result ≡ number_at 1 e.now at }
{
    e[at]
}

// The number in the two bytes from `at` on.
pub fn num16(e: &[u8], at: usize) -> u16
    requires { at + 2 ≤ length e.now }
    ensures { result ≡ number_at 2 e.now at }
{
    u16::from_be_bytes([e[at], e[at + 1]])
}

// The number in the four bytes from `at` on.
pub fn num32(e: &[u8], at: usize) -> u32
    requires { at + 4 ≤ length e.now }
    ensures { result ≡ number_at 4 e.now at }
{
    u32::from_be_bytes([e[at], e[at + 1], e[at + 2], e[at + 3]])
}

// A number of one byte; put16 and put32: of two and of four.
pub fn put8(out: &mut [u8], at: usize, v: u8)
    requires { at + 1 ≤ length out.old }
    ensures { out.new ≡ patched at (bytes_of 1 v) out.old }
{
    out[at] = v;
}

pub fn put16(out: &mut [u8], at: usize, v: u16)
    requires { at + 2 ≤ length out.old }
    ensures { out.new ≡ patched at (bytes_of 2 v) out.old }
{
    copy(out, at, &v.to_be_bytes());
}

pub fn put32(out: &mut [u8], at: usize, v: u32)
    requires { at + 4 ≤ length out.old }
    ensures { out.new ≡ patched at (bytes_of 4 v) out.old }
{
    copy(out, at, &v.to_be_bytes());
}
