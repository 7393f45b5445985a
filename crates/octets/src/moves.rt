// Bytes moved inside a lent slice.
ghost use Rattle.std.specs.Prelude.{◌≡◌, ◌++◌, ◌-◌, ◌≤◌, length, take, drop};
ghost use Rattle.base.specs.Patched.{patched};

// Moves s down by w bytes; the last w stay as they were.
pub fn shift_down(s: &mut [u8], w: usize)
    requires { w ≤ length s.old }
    ensures { s.new ≡ patched 0 (drop w s.old) s.old }
{
    for i in 0..s.len() - w {
        s[i] = s[w + i];
    }
}

// Moves s up by w bytes; the first w stay as they were.
pub fn shift_up(s: &mut [u8], w: usize)
    requires { w ≤ length s.old }
    ensures { s.new ≡ take w s.old ++ take (length s.old - w) s.old }
{
    for i in (0..s.len() - w).rev() {
        s[w + i] = s[i];
    }
}
