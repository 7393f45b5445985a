// Numbers and bytes as they are written, and what they are written to.
ghost use Rattle.std.specs.Prelude.{◌≡◌, ◌*◌, ◌%◌, ◌<◌, length, IsOk};
ghost use Rattle.std.specs.Io.{WritesAtMost};
ghost use Rattle.std.specs.Io.KnownBytes.{Keeps, WriteAppends};

use arrayvec::ArrayString;
use std::fmt;
use std::fmt::Write;
use std::io::Result;

// Standard output, where a write that fails is passed over: what comes behind it is written all the same.
#[derive(Clone, Copy, Drop)]
pub struct Output;

impl std::io::Write for Output {
    fn write(&mut self, buf: &[u8]) -> Result<usize>
        ensures bound { WritesAtMost result buf.now }
        ensures bytes { WriteAppends None None result buf.now }
        ensures all { result ≡ Ok (length buf.now) }
    {
        io::write_all(1, buf);
        Ok(buf.len())
    }

    fn flush(&mut self) -> Result<()>
        ensures bytes { Keeps None None }
        ensures ok { IsOk result }
    {
        Ok(())
    }
}

// Numbers, a space before each.
#[derive(Clone, Copy, Drop)]
pub struct Numbers<'a>(pub &'a [u64]);

impl fmt::Display for Numbers<'_> {
    fn fmt<W: fmt::Write>(&self, f: &mut fmt::Formatter<W>) -> fmt::Result {
        for x in self.0 {
            write!(f, " {x}")?;
        }
        Ok(())
    }
}

// Bytes in hexadecimal digits: a byte's two digits are written at once, since `{:02x}` writes a zero by itself.
#[derive(Clone, Copy, Drop)]
pub struct Hex<'a>(pub &'a [u8]);

impl fmt::Display for Hex<'_> {
    fn fmt<W: fmt::Write>(&self, f: &mut fmt::Formatter<W>) -> fmt::Result {
        for b in self.0 {
            let mut digits = ArrayString::<2>::new();
            write!(digits, "{b:02x}")?;
            f.write_str(digits.as_str())?;
        }
        Ok(())
    }
}

// A digest of the bytes and, where there are few, the bytes themselves.
#[derive(Clone, Copy, Drop)]
pub struct Bytes<'a>(pub &'a [u8]);

const FEW_BYTES: usize = 72;

impl fmt::Display for Bytes<'_> {
    fn fmt<W: fmt::Write>(&self, f: &mut fmt::Formatter<W>) -> fmt::Result {
        let digest = digest(self.0);
        write!(f, " digest {digest:08x}")?;
        if self.0.len() <= FEW_BYTES {
            write!(f, " bytes {}", Hex(self.0))?;
        }
        Ok(())
    }
}

const MODULUS: u64 = 65521;

// x modulo 65521: by a subtraction, which takes less time than a remainder.
fn reduced(x: u64) -> u64
    requires { x < 2 * MODULUS }
    ensures { result ≡ x % MODULUS }
{
    if x < MODULUS { x } else { x - MODULUS }
}

// Adler-32: the sum of the bytes and 1, and the sum of these sums, each modulo 65521.
fn digest(s: &[u8]) -> u64 {
    let mut low: u64 = 1;
    let mut high: u64 = 0;
    for b in s {
        low = reduced(low + u64::from(*b));
        high = reduced(high + low);
    }
    high * 65536 + low
}
