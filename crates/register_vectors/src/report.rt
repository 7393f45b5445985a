// What calls changed: nothing; or from which byte to which, and what the buffer then holds.
use octets::numbers::num16;
use register_check::layout::{COUNT_SIZE, PEG_SIZE, REGISTER_LENGTH};
use std::io::{Result, Write};
use vector_tools::output::{Bytes, Hex};

// The buffer, some bytes longer than the formula asks.
pub const ROOM: usize = REGISTER_LENGTH + 40;

// The bytes of a register with at most so many pegs are written.
const FEW_PEGS: usize = 3;

// How many pegs there are, a digest of all bytes, and where there are few pegs the used bytes.
fn register<W: Write>(out: &mut W, s: &[u8; ROOM]) -> Result<()> {
    let count = usize::from(num16(s, 0));
    write!(out, " pegs {count}{}", Bytes(s))?;
    if count <= FEW_PEGS {
        write!(out, " bytes {}", Hex(&s[..COUNT_SIZE + PEG_SIZE * count]))?;
    }
    Ok(())
}

pub fn changes<W: Write>(out: &mut W, old: &[u8; ROOM], new: &[u8; ROOM]) -> Result<()> {
    // From the end first, which is the only search where nothing differs.
    let Some(last) = (0..ROOM).rev().find(|k| old[*k] != new[*k]) else {
        return write!(out, " as before");
    };
    let first = (0..last).find(|k| old[*k] != new[*k]).unwrap_or(last);
    write!(out, " changed {first}-{last}")?;
    register(out, new)
}
