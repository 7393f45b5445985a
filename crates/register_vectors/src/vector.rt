// A vector: what it does (1 byte), the length that is lent (4), where bytes are changed (4), how many (1), these, and the rest.
use crate::report::{ROOM, changes};
use crate::runs::{Kind, run};
use octets::numbers::num32;
use std::io::{Result, Write};
use vector_tools::patch::patch;

#[derive(Clone, Copy, Drop)]
struct Vector<'a> {
    kind: u8,
    length: usize,
    changed_at: usize,
    changed: &'a [u8],
    rest: &'a [u8],
}

impl Vector<'_> {
    const AT_LENGTH: usize = 1;

    const AT_CHANGED: usize = 5;

    const AT_COUNT: usize = 9;

    const AT_BYTES: usize = 10;

    fn read(e: &[u8]) -> Option<Vector<'_>> {
        if e.len() < Vector::AT_BYTES {
            return None;
        }
        let (front, bytes) = e.split_at(Vector::AT_BYTES);
        let (changed, rest) = bytes.split_at_checked(usize::from(front[Vector::AT_COUNT]))?;
        Some(Vector {
            kind: front[0],
            length: num32(front, Vector::AT_LENGTH) as usize,
            changed_at: num32(front, Vector::AT_CHANGED) as usize,
            changed,
            rest,
        })
    }
}

// Does this with the first bytes of the buffer.
fn lend<W: Write>(out: &mut W, kind: Kind, work: &mut [u8; ROOM], v: &Vector<'_>) -> Result<()> {
    let before = *work;
    if v.length <= ROOM {
        run(out, kind, &mut work[..v.length], v.rest)?;
    }
    if kind <= Kind::Many {
        changes(out, &before, work)?;
    }
    Ok(())
}

// Where bytes are changed for this vector alone, what comes of it is dropped.
pub fn answer<W: Write>(out: &mut W, base: &mut [u8; ROOM], e: &[u8]) -> Result<()> {
    let Some(v) = Vector::read(e) else {
        return Ok(());
    };
    let mut work = *base;
    patch(&mut work, v.changed_at, v.changed);
    if let Ok(kind) = Kind::try_from(v.kind) {
        lend(out, kind, &mut work, &v)?;
        if v.changed.is_empty() || kind == Kind::Change {
            *base = work;
        }
    }
    write!(out, " ")
}
