// Runs vectors: of records through the reader and the writers, of states through the state check, of collected States through the
// exchange's decisions. A line of the input is a vector in hexadecimal, and from '#' on a label, which is written behind the answer. A line
// that begins with '=' is the heading of a group. What a line that begins with 'w' says is written again too.
#![tactic(auto)]

mod building;
mod decisions;
mod patch;
mod reading;
mod records;
mod states;
mod writing;

use std::io::{Result, Write};
use vector_tools::output::Output;
use vector_tools::text::{decode, split_label, without_end};

// What the vectors of a group are run through.
#[derive(Clone, Copy, PartialEq, Eq)]
enum Group {
    Records,
    States,
    Decisions,
}

impl Group {
    // The group of a heading, by the first letter of its name.
    fn of_heading(s: &[u8]) -> Option<Group> {
        match s {
            [_, _, b'r', ..] => Some(Group::Records),
            [_, _, b's', ..] => Some(Group::States),
            [_, _, b'd', ..] => Some(Group::Decisions),
            _ => None,
        }
    }
}

// The answer to a vector.
fn answer<W: Write>(out: &mut W, group: Group, base: &mut [u8], e: &[u8]) -> Result<()> {
    match group {
        Group::Records => records::read(out, e),
        Group::States => states::vector(out, base, e),
        Group::Decisions => decisions::vector(out, e),
    }
}

// The answer, if there is a vector, and the label behind it.
fn line<W: Write>(out: &mut W, group: Option<Group>, base: &mut [u8], s: &[u8]) -> Result<()> {
    let (digits, label) = split_label(s);
    let mut room = io::large_buffer();
    let e = decode(digits, &mut room);
    if !e.is_empty() {
        if let Some(group) = group {
            answer(out, group, base, e)?;
        }
        write!(out, " ")?;
    }
    out.write_all(label)?;
    out.write_all(b"\n")?;
    if s.starts_with(b"w") {
        records::write(out, e)?;
    }
    Ok(())
}

fn heading<W: Write>(out: &mut W, s: &[u8]) -> Result<Option<Group>> {
    out.write_all(s)?;
    out.write_all(b"\n")?;
    let group = Group::of_heading(s);
    if group == Some(Group::Records) {
        records::limits(out)?;
    }
    Ok(group)
}

fn main() -> Result<()> {
    let mut out = Output;
    let mut input: [u8; 131072] = [0; 131072];
    let n = io::read_full(0, &mut input);
    let mut base: [u8; states::ROOM] = [0; states::ROOM];
    let mut group = None;
    for s in input[..n].split_inclusive(|b| *b == b'\n') {
        let s = without_end(s);
        if s.starts_with(b"=") {
            group = heading(&mut out, s)?;
        } else {
            line(&mut out, group, &mut base, s)?;
        }
    }
    Ok(())
}
