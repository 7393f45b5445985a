// Runs vectors through the register's exported functions. A line of the input is a vector in hexadecimal, and from '#' on a label, which
// is written behind the answer.
#![tactic(auto)]

mod questions;
mod report;
mod runs;
mod vector;

use register_check::register_length;
use report::ROOM;
use std::io::{Result, Write};
use vector_tools::output::Output;
use vector_tools::text::{decode, split_label, without_end};

// What buffers hold at first.
pub const FILL: u8 = 238;

// All vectors.
const MOST_INPUT: usize = 131072;

// The answer, and the label behind it.
fn line<W: Write>(out: &mut W, base: &mut [u8; ROOM], s: &[u8]) -> Result<()> {
    let (digits, label) = split_label(s);
    let mut room = io::buffer();
    vector::answer(out, base, decode(digits, &mut room))?;
    out.write_all(label)?;
    out.write_all(b"\n")
}

fn main() -> Result<()> {
    let mut out = Output;
    writeln!(out, "length {}", register_length())?;
    let mut input: [u8; MOST_INPUT] = [0; MOST_INPUT];
    let n = io::read_full(0, &mut input);
    let mut base: [u8; ROOM] = [FILL; ROOM];
    for s in input[..n].split_inclusive(|b| *b == b'\n') {
        line(&mut out, &mut base, without_end(s))?;
    }
    Ok(())
}
