// What a vector does with the register.
use crate::questions::{Region, in_region, nearest};
use octets::numbers::num16;
use refusals::outcome_number;
use register::{apply_on, start};
use register_check::refusing::answer_number;
use register_check::{RegisterFind, find};
use std::io::{Result, Write};
use vector_tools::patch::patch;

#[derive(Clone, Copy, PartialEq, Eq, PartialOrd, Ord)]
pub enum Kind {
    Start,
    Apply,
    Many,
    Find,
    Change,
    Inside,
    Within,
    Nearest,
}

// A byte that names no kind.
#[derive(Clone, Copy, Debug, Drop)]
pub struct UnknownKind;

impl TryFrom<u8> for Kind {
    type Error = UnknownKind;

    fn try_from(b: u8) -> std::result::Result<Kind, UnknownKind> {
        Ok(match b {
            0 => Kind::Start,
            1 => Kind::Apply,
            2 => Kind::Many,
            3 => Kind::Find,
            4 => Kind::Change,
            5 => Kind::Inside,
            6 => Kind::Within,
            7 => Kind::Nearest,
            _ => return Err(UnknownKind),
        })
    }
}

// What is given back of a peg.
pub fn found<W: Write>(out: &mut W, f: RegisterFind) -> Result<()> {
    write!(out, "{} found {} index {}", f.number, f.found, f.index)?;
    write!(out, " at {} {}", f.easting, f.northing)
}

// Where the parts of many lie: the first number is in front.
const AT_STEP: usize = 2;

const AT_COUNT: usize = 4;

const AT_PAYLOAD: usize = 6;

const AT_NAME: usize = 2;

const MOST_PAYLOAD: usize = 64;

// The payload, whose name is so long, with k in the last two bytes of its name, which stand as far from its start as the name is long, and
// in the two behind it.
fn numbered(payload: &[u8], name: u8, k: u16) -> [u8; MOST_PAYLOAD] {
    let [high, low] = k.to_be_bytes();
    let mut p: [u8; MOST_PAYLOAD] = [0; MOST_PAYLOAD];
    patch(&mut p, 0, payload);
    patch(&mut p, usize::from(name), &[high, low, high, low]);
    p
}

// One of many: nothing is applied where there is no room for the payload.
fn one(register: &mut [u8], payload: &[u8], name: u8, k: u16) -> u32 {
    let p = numbered(payload, name, k);
    if payload.len() <= MOST_PAYLOAD {
        answer_number(apply_on(register, &p[..payload.len()]))
    } else {
        0
    }
}

// How many were taken, and the last one's number.
fn many<W: Write>(out: &mut W, register: &mut [u8], e: &[u8]) -> Result<()> {
    if e.len() < AT_PAYLOAD + AT_NAME {
        return Ok(());
    }
    let payload = &e[AT_PAYLOAD..];
    let name = payload[AT_NAME - 1];
    let mut k = num16(e, 0);
    let mut taken: u16 = 0;
    let mut last = 0;
    for _i in 0..num16(e, AT_COUNT) {
        last = one(register, payload, name, k);
        if last == 0 {
            taken += 1;
        }
        k = k.wrapping_add(num16(e, AT_STEP));
    }
    write!(out, "taken {taken} last {last}")
}

pub fn run<W: Write>(out: &mut W, kind: Kind, register: &mut [u8], e: &[u8]) -> Result<()> {
    match kind {
        Kind::Start => {
            let number = outcome_number(start(register));
            write!(out, "{number}")
        }
        Kind::Apply => {
            let number = answer_number(apply_on(register, e));
            write!(out, "{number}")
        }
        Kind::Many => many(out, register, e),
        Kind::Find => found(out, find(register, e)),
        Kind::Change => Ok(()),
        Kind::Inside => in_region(out, Region::Rectangle, register, e),
        Kind::Within => in_region(out, Region::Circle, register, e),
        Kind::Nearest => nearest(out, register, e),
    }
}
