// Questions on pegs in the plane: the pegs of a region, in an answer's buffer, and the nearest one.
use crate::FILL;
use crate::report::{ROOM, changes};
use crate::runs::found;
use octets::numbers::num32;
use register_check::coordinates::millimetres;
use register_check::refusing::answer_number;
use register_queries::{in_radius, in_rectangle, nearest_on};
use std::io::{Result, Write};

const NUMBER: usize = 4;

// Where the numbers of a region lie, behind the length that is lent of the answer's buffer.
const FIRST: usize = NUMBER;

const SECOND: usize = FIRST + NUMBER;

const THIRD: usize = SECOND + NUMBER;

const FOURTH: usize = THIRD + NUMBER;

#[derive(Clone, Copy)]
pub enum Region {
    Rectangle,
    Circle,
}

// The number at `at`, and 0 where it is not there.
fn bits(e: &[u8], at: usize) -> u32 {
    if NUMBER <= e.len() && at <= e.len() - NUMBER {
        num32(e, at)
    } else {
        0
    }
}

fn coordinate(e: &[u8], at: usize) -> i32 {
    millimetres(bits(e, at))
}

fn ask(region: Region, register: &[u8], e: &[u8], answer: &mut [u8]) -> u32 {
    let easting = coordinate(e, FIRST);
    let northing = coordinate(e, SECOND);
    let asked = match region {
        Region::Rectangle => {
            let east = coordinate(e, THIRD);
            let north = coordinate(e, FOURTH);
            in_rectangle(register, easting, northing, east, north, answer)
        }
        Region::Circle => in_radius(register, easting, northing, bits(e, THIRD), answer),
    };
    answer_number(asked)
}

// The number, and what became of the answer's buffer, whose first bytes are lent.
pub fn in_region<W: Write>(out: &mut W, region: Region, register: &[u8], e: &[u8]) -> Result<()> {
    let before: [u8; ROOM] = [FILL; ROOM];
    let mut answer = before;
    let length = bits(e, 0) as usize;
    if length <= ROOM {
        let number = ask(region, register, e, &mut answer[..length]);
        write!(out, "{number}")?;
    }
    changes(out, &before, &answer)
}

pub fn nearest<W: Write>(out: &mut W, register: &[u8], e: &[u8]) -> Result<()> {
    let easting = coordinate(e, 0);
    let northing = coordinate(e, NUMBER);
    found(out, nearest_on(register, easting, northing))
}
