// What a payload is: an operation on a peg, or none.
ghost use Rattle.std.specs.Prelude.{◌≡◌, IfSome};
ghost use Rattle.pegs.specs.Operations.{operation_of};
ghost use Rattle.register.specs.Payloads.{meaning, Fitting};

use octets::numbers::{num8, num32};
use register_check::layout::{COORDINATE_SIZE, PLACE_SIZE, name_fits};

// Easting and northing, by their bits.
#[derive(Clone, Copy)]
pub struct Place {
    pub easting: u32,
    pub northing: u32,
}

#[derive(Clone, Copy)]
pub enum Operation<'a> {
    Set { name: &'a [u8], place: Place },
    Move { name: &'a [u8], place: Place },
    Retire { name: &'a [u8] },
}

// The operation bytes.
pub const SET: u8 = 1;

pub const MOVE: u8 = 2;

pub const RETIRE: u8 = 3;

// Where the name's length and the name lie.
pub const AT_NAME_LENGTH: usize = 1;

pub const AT_NAME: usize = AT_NAME_LENGTH + 1;

// "an operation byte (1 set, 2 move, 3 retire), a name length 1 to 24, the name, and for 1 and 2 easting and northing": nothing may
// follow.
pub fn operation_of(payload: &[u8]) -> Option<Operation<'_>>
    ensures value { meaning result ≡ operation_of payload.now }
    ensures fitting { IfSome result Fitting }
{
    if payload.len() < AT_NAME {
        return None;
    }
    let k = usize::from(num8(payload, AT_NAME_LENGTH));
    if !name_fits(k) {
        return None;
    }
    let end = AT_NAME + k;
    let operation = num8(payload, 0);
    if operation == RETIRE {
        if payload.len() != end {
            return None;
        }
        let name = &payload[AT_NAME..end];
        return Some(Operation::Retire { name });
    }
    if payload.len() != end + PLACE_SIZE {
        return None;
    }
    let name = &payload[AT_NAME..end];
    let place = Place {
        easting: num32(payload, end),
        northing: num32(payload, end + COORDINATE_SIZE),
    };
    match operation {
        SET => Some(Operation::Set { name, place }),
        MOVE => Some(Operation::Move { name, place }),
        _ => None,
    }
}
