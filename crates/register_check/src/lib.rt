// A register of pegs in a lent buffer: whether it is one, and what stands in it.
#![tactic(auto)]

ghost use Rattle.std.specs.Prelude.{◌≡◌, ◌+◌, ◌*◌, ◌≤◌, ◌<◌, length};
ghost use Rattle.std.proofs.Math.Option.{some};
ghost use Rattle.pegs.specs.Register.{most_pegs};
ghost use Rattle.pegs.specs.Image.{count_size, peg_size, register_length, peg_at};
ghost use Rattle.pegs.specs.Outcome.{not_found, found_if, find_on};
ghost use Rattle.register_check.specs.Answers.{located};

pub mod layout; // layout.rt: where the parts of a register lie
pub mod refusing; // refusing.rt: its refusals
pub mod contents; // contents.rt: the register that a buffer holds
pub mod checking; // checking.rt: whether a buffer holds a register
pub mod coordinates; // coordinates.rt: bits as millimetres, pegs as points
pub mod searching; // searching.rt: a peg searched by its name

use contents::Register;
use coordinates::point_at;
use layout::{COUNT_SIZE, PEG_SIZE, REGISTER_LENGTH};

// How long a register's buffer must be.
pub fn register_length() -> u32
    ensures { result ≡ register_length }
{
    REGISTER_LENGTH as u32
}

// 0, and 1 with which peg of the register it is, from 0 on, and its place in millimetres; or zeros where there is none of that name. Or the
// number of a refusal and zeros.
// Stays: a number, and a flag beside a value, since it is the C struct guzbytor_register_find_answer (exports guzbytor_register_find and _nearest).
#[repr(C)]
#[derive(Clone, Copy)]
pub struct RegisterFind {
    pub number: u32,
    pub found: u32,
    pub index: u32,
    pub easting: i32,
    pub northing: i32,
}

impl RegisterFind {
    pub fn none(number: u32) -> RegisterFind
        ensures { located result ≡ not_found number }
    {
        RegisterFind {
            number,
            found: 0,
            index: 0,
            easting: 0,
            northing: 0,
        }
    }

    // The peg in the slot of this index.
    pub fn peg(register: &[u8], index: usize) -> RegisterFind
        requires { (index < most_pegs) × (count_size + peg_size * index + peg_size ≤ length register.now) }
        ensures { located result ≡ found_if index (some (peg_at register.now (count_size + peg_size * index)).place) }
    {
        let place = point_at(register, COUNT_SIZE + PEG_SIZE * index);
        RegisterFind {
            number: 0,
            found: 1,
            index: index as u32,
            easting: place.easting,
            northing: place.northing,
        }
    }
}

// Where the peg of this name stands. 7 where the buffer is too short, then 8 where it holds no register.
pub fn find(register: &[u8], name: &[u8]) -> RegisterFind
    ensures { located result ≡ find_on register.now name.now }
{
    match Register::read(register) {
        Err(refusal) => RegisterFind::none(u32::from(refusal)),
        Ok(held) => match held.search(name) {
            Ok(index) => RegisterFind::peg(register, index),
            Err(_) => RegisterFind::none(0),
        },
    }
}
