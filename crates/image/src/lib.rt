// The state's image in a lent buffer: its numbers and sections, how long both buffers must be, and the start.
#![tactic(auto)]

ghost use Rattle.std.specs.Prelude.{◌≡◌};
ghost use Rattle.image.specs.Outcome.{lengths_of, started, start_on};
ghost use Rattle.refusals.specs.Numbers.{outcome_number};

pub mod header; // header.rt: the state's numbers in its buffer
pub mod sizes; // sizes.rt: how long the buffers must be
pub mod places; // places.rt: where the sections begin
pub mod starting; // starting.rt: the start in its buffer

use record::range::sizes_ok;
use refusals::Refusal;
use sizes::{Sizes, least_state_length};
use starting::begin;

// 0 and the required lengths of both buffers, or 2 where servers or quota is out of range.
#[repr(C)]
#[derive(Clone, Copy)]
pub struct Lengths {
    pub number: u32,
    pub state: u32,
    pub out: u32,
}

pub fn lengths_of(servers: u32, quota: u32) -> Lengths
    ensures { result ≡ lengths_of servers quota }
{
    if !sizes_ok(servers, quota) {
        return Lengths {
            number: u32::from(Refusal::OutOfRange),
            state: 0,
            out: 0,
        };
    }
    let sizes = Sizes { servers, quota };
    Lengths {
        number: 0,
        state: sizes.state_length(),
        out: sizes.out_length(),
    }
}

// Makes the start of server `me` in its buffer, unless the buffer is too short, or a number is out of range: then it is as before.
pub fn start(state: &mut [u8], servers: u32, quota: u32, me: u32) -> Result<(), Refusal>
    ensures { started (outcome_number result) state.new ≡ start_on servers quota me state.old }
{
    if !sizes_ok(servers, quota) {
        if state.len() < least_state_length() as usize {
            return Err(Refusal::ShortBuffer);
        }
        return Err(Refusal::OutOfRange);
    }
    if state.len() < (Sizes { servers, quota }).state_length() as usize {
        return Err(Refusal::ShortBuffer);
    }
    if servers <= me {
        return Err(Refusal::OutOfRange);
    }
    begin(state, servers as u8, quota as u16, me as u8);
    Ok(())
}
