// The register changed in its lent buffer: its start, and one operation. Document 02, K2.
#![tactic(auto)]

ghost use Rattle.std.specs.Prelude.{◌≡◌, ◌≤◌, length};
ghost use Rattle.refusals.specs.Numbers.{outcome_number};
ghost use Rattle.pegs.specs.Operations.{set, move as move_to, retire, most_name};
ghost use Rattle.pegs.specs.Outcome.{register_number, changed, empty_on, applied_to, apply_on};
ghost use Rattle.register_check.specs.Numbers.{answer_number};
ghost use Rattle.register.specs.Payloads.{placed};
ghost use Rattle.register.specs.Changes.{operated};

pub mod payload; // payload.rt: what a payload is
pub mod changing; // changing.rt: a peg more, less, or elsewhere

use changing::{insert, remove, replace};
use octets::numbers::put16;
use payload::{Operation, Place, operation_of};
use refusals::Refusal;
use register_check::checking::check_register;
use register_check::contents::Register;
use register_check::layout::{MOST_PEGS, REGISTER_LENGTH};
use register_check::refusing::RegisterRefusal;

// Stays: that the register reads is required, not a field of a struct over `&mut`: no plainer, since a change breaks it between two of its writes.

// "9 set and the name is there, then 13 a set while 4,096 stand"
fn set_peg(register: &mut [u8], name: &[u8], place: Place) -> Result<(), RegisterRefusal>
    requires { (register_number register.old ≡ 0) × (length name.now ≤ most_name) }
    ensures { changed (answer_number result) register.new ≡ operated (set name.now (placed place)) register.old }
{
    let held = Register::of(register);
    let count = held.count();
    match held.search(name) {
        Ok(_) => Err(RegisterRefusal::PegThere),
        Err(index) => {
            if MOST_PEGS <= count {
                return Err(RegisterRefusal::RegisterFull);
            }
            insert(register, index, count as u16, name, place);
            Ok(())
        }
    }
}

// "10 move or retire and the name is not there"
fn move_peg(register: &mut [u8], name: &[u8], place: Place) -> Result<(), RegisterRefusal>
    requires { (register_number register.old ≡ 0) × (length name.now ≤ most_name) }
    ensures { changed (answer_number result) register.new ≡ operated (move_to name.now (placed place)) register.old }
{
    let held = Register::of(register);
    let count = held.count() as u16;
    match held.search(name) {
        Ok(index) => {
            replace(register, index, count, place);
            Ok(())
        }
        Err(_) => Err(RegisterRefusal::PegNotThere),
    }
}

fn retire_peg(register: &mut [u8], name: &[u8]) -> Result<(), RegisterRefusal>
    requires { register_number register.old ≡ 0 }
    ensures { changed (answer_number result) register.new ≡ operated (retire name.now) register.old }
{
    let held = Register::of(register);
    let count = held.count() as u16;
    match held.search(name) {
        Ok(index) => {
            remove(register, index, count);
            Ok(())
        }
        Err(_) => Err(RegisterRefusal::PegNotThere),
    }
}

// The payload as an operation, "11 the payload is no such operation, tested first": an error leaves the register as it was.
pub fn apply(register: &mut [u8], payload: &[u8]) -> Result<(), RegisterRefusal>
    requires { register_number register.old ≡ 0 }
    ensures { changed (answer_number result) register.new ≡ applied_to register.old payload.now }
{
    match operation_of(payload) {
        None => Err(RegisterRefusal::NoOperation),
        Some(Operation::Set { name, place }) => set_peg(register, name, place),
        Some(Operation::Move { name, place }) => move_peg(register, name, place),
        Some(Operation::Retire { name }) => retire_peg(register, name),
    }
}

// Makes the empty register in its buffer. 7 where the buffer is too short: then it is as before.
pub fn start(register: &mut [u8]) -> Result<(), Refusal>
    ensures { changed (outcome_number result) register.new ≡ empty_on register.old }
{
    if register.len() < REGISTER_LENGTH {
        return Err(Refusal::ShortBuffer);
    }
    put16(register, 0, 0);
    Ok(())
}

// Applies one payload: "7 a buffer below its formula, then 8 a register .. out of range or order or with a name twice", then the
// numbers of the operation.
pub fn apply_on(register: &mut [u8], payload: &[u8]) -> Result<(), RegisterRefusal>
    ensures { changed (answer_number result) register.new ≡ apply_on register.old payload.now }
{
    check_register(register)?;
    apply(register, payload)
}
