// A register changed in its buffer, by the place of a peg among the others. Each byte is moved once.
ghost use Rattle.std.specs.Prelude.{◌≡◌, ◌+◌, ◌*◌, ◌≤◌, length};
ghost use Rattle.base.specs.Patched.{patched};
ghost use Rattle.pegs.specs.Operations.{most_name, place_size};
ghost use Rattle.pegs.specs.Image.{peg_size, at_place};
ghost use Rattle.register.specs.Changes.{named_bytes, place_bytes, slot_bytes, RoomFor, SlotsIn, widened, inserted, removed, replaced};
ghost use Rattle.register.specs.Payloads.{placed};

use crate::payload::Place;
use octets::blocks::{clear, put_counted};
use octets::moves::{shift_down, shift_up};
use octets::numbers::{put16, put32};
use register_check::layout::{
    AT_PLACE, AT_SLOT_NAME, COORDINATE_SIZE, COUNT_SIZE, MOST_NAME, PEG_SIZE,
};

// A name's length, and the name filled up with zeros, from `at` on.
fn put_name(register: &mut [u8], at: usize, name: &[u8])
    requires { (length name.now ≤ most_name) × (at + at_place ≤ length register.old) }
    ensures { register.new ≡ patched at (named_bytes name.now) register.old }
{
    put_counted(register, at, name);
    clear(
        register,
        at + (AT_SLOT_NAME + name.len()),
        MOST_NAME - name.len(),
    );
}

// Easting and northing, from `at` on.
fn put_place(register: &mut [u8], at: usize, place: Place)
    requires { at + place_size ≤ length register.old }
    ensures { register.new ≡ patched at (place_bytes (placed place)) register.old }
{
    put32(register, at, place.easting);
    put32(register, at + COORDINATE_SIZE, place.northing);
}

// A peg's slot from `at` on.
fn put_peg(register: &mut [u8], at: usize, name: &[u8], place: Place)
    requires { (length name.now ≤ most_name) × (at + peg_size ≤ length register.old) }
    ensures { register.new ≡ patched at (slot_bytes name.now (place_bytes (placed place))) register.old }
{
    put_name(register, at, name);
    put_place(register, at + AT_PLACE, place);
}

// The slots from `index` on move up by one, and the count rises.
fn widen(register: &mut [u8], index: usize, count: u16)
    requires { RoomFor index count register.old }
    ensures { register.new ≡ widened index count register.old }
{
    let at = COUNT_SIZE + PEG_SIZE * index;
    let end = COUNT_SIZE + PEG_SIZE * (usize::from(count) + 1);
    shift_up(&mut register[at..end], PEG_SIZE);
    put16(register, 0, count + 1);
}

// A peg more, in front of the slot `index`.
pub fn insert(register: &mut [u8], index: usize, count: u16, name: &[u8], place: Place)
    requires { RoomFor index count register.old × (length name.now ≤ most_name) }
    ensures { register.new ≡ inserted index count name.now (place_bytes (placed place)) register.old }
{
    widen(register, index, count);
    put_peg(register, COUNT_SIZE + PEG_SIZE * index, name, place);
}

// The slots behind `index` move down by one, over the one there, and the count falls.
pub fn remove(register: &mut [u8], index: usize, count: u16)
    requires { SlotsIn index count register.old }
    ensures { register.new ≡ removed index count register.old }
{
    let at = COUNT_SIZE + PEG_SIZE * index;
    let end = COUNT_SIZE + PEG_SIZE * usize::from(count);
    shift_down(&mut register[at..end], PEG_SIZE);
    put16(register, 0, count - 1);
}

// The peg in the slot `index` goes to this place.
pub fn replace(register: &mut [u8], index: usize, count: u16, place: Place)
    requires { SlotsIn index count register.old }
    ensures { register.new ≡ replaced index (place_bytes (placed place)) register.old }
{
    put_place(register, COUNT_SIZE + PEG_SIZE * index + AT_PLACE, place);
}
