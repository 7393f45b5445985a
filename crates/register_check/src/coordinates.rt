// Coordinates: bits as millimetres, and pegs as points of the plane.
ghost use Rattle.std.specs.Prelude.{◌≡◌, ◌+◌, ◌≤◌, length};
ghost use Rattle.pegs.specs.Operations.{coordinate};
ghost use Rattle.pegs.specs.Image.{peg_size, peg_at};
ghost use Rattle.pegs.specs.Regions.{point_of};

use super::layout::{AT_PLACE, COORDINATE_SIZE};
use octets::numbers::num32;
use plane::Point;

// The millimetres that 32 bits are. The half of them with the highest bit set is below zero.
pub fn millimetres(bits: u32) -> i32
    ensures { result ≡ coordinate bits }
{
    bits.cast_signed()
}

// Where the peg in the slot at `at` stands.
pub fn point_at(register: &[u8], at: usize) -> Point
    requires { at + peg_size ≤ length register.now }
    ensures { result ≡ point_of (peg_at register.now at).place }
{
    let place = at + AT_PLACE;
    Point {
        easting: millimetres(num32(register, place)),
        northing: millimetres(num32(register, place + COORDINATE_SIZE)),
    }
}
