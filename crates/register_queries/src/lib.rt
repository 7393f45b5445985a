// The pegs of a register in the plane: those of a region, as a register in a lent buffer, and the one nearest to a point. Document 02, K5.
#![tactic(auto)]

ghost use Rattle.std.specs.Prelude.{◌≡◌};
ghost use Rattle.pegs.specs.Queries.{nearest_on};
ghost use Rattle.register_check.specs.Answers.{located};
ghost use Rattle.register_check.specs.Numbers.{answer_number};
ghost use Rattle.register_queries.specs.Arguments.{rectangle, disc, point, AnswersRegion};

pub mod collecting; // collecting.rt: the pegs of a region
pub mod answering; // answering.rt: refusals, and the answer of a region
pub mod nearest; // nearest.rt: the nearest peg

use answering::answer_region;
use nearest::nearest;
use plane::{Point, Rectangle, Region};
use register_check::RegisterFind;
use register_check::contents::Register;
use register_check::refusing::RegisterRefusal;

// The pegs inside a rectangle, edges included: 7, 8, then 12.
// Stays: four numbers in place of a `Rectangle`, as C gives them to guzbytor_register_rectangle.
pub fn in_rectangle(
    register: &[u8],
    west: i32,
    south: i32,
    east: i32,
    north: i32,
    answer: &mut [u8],
) -> Result<(), RegisterRefusal>
    ensures { AnswersRegion (answer_number result) (rectangle west south east north) register.now answer }
{
    let sides = Rectangle {
        west,
        south,
        east,
        north,
    };
    answer_region(register, Region::Inside(sides), answer)
}

// The pegs within so many millimetres of a point, the edge included: 7, then 8.
pub fn in_radius(
    register: &[u8],
    easting: i32,
    northing: i32,
    radius: u32,
    answer: &mut [u8],
) -> Result<(), RegisterRefusal>
    ensures { AnswersRegion (answer_number result) (disc easting northing radius) register.now answer }
{
    let centre = Point { easting, northing };
    answer_region(register, Region::Within { centre, radius }, answer)
}

// The peg nearest to a point, the smaller name winning a tie: 7, then 8. Only the empty register has none.
pub fn nearest_on(register: &[u8], easting: i32, northing: i32) -> RegisterFind
    ensures { located result ≡ nearest_on register.now (point easting northing) }
{
    match Register::read(register) {
        Err(refusal) => RegisterFind::none(u32::from(refusal)),
        Ok(held) => match nearest(held, Point { easting, northing }) {
            Some(index) => RegisterFind::peg(register, index),
            None => RegisterFind::none(0),
        },
    }
}
