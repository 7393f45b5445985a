// Refusals of a question on a region, by their order, and its answer.
ghost use Rattle.std.specs.Prelude.{◌≡◌, ◌≤◌, length, IfOk};
ghost use Rattle.pegs.specs.Image.{register_length};
ghost use Rattle.pegs.specs.Queries.{both_number, sides_number};
ghost use Rattle.register_check.specs.Numbers.{answer_number};
ghost use Rattle.register_queries.specs.Arguments.{AnswersRegion, held_number};

use crate::collecting::collect;
use plane::Region;
use refusals::Refusal;
use register_check::contents::Register;
use register_check::layout::REGISTER_LENGTH;
use register_check::refusing::RegisterRefusal;

// "7 a buffer below its formula, then 8 a register .. out of range or order or with a name twice": what the answer's buffer holds is not read.
fn check_buffers<'a>(register: &'a [u8], answer: &[u8]) -> Result<Register<'a>, Refusal>
    ensures number { held_number result ≡ both_number register.now answer.now }
    ensures lent { IfOk result (λ it. it.bytes.now ≡ register.now) }
    ensures room { IfOk result (λ _. register_length ≤ length answer.now) }
{
    if answer.len() < REGISTER_LENGTH {
        return Err(Refusal::ShortBuffer);
    }
    Register::read(register)
}

// "12 a rectangle whose low side exceeds its high side"
fn check_sides(region: Region) -> Result<(), RegisterRefusal>
    ensures { answer_number result ≡ sides_number region }
{
    let Region::Inside(sides) = region else {
        return Ok(());
    };
    if sides.sides_rise() {
        Ok(())
    } else {
        Err(RegisterRefusal::BadRectangle)
    }
}

// The pegs of the region, as a register in the answer's buffer; refused, nothing is changed.
pub fn answer_region(
    register: &[u8],
    region: Region,
    answer: &mut [u8],
) -> Result<(), RegisterRefusal>
    ensures { AnswersRegion (answer_number result) region register.now answer }
{
    let held = check_buffers(register, answer)?;
    check_sides(region)?;
    collect(held, region, answer);
    Ok(())
}
