// Green actions of a state applied to the register.
ghost use Rattle.std.specs.Prelude.{◌≡◌, ◌+◌, ◌≤◌, length, drop};
ghost use Rattle.std.specs.Int.{from_bool};
ghost use Rattle.base.specs.Bytes.{number_at};
ghost use Rattle.format.specs.Places.{action_payload_at, action_head_size};
ghost use Rattle.format.specs.Read.{action_at};
ghost use Rattle.image.specs.Decode.{greens_in};
ghost use Rattle.image.specs.Holding.{HoldsSome};
ghost use Rattle.pegs.specs.Outcome.{register_number};
ghost use Rattle.register_step.specs.Carrying.{AppliedOne, CarryReady, CarriesOn, CarriesMet, carry_on, carried_by};

use image::places::{Section, place_of};
use octets::numbers::num8;
use queue::history::{green_length, green_slot};
use record::{ActionHead, State};
use register::apply;
use step::meeting::meet;

// How many actions were applied, and how many operations of them were refused.
#[derive(Clone, Copy)]
pub struct Carried {
    pub greened: u32,
    pub refused: u32,
}

// The payload of the action in the slot from `slot` on is applied: whether it is refused.
fn is_refused(state: &[u8], slot: usize, register: &mut [u8]) -> bool
    requires action_payload_at_in_bounds { slot + action_head_size + number_at 1 state.now (slot + action_payload_at) ≤ length state.now }
    requires register_value { register_number register.old ≡ 0 }
    ensures { AppliedOne (action_at state.now slot) register.old (from_bool result) register.new }
{
    let m = usize::from(num8(state, slot + ActionHead::PAYLOAD));
    let from = slot + ActionHead::SIZE;
    let end = from + m;
    apply(register, &state[from..end]).is_err()
}

// Those behind the first `from` of the green history, in their order: none of them is white.
pub fn carry(state: &[u8], register: &mut [u8], from: u32) -> Carried
    requires { CarryReady state.now from register.old }
    ensures register_after { carried_by result register.new ≡ carry_on (drop from (greens_in state.now)) register.old }
    ensures carries_on { CarriesOn (drop from (greens_in state.now)) register.old register.new }
{
    let green = green_length(state);
    let queue = place_of(state, Section::Queue);
    let mut refused = 0;
    for k in from..green {
        let slot = queue + State::SLOT * green_slot(state, k);
        refused += u32::from(is_refused(state, slot, register));
    }
    Carried {
        greened: green - from,
        refused,
    }
}

// What the event turns green before its action's white length is taken: some of it may be white before the event's first stage ends.
pub fn carry_met(state: &mut [u8], register: &mut [u8], event: &[u8]) -> Carried
    requires { HoldsSome state.old × (register_number register.old ≡ 0) }
    ensures { CarriesMet result state register event.now }
{
    let from = green_length(state);
    meet(state, event);
    carry(state, register, from)
}
