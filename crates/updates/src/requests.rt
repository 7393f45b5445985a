// Requests in a state's buffer: numbered, on the own list, and sent.
ghost use Rattle.std.specs.Prelude.{◌≡◌, ◌+◌, ◌*◌, ◌≤◌, length};
ghost use Rattle.record.specs.Values.{action_of};
ghost use Rattle.replication.specs.Machine.Requests.{numbered as with_numbered, send_waiting};
ghost use Rattle.image.specs.Layout.{slot_size, header_size};
ghost use Rattle.image.specs.Holding.{HoldsSuch, Becomes, BecomesWhere, Computes};
ghost use Rattle.updates.specs.Lists.{PayloadRoom, SlotRoom, next_head, own_counts, MayNumber};
ghost use Rattle.queue.specs.Queue.{slot_put};

use crate::numbers::change;
use image::places::{Section, place_of};
use octets::numbers::{num8, num16, put16};
use queue::history::{green_length, white_length};
use queue::slots::put_slot;
use record::{ActionHead, State};

// The next own action but its payload.
pub fn next_head(state: &[u8]) -> ActionHead
    requires { HoldsSuch MayNumber state.now }
    ensures { Computes next_head state.now result }
{
    ActionHead {
        creator: num8(state, State::AT_ME),
        index: num16(state, State::AT_NUMBERED) + 1,
        green_length: green_length(state),
        white_length: white_length(state),
    }
}

pub fn put_counts(state: &mut [u8], numbered: u16, own: u16)
    requires { header_size ≤ length state.old }
    ensures { state.new ≡ own_counts numbered own state.old }
{
    put16(state, State::AT_NUMBERED, numbered);
    put16(state, State::AT_OWN_COUNT, own);
}

// An action's slot at `at`, and the counts.
fn push_own(state: &mut [u8], at: usize, head: ActionHead, payload: &[u8], numbered: u16, own: u16)
    requires { SlotRoom slot_size at payload.now state.old }
    ensures { state.new ≡ own_counts numbered own (slot_put at (action_of head payload.now) state.old) }
{
    put_slot(state, at, head, payload);
    put_counts(state, numbered, own);
}

// "numbered, put on the own list"
pub fn number(state: &mut [u8], payload: &[u8])
    requires { PayloadRoom payload.now state.old }
    ensures { BecomesWhere MayNumber (with_numbered payload.now) state.old state.new }
{
    let at = place_of(state, Section::Own);
    let own = num16(state, State::AT_OWN_COUNT);
    let numbered = num16(state, State::AT_NUMBERED);
    let head = next_head(state);
    push_own(
        state,
        at + State::SLOT * own as usize,
        head,
        payload,
        numbered + 1,
        own + 1,
    );
}

// What waits is sent: no byte of the own list moves.
pub fn send_waiting(state: &mut [u8])
    requires { header_size ≤ length state.old }
    ensures { Becomes send_waiting state.old state.new }
{
    change(
        state,
        |h| State {
            sent: h.numbered,
            ..h
        },
    );
}
