// An action is entered: it joins the queue's red part, its creator's cut rises, and an own action leaves the own list.
ghost use Rattle.std.specs.Prelude.{◌≡◌, ◌+◌, ◌*◌, ◌≤◌, length};
ghost use Rattle.record.specs.Values.{action_of};
ghost use Rattle.image.specs.Layout.{slot_size, header_size};
ghost use Rattle.queue.specs.Queue.{RoomFor, RoomIfNext, appended, queued, popped, BecomesEntered, BecomesRed};

use crate::slots::put_slot;
use image::places::{Section, place_of};
use octets::moves::shift_down;
use octets::numbers::{num8, num16, num32, put16, put32};
use record::{ActionHead, State};

// Stays: (d) head and payload are lent apart, since every caller has them apart: a struct would be made for each call and taken apart again.
// An action behind the last one of the queue.
fn append(state: &mut [u8], head: ActionHead, payload: &[u8])
    requires { RoomFor head.creator (length payload.now) state.old }
    ensures { state.new ≡ appended (action_of head payload.now) state.old }
{
    let count = num32(state, State::AT_QUEUE_LENGTH);
    let at = place_of(state, Section::Queue) + State::SLOT * count as usize;
    put_slot(state, at, head, payload);
    put32(state, State::AT_QUEUE_LENGTH, count + 1);
}

// The same, and its creator's cut.
fn enqueue(state: &mut [u8], head: ActionHead, payload: &[u8])
    requires { RoomFor head.creator (length payload.now) state.old }
    ensures { state.new ≡ queued (action_of head payload.now) state.old }
{
    append(state, head, payload);
    put16(
        state,
        State::SIZE + State::CUT * head.creator as usize,
        head.index,
    );
}

// The first of the own actions is left out.
fn pop_own(state: &mut [u8], at: usize, own: u16)
    requires { (1 ≤ own) × (header_size ≤ length state.old) × (at + slot_size * own ≤ length state.old) }
    ensures { state.new ≡ popped at own state.old }
{
    let end = at + State::SLOT * own as usize;
    shift_down(&mut state[at..end], State::SLOT);
    put16(state, State::AT_OWN_COUNT, own - 1);
}

// "An action is entered only if its index is its creator's cut plus one; the cut rises." "An own action leaves the own list when
// entered."
pub fn enter(state: &mut [u8], head: ActionHead, payload: &[u8])
    requires { RoomFor head.creator (length payload.now) state.old }
    ensures { BecomesEntered (action_of head payload.now) state.old state.new }
{
    let me = num8(state, State::AT_ME);
    let own = num16(state, State::AT_OWN_COUNT);
    let at = place_of(state, Section::Own);
    enqueue(state, head, payload);
    if head.creator == me && 0 < own {
        pop_own(state, at, own);
    }
}

// The action is entered if it is its creator's next one; "any other is ignored".
pub fn red(state: &mut [u8], head: ActionHead, payload: &[u8])
    requires { RoomIfNext head.creator head.index (length payload.now) state.old }
    ensures { BecomesRed (action_of head payload.now) state.old state.new }
{
    let cut = num16(state, State::SIZE + State::CUT * head.creator as usize);
    if u32::from(cut) + 1 == u32::from(head.index) {
        enter(state, head, payload);
    }
}
