// A slot of an action written, and slots moved in place.
ghost use Rattle.std.specs.Prelude.{◌≡◌, ◌+◌, ◌≤◌, length};
ghost use Rattle.base.specs.Bytes.{part_at};
ghost use Rattle.format.specs.Limits.{most_payload_limit};
ghost use Rattle.record.specs.Values.{action_of};
ghost use Rattle.image.specs.Layout.{slot_size};
ghost use Rattle.queue.specs.Queue.{slot_put, last_to_front};

use octets::blocks::{clear, copy};
use octets::moves::shift_up;
use record::{ActionHead, State};
use writer::parts::put_body;

// An action's slot from `at` on: its bytes, filled up with zeros.
pub fn put_slot(state: &mut [u8], at: usize, head: ActionHead, payload: &[u8])
    requires { (length payload.now ≤ most_payload_limit) × (at + slot_size ≤ length state.old) }
    ensures { state.new ≡ slot_put at (action_of head payload.now) state.old }
{
    put_body(state, at, head, payload);
    clear(
        state,
        at + (ActionHead::SIZE + payload.len()),
        State::SLOT - (ActionHead::SIZE + payload.len()),
    );
}

// The slot from `at` on.
pub fn slot_at(s: &[u8], at: usize) -> [u8; State::SLOT]
    requires { at + slot_size ≤ length s.now }
    ensures { result ≡ part_at slot_size s.now at }
{
    let mut x: [u8; State::SLOT] = [0; State::SLOT];
    x.copy_from_slice(&s[at..at + State::SLOT]);
    x
}

// The last slot goes to the front; the others move up one place.
pub fn last_to_front(s: &mut [u8])
    requires { slot_size ≤ length s.old }
    ensures { s.new ≡ last_to_front s.old }
{
    let last = slot_at(s, s.len() - State::SLOT);
    shift_up(s, State::SLOT);
    copy(s, 0, &last);
}
