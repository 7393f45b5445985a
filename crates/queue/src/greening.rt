// An action turns green.
ghost use Rattle.std.specs.Prelude.{◌≡◌, ◌+◌, ◌*◌, ◌≤◌};
ghost use Rattle.record.specs.Values.{the_id, action_of};
ghost use Rattle.replication.specs.Machine.Types.{with_log};
ghost use Rattle.replication.specs.Machine.Colours.{green_id};
ghost use Rattle.image.specs.Holding.{HoldsSuch, Becomes};
ghost use Rattle.queue.specs.Queue.{first_with, reds_in, promoted, Placed, BecomesGreen, SlotIn};
ghost use Rattle.image.specs.Counts.{CountsIn};
ghost use Rattle.format.specs.Limits.{most_ids};

use crate::entering::red;
use crate::finding::find;
use crate::slots::last_to_front;
use image::places::{Section, place_of};
use octets::numbers::{num32, put32};
use record::{ActionHead, ActionId, State};

// The slot k from `at` on goes to the front of those before it.
fn promote(state: &mut [u8], at: usize, k: usize, green: u32)
    requires { SlotIn at k state.old × (green ≤ most_ids) }
    ensures { state.new ≡ promoted at k (green + 1) state.old }
{
    let end = at + (State::SLOT * k + State::SLOT);
    last_to_front(&mut state[at..end]);
    put32(state, State::AT_GREEN_COUNT, green + 1);
}

// The first red action with this id, by how many red ones come before it.
fn red_place(state: &[u8], id: ActionId) -> Option<usize>
    requires { CountsIn state.now }
    ensures { result ≡ first_with (the_id id) (reds_in state.now) }
{
    let green = num32(state, State::AT_GREEN_COUNT);
    let reds = num32(state, State::AT_QUEUE_LENGTH) - green;
    let at = place_of(state, Section::Queue) + State::SLOT * green as usize;
    find(state, at, reds as usize, id)
}

// "A newly green action goes directly above the last green one, and reds above it move up. One already green stays."
pub fn green_id(state: &mut [u8], id: ActionId)
    requires { CountsIn state.old }
    ensures { Becomes (λ s. with_log (green_id (the_id id) s.log) s) state.old state.new }
{
    if let Some(k) = red_place(state, id) {
        let green = num32(state, State::AT_GREEN_COUNT);
        let at = place_of(state, Section::Queue) + State::SLOT * green as usize;
        promote(state, at, k, green);
    }
}

// "As red, then" green.
pub fn green(state: &mut [u8], head: ActionHead, payload: &[u8])
    requires { HoldsSuch (λ s. Placed s (action_of head payload.now)) state.old }
    ensures { BecomesGreen (action_of head payload.now) state.old state.new }
{
    red(state, head, payload);
    green_id(state, head.id());
}
