// An action in slots, by its id.
ghost use Rattle.std.specs.Prelude.{◌≡◌, ◌+◌, ◌*◌, ◌≤◌, length};
ghost use Rattle.record.specs.Values.{the_id};
ghost use Rattle.image.specs.Layout.{slot_size};
ghost use Rattle.image.specs.Decode.{actions_at};
ghost use Rattle.queue.specs.Queue.{first_with};

use record::{ActionId, State};

// The first of the `count` slots from `at` on that has this id.
pub fn find(state: &[u8], at: usize, count: usize, id: ActionId) -> Option<usize>
    requires { at + slot_size * count ≤ length state.now }
    ensures { result ≡ first_with (the_id id) (actions_at count state.now at) }
{
    for k in 0..count {
        if id.is_at(state, at + State::SLOT * k) {
            return Some(k);
        }
    }
    None
}
