// Actions turn white: they leave the front of the queue.
ghost use Rattle.std.specs.Prelude.{◌≡◌, ◌+◌, ◌*◌, ◌≤◌, max, min, length};
ghost use Rattle.format.specs.Limits.{most_ids};
ghost use Rattle.replication.specs.Machine.Types.{with_white};
ghost use Rattle.image.specs.Layout.{slot_size, header_size};
ghost use Rattle.image.specs.Counts.{green_count, CountsIn};
ghost use Rattle.image.specs.Holding.{Becomes};
ghost use Rattle.queue.specs.Queue.{shifted, QueueIn};

use crate::history::white_length;
use image::places::{Section, place_of};
use octets::moves::shift_down;
use octets::numbers::{num32, put32};
use record::State;

// The first k of the `count` slots from `at` on leave the queue; those behind them move down.
fn drop_slots(state: &mut [u8], at: usize, count: u32, k: u32)
    requires { (k ≤ count) × (count ≤ most_ids) × (header_size ≤ length state.old) × (at + slot_size * count ≤ length state.old) }
    ensures { state.new ≡ shifted at count k state.old }
{
    let end = at + State::SLOT * count as usize;
    shift_down(&mut state[at..end], State::SLOT * k as usize);
    put32(state, State::AT_QUEUE_LENGTH, count - k);
}

// The first k green actions that have a slot turn white: one move, and both counts.
pub fn shift_out(state: &mut [u8], k: u32)
    requires { CountsIn state.old × (k ≤ green_count state.old) }
    ensures { Becomes (λ s. with_white (s.white + k) s) state.old state.new }
{
    let count = num32(state, State::AT_QUEUE_LENGTH);
    let green = num32(state, State::AT_GREEN_COUNT);
    let at = place_of(state, Section::Queue);
    drop_slots(state, at, count, k);
    put32(state, State::AT_GREEN_COUNT, green - k);
}

// The white length `to` is taken "if it is higher than its own, but never above its own green length".
pub fn raise_white(state: &mut [u8], to: u32)
    requires { QueueIn state.old }
    ensures { Becomes (λ s. with_white (max s.white (min (length s.log.green) to)) s) state.old state.new }
{
    let white = white_length(state);
    if white < to {
        let green = num32(state, State::AT_GREEN_COUNT);
        shift_out(state, green.min(to - white));
    }
}
