// An action turns green: it and the lowest red one change places, so that no other slot moves.
ghost use Rattle.std.specs.Prelude.{◌≡◌, ◌+◌, ◌*◌, ◌≤◌, ◌<◌, length};
ghost use Rattle.image.specs.Layout.{slot_size};
ghost use Rattle.install.specs.Swaps.{exchanged, green_at};
ghost use Rattle.image.specs.Counts.{queue_count, green_count, CountsIn};

use image::places::{Section, place_of};
use octets::blocks::copy;
use octets::numbers::{num32, put32};
use queue::slots::slot_at;
use record::State;

// The slots from i on and from j on change places.
fn exchange(state: &mut [u8], i: usize, j: usize)
    requires { (i + slot_size ≤ length state.old) × (j + slot_size ≤ length state.old) }
    ensures { state.new ≡ exchanged i j state.old }
{
    let x = slot_at(state, i);
    let y = slot_at(state, j);
    copy(state, i, &y);
    copy(state, j, &x);
}

// The red action at the place k of the queue turns green: it and the lowest red one change places.
pub fn green_at(state: &mut [u8], k: usize)
    requires { CountsIn state.old × (green_count state.old ≤ k) × (k < queue_count state.old) }
    ensures { state.new ≡ green_at k state.old }
{
    let green = num32(state, State::AT_GREEN_COUNT);
    let at = place_of(state, Section::Queue);
    exchange(
        state,
        at + State::SLOT * green as usize,
        at + State::SLOT * k,
    );
    put32(state, State::AT_GREEN_COUNT, green + 1);
}
