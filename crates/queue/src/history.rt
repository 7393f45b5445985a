// The green history: how long it is, and which slots its actions lie in.
ghost use Rattle.std.specs.Prelude.{◌≡◌, ◌+◌, ◌*◌, ◌≤◌, ◌<◌, length};
ghost use Rattle.base.specs.Lists.{sum};
ghost use Rattle.format.specs.Limits.{most_number_limit, most_length_limit};
ghost use Rattle.format.specs.Places.{cut_size};
ghost use Rattle.image.specs.Layout.{header_size};
ghost use Rattle.image.specs.Counts.{queue_count, green_count};
ghost use Rattle.image.specs.Decode.{decoded, servers_in, greens_in, white_in};
ghost use Rattle.image.specs.Holding.{Computes};
ghost use Rattle.queue.specs.Queue.{green_slot, QueueIn};

use octets::numbers::{num8, num16, num32};
use record::State;

// How many actions were entered, by the cuts, whatever else the bytes say.
pub fn entered_count(state: &[u8]) -> u32
    requires { header_size + cut_size * servers_in state.now ≤ length state.now }
    ensures value { result ≡ sum (decoded state.now).log.cuts }
    ensures upper_bound { result ≤ most_number_limit * servers_in state.now }
{
    let servers = num8(state, State::AT_SERVERS) as usize;
    let mut total: u32 = 0;
    for k in 0..servers {
        total += u32::from(num16(state, State::SIZE + State::CUT * k));
    }
    total
}

// How many actions are white: those that were entered and have no slot.
pub fn white_length(state: &[u8]) -> u32
    requires { QueueIn state.now }
    ensures value { (result ≡ white_in state.now) × (result ≤ most_length_limit) }
    ensures computes { Computes (λ s. s.white) state.now result }
{
    entered_count(state) - num32(state, State::AT_QUEUE_LENGTH)
}

// How long the green history is: all that were entered but the red ones.
pub fn green_length(state: &[u8]) -> u32
    requires { QueueIn state.now }
    ensures value { (result ≡ length (greens_in state.now)) × (result ≤ most_length_limit) }
    ensures computes { Computes (λ s. length s.log.green) state.now result }
{
    let reds = num32(state, State::AT_QUEUE_LENGTH) - num32(state, State::AT_GREEN_COUNT);
    entered_count(state) - reds
}

// The slot of the green action that stands behind k others in the green history.
pub fn green_slot(state: &[u8], k: u32) -> usize
    requires { QueueIn state.now × (white_in state.now ≤ k) × (k < white_in state.now + green_count state.now) }
    ensures { (result ≡ green_slot state.now k) × (result < queue_count state.now) }
{
    (k - white_length(state)) as usize
}
