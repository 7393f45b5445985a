// Collected States in a state's buffer.
ghost use Rattle.std.specs.Prelude.{◌≡◌, ◌+◌, ◌≤◌, ◌<◌, length};
ghost use Rattle.base.specs.Bytes.{bytes_of, number_at};
ghost use Rattle.base.specs.Patched.{patched};
ghost use Rattle.base.specs.Sets.{with_member};
ghost use Rattle.format.specs.Limits.{most_servers_limit};
ghost use Rattle.image.specs.Layout.{header_size, at_states};
ghost use Rattle.updates.specs.Lists.{state_place, NumberIn, CollectRoom, BecomesCollected};

use image::places::{Section, place_of};
use image::sizes::Sizes;
use octets::blocks::copy;
use octets::numbers::{num8, num16, put8};
use record::range::product;
use record::sets::with_member;

// Where the slot of server k begins.
pub fn state_place(state: &[u8], k: u8) -> usize
    requires { NumberIn k state.now }
    ensures { result ≡ state_place k state.now }
{
    let sizes = Sizes {
        servers: num8(state, record::State::AT_SERVERS) as u32,
        quota: num16(state, record::State::AT_QUOTA) as u32,
    };
    place_of(state, Section::States) + product(k as u32, sizes.state_size()) as usize
}

// The set of senders, with server k.
fn with_sender(state: &[u8], k: u8) -> u8
    requires { (header_size ≤ length state.now) × (k < most_servers_limit) }
    ensures { result ≡ with_member k (number_at 1 state.now at_states) }
{
    with_member(num8(state, record::State::AT_STATES), k as usize)
}

// A record at `at`, and the set of senders.
fn put_state(state: &mut [u8], at: usize, event: &[u8], senders: u8)
    requires { (at + length event.now ≤ length state.old) × (header_size ≤ length state.old) }
    ensures { state.new ≡ patched at_states (bytes_of 1 senders) (patched at event.now state.old) }
{
    copy(state, at, event);
    put8(state, record::State::AT_STATES, senders);
}

// The State of server k is in: its record, as it came.
pub fn collect_state(state: &mut [u8], k: u8, event: &[u8])
    requires { CollectRoom k event.now state.old }
    ensures { BecomesCollected k event.now state.old state.new }
{
    let at = state_place(state, k);
    let senders = with_sender(state, k);
    put_state(state, at, event, senders);
}
