// Noted lengths in a state's buffer.
ghost use Rattle.std.specs.Prelude.{◌≡◌, ◌≤◌, length};
ghost use Rattle.base.specs.Bytes.{number_at};
ghost use Rattle.base.specs.Sets.{in_set};
ghost use Rattle.replication.specs.Machine.Types.{with_noted};
ghost use Rattle.replication.specs.Machine.Colours.{note as noted};
ghost use Rattle.replication.specs.Machine.Exchange.{note_all};
ghost use Rattle.replication.specs.Machine.White.{least};
ghost use Rattle.replication.specs.Machine.Step.{collected};
ghost use Rattle.image.specs.Layout.{header_size, at_states};
ghost use Rattle.image.specs.Holding.{HoldsSome, Becomes, Computes};
ghost use Rattle.updates.specs.Lists.{NumberIn};
ghost use Rattle.updates.specs.Noting.{sent_length, noted_slot};

use crate::states::state_place;
use image::places::{Section, place_of};
use octets::numbers::{num8, num32, put32};
use record::State;
use record::events::StateHead;
use record::sets::has;

// "a noted length never falls"
pub fn note(state: &mut [u8], c: u8, l: u32)
    requires { NumberIn c state.old }
    ensures { Becomes (λ s. with_noted (noted c l s.noted) s) state.old state.new }
{
    let at = place_of(state, Section::Noted) + State::NOTED * c as usize;
    if num32(state, at) < l {
        put32(state, at, l);
    }
}

// The least noted length: so many actions are green on every server.
pub fn least_noted(state: &[u8]) -> u32
    requires { HoldsSome state.now }
    ensures { Computes (λ s. least s.noted) state.now result }
{
    let at = place_of(state, Section::Noted);
    let servers = num8(state, State::AT_SERVERS) as usize;
    let mut low = num32(state, at);
    for k in 1..servers {
        let length = num32(state, at + State::NOTED * k);
        low = low.min(length);
    }
    low
}

// Whether the State of server k is in.
fn is_in(state: &[u8], k: u8) -> bool
    requires { header_size ≤ length state.now }
    ensures { result ≡ in_set k (number_at 1 state.now at_states) }
{
    has(num8(state, State::AT_STATES), k as usize)
}

// The green length in the State of server k: behind the cuts.
fn sent_length(state: &[u8], k: u8) -> u32
    requires { NumberIn k state.now }
    ensures { result ≡ sent_length k state.now }
{
    let at = state_place(state, k);
    let n = num8(state, State::AT_SERVERS) as usize;
    num32(state, at + (StateHead::CUTS + State::CUT * n))
}

// The green length of server k, if its State is in.
fn note_state(state: &mut [u8], k: u8)
    requires { NumberIn k state.old }
    ensures { Becomes (noted_slot k) state.old state.new }
{
    if is_in(state, k) {
        let l = sent_length(state, k);
        note(state, k, l);
    }
}

// "note each State's green length"
pub fn note_all(state: &mut [u8])
    requires { HoldsSome state.old }
    ensures { Becomes (λ s. with_noted (note_all (collected s) s.noted) s) state.old state.new }
{
    let n = num8(state, State::AT_SERVERS);
    for k in 0..n {
        note_state(state, k);
    }
}
