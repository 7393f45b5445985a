// A state's buffer with a configuration and collected States.
ghost use Rattle.std.specs.Prelude.{◌≤◌};
ghost use Rattle.format.specs.Limits.{most_servers_limit};

use image::header::{load, save};
use image::sizes::Sizes;
use image::start;
use record::events::Event;
use record::range::{product, sizes_ok};
use record::sets::{has, with_member};
use record::{Mode, State};
use vector_tools::patch::patch;

// The byte at `at`, and 0 past the end.
fn byte(s: &[u8], at: usize) -> u8 {
    s.get(at).copied().unwrap_or(0)
}

pub fn put(state: &mut [u8], at: usize, b: u8) {
    if let Some(place) = state.get_mut(at) {
        *place = b;
    }
}

// How many servers there are, at most 8.
pub fn number_of(state: &[u8]) -> u8
    ensures { result ≤ most_servers_limit }
{
    byte(state, State::AT_SERVERS).min(State::MOST_SERVERS)
}

// Those whose State is in.
pub fn senders(state: &[u8]) -> u8 {
    byte(state, State::AT_STATES)
}

// In Exchange_states with this set, of the configuration 1.
fn configure(state: &mut [u8], set: u8, cpcs: u8) {
    if State::SIZE <= state.len() {
        let mut t = load(state);
        t.mode = u8::from(Mode::ExchangeStates);
        t.configuration_status = 1;
        t.configuration_id = 1;
        t.configuration_set = set;
        t.cpcs = cpcs;
        save(state, t);
    }
}

// Where the slot of server k begins, if there is one.
fn slot_at(servers: u32, quota: u32, k: u8) -> Option<usize> {
    if k < State::MOST_SERVERS && sizes_ok(servers, quota) {
        let sizes = Sizes { servers, quota };
        let at = sizes.states_at() + product(u32::from(k), sizes.state_size());
        Some(at as usize)
    } else {
        None
    }
}

// The State of this record in its sender's slot.
fn collect(state: &mut [u8], e: &[u8]) {
    let k = byte(e, Event::SENDER);
    if k < State::MOST_SERVERS && State::SIZE <= state.len() {
        let h = load(state);
        if let Some(at) = slot_at(u32::from(h.servers), u32::from(h.quota), k) {
            patch(state, at, e);
        }
        put(
            state,
            State::AT_STATES,
            with_member(h.states, usize::from(k)),
        );
    }
}

// The States of these records, each as long as its length bytes say.
fn collect_all(state: &mut [u8], e: &[u8]) {
    let mut rest = e;
    while let [high, low, ..] = rest {
        let size = usize::from(u16::from_be_bytes([*high, *low])) + Event::LENGTH_SIZE;
        let Some((record, next)) = rest.split_at_checked(size) else {
            return;
        };
        collect(state, record);
        rest = next;
    }
}

// The state of the lowest member of the set, 0 where there is none.
pub fn build(state: &mut [u8], e: &[u8]) -> bool {
    let [servers, high, low, set, cpcs, states @ ..] = e else {
        return false;
    };
    let quota = u32::from(u16::from_be_bytes([*high, *low]));
    let me = (0..State::MOST_SERVERS).find(|k| has(*set, usize::from(*k)));
    if start(
        state,
        u32::from(*servers),
        quota,
        u32::from(me.unwrap_or(0)),
    )
    .is_err()
    {
        return false;
    }
    configure(state, *set, *cpcs);
    collect_all(state, states);
    true
}
