// The ids in Install's order, each turned green: a pass over the yellow list and one over the cuts.
ghost use Rattle.std.specs.Prelude.{[], ◌∷◌, ◌+◌, ◌≤◌, ◌<◌};
ghost use Rattle.format.specs.Limits.{most_servers_limit};
ghost use Rattle.format.specs.Read.{id_at};
ghost use Rattle.replication.specs.Machine.Install.{ids_up_to};
ghost use Rattle.install.specs.Table.{log_in, yellows_in, ids_of, Indexed, Turned, IdInside, TurnedTo, TurnedAt};
ghost use Rattle.image.specs.Counts.{queue_count, green_count};
ghost use Rattle.image.specs.Decode.{servers_in};

use crate::table::{index_at, reds, turn_at_place, turn_green};
use image::places::{Section, place_of};
use octets::numbers::{num8, num16};
use record::State;
use record::parts::id_at;

// The action with the id at `at` turns green if it is red.
fn turn_at(state: &mut [u8], places: &mut [u16; State::MOST_IDS], at: usize)
    requires { Indexed places.old state.old × IdInside at state.old }
    ensures { Turned (id_at state.old at ∷ []) state.old places.new state.new }
{
    let id = id_at(state, at);
    turn_green(state, places, id);
}

// "yellow list green in order, ids not held passed over"
pub fn turn_yellow(state: &mut [u8], places: &mut [u16; State::MOST_IDS])
    requires { Indexed places.old state.old }
    ensures { Turned (yellows_in state.old) state.old places.new state.new }
{
    let at = place_of(state, Section::Yellow);
    let count = num16(state, State::AT_YELLOW_COUNT) as usize;
    for j in 0..count {
        turn_at(state, places, at + State::ID * j);
    }
}

// The red action at the place k turns green if its index is not over the cut: its index then.
fn turn_up_to(
    state: &mut [u8],
    places: &mut [u16; State::MOST_IDS],
    k: usize,
    cut: u16,
) -> Option<u16>
    requires { Indexed places.old state.old × (green_count state.old ≤ k) × (k < queue_count state.old) }
    ensures { TurnedAt k cut result state.old places.new state.new }
{
    let index = index_at(state, k);
    if cut < index {
        return None;
    }
    turn_at_place(state, places, k);
    Some(index)
}

// The creator's next red action over i up to the cut turns green, if there is one: its index then.
fn turn_next(
    state: &mut [u8],
    places: &mut [u16; State::MOST_IDS],
    creator: u8,
    i: u16,
    cut: u16,
) -> Option<u16>
    requires { Indexed places.old state.old × (creator < most_servers_limit) × (i < cut) }
    ensures { TurnedTo creator i cut result state.old places.new state.new }
{
    match reds(state, places).next(creator, i) {
        Some(k) => turn_up_to(state, places, k, cut),
        None => None,
    }
}

// One creator's actions by their indexes: only those that are held are visited.
fn turn_creator(state: &mut [u8], places: &mut [u16; State::MOST_IDS], creator: u8)
    requires { Indexed places.old state.old × (creator < servers_in state.old) }
    ensures { Turned (ids_of creator state.old) state.old places.new state.new }
{
    let cut = num16(state, State::SIZE + State::CUT * creator as usize);
    let mut i: u16 = 0;
    while i < cut {
        let Some(index) = turn_next(state, places, creator, i, cut) else {
            return;
        };
        i = index;
    }
}

// "all other reds green by creator, then index"
pub fn turn_rest(state: &mut [u8], places: &mut [u16; State::MOST_IDS])
    requires { Indexed places.old state.old }
    ensures { Turned (ids_up_to 0 (log_in state.old).cuts) state.old places.new state.new }
{
    let n = num8(state, State::AT_SERVERS);
    for c in 0..n {
        turn_creator(state, places, c);
    }
}
