// What the collected States in a buffer that holds a state decide.
ghost use Rattle.std.specs.Prelude.{◌≡◌, ◌*◌, ◌≤◌, ◌<◌, length};
ghost use Rattle.format.specs.Limits.{most_ids};
ghost use Rattle.format.specs.Places.{id_size};
ghost use Rattle.replication.specs.Machine.Types.{Server};
ghost use Rattle.replication.specs.Machine.Plan.{green_in, cut_in};
ghost use Rattle.replication.specs.Machine.Exchange.{taken_votes, taken_yellow, quorum as has_quorum};
ghost use Rattle.replication.specs.Machine.Step.{here_set, collected, all_states_in, all_cpcs_in, planned_now};
ghost use Rattle.image.specs.Holding.{Holds, HoldsSuch, HoldsSome, Computes};
ghost use Rattle.exchange.specs.Slots.{slots_in};
ghost use Rattle.exchange.specs.Table.{Listed};
ghost use Rattle.exchange.specs.Decided.{votes_numbers};
ghost use Rattle.exchange.specs.Plan.{part_of};

use crate::common::taken_ids;
use crate::judging::Judging;
use crate::plan::Share;
use crate::states::States;
use image::header::load;
use octets::numbers::num8;
use record::sets::inside;
use record::{AttemptIndex, LastPrimary, Mark, State};

// The votes that the States decide, but the yellow ids.
#[derive(Clone, Copy)]
pub struct TakenVotes {
    pub last: LastPrimary,
    pub attempt: AttemptIndex,
    pub mark: Mark,
    pub yellow_status: u8,
}

// "When every member's State is in"
pub fn all_states_in(state: &[u8]) -> bool
    requires { HoldsSome state.now }
    ensures { Computes all_states_in state.now result }
{
    inside(
        num8(state, State::AT_CONFIGURATION_SET),
        num8(state, State::AT_STATES),
    )
}

// "when every member's CPC is in"
pub fn all_cpcs_in(state: &[u8]) -> bool
    requires { HoldsSome state.now }
    ensures { Computes all_cpcs_in state.now result }
{
    inside(
        num8(state, State::AT_CONFIGURATION_SET),
        num8(state, State::AT_CPCS),
    )
}

// The States that are in, where they lie.
fn held(state: &[u8]) -> States<'_>
    requires { HoldsSome state.now }
    ensures slots { Computes slots_in state.now result.slots }
    ensures bytes { result.bytes.now ≡ state.now }
{
    let h = load(state);
    States::collected(h.servers, h.quota, h.states, state)
}

// How many retransmissions are planned.
pub fn planned_now(state: &[u8]) -> u64
    requires { HoldsSome state.now }
    ensures { Computes planned_now state.now result }
{
    held(state).planned()
}

// "the server with the longest green list resends positions from the shortest length + 1 to its own": whether this one does, and which.
pub fn resends_green(state: &[u8]) -> Share
    requires { HoldsSome state.now }
    ensures { Computes (λ s. part_of green_in s.me (collected s)) state.now result }
{
    let states = held(state);
    let me = num8(state, State::AT_ME);
    states.part(|k| states.head(k).green_length, me as usize)
}

// "for each creator the server with the highest cut resends from the lowest cut + 1 to it"
pub fn resends_red(state: &[u8], c: usize) -> Share
    requires { HoldsSuch (λ s. c < s.servers) state.now }
    ensures { Computes (λ s. part_of (cut_in c) s.me (collected s)) state.now result }
{
    let states = held(state);
    let me = num8(state, State::AT_ME);
    states.part(|k| states.cut(k, c) as u32, me as usize)
}

// Whether the members here are a quorum.
pub fn quorum_here(state: &[u8]) -> bool
    requires { HoldsSome state.now }
    ensures { Computes (λ s. has_quorum (collected s) (here_set s)) state.now result }
{
    let judging = Judging::new(held(state));
    judging.quorum(num8(state, State::AT_CONFIGURATION_SET))
}

// Primary, attempt and own mark, and whether the yellow list is valid.
pub fn taken_votes(state: &[u8]) -> TakenVotes
    requires { HoldsSome state.now }
    ensures { Computes (λ s. votes_numbers (taken_votes s.me (collected s))) state.now result }
{
    let states = held(state);
    let me = num8(state, State::AT_ME);
    let judging = Judging::new(states);
    let mark = judging.own_mark(me as usize);
    TakenVotes {
        last: judging.taken,
        attempt: AttemptIndex(states.taken_attempt()),
        mark,
        yellow_status: states.yellow_status(),
    }
}

// The yellow ids: how many; their bytes are in `out`.
pub fn taken_yellow(state: &[u8], out: &mut [u8]) -> usize
    requires { HoldsSome state.now × (id_size * most_ids ≤ length out.old) }
    ensures { (s : Server) → Holds s state.now → Listed result out.new (taken_yellow (collected s)).ids }
{
    let states = held(state);
    let c = load(state).context();
    taken_ids(c, &states, out)
}
