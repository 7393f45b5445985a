// How far a meeting is: document 02, K13.
ghost use Rattle.std.specs.Prelude.{◌≡◌};
ghost use Rattle.replication.specs.Machine.Types.{Server};
ghost use Rattle.image.specs.Header.{header_of};
ghost use Rattle.image.specs.Holding.{HoldsSome, Computes};
ghost use Rattle.queries.specs.Queries.{states_in_of, resent_in_of, resent_planned_of, cpcs_in_of};

use exchange::decided::planned_now;
use octets::numbers::num8;
use record::State;

// "m States": those in, in both exchange states.
pub fn states_in(h: State) -> u32
    ensures { (s : Server) → h ≡ header_of s → result ≡ states_in_of s }
{
    if h.mode < State::EXCHANGE_STATES {
        return 0;
    }
    if State::EXCHANGE_ACTIONS < h.mode {
        return 0;
    }
    u8::count_ones(h.states)
}

// "the planned retransmissions": those that have come, in Exchange_actions ..
pub fn resent_in(h: State) -> u32
    ensures { (s : Server) → h ≡ header_of s → result ≡ resent_in_of s }
{
    if h.mode != State::EXCHANGE_ACTIONS {
        return 0;
    }
    h.come
}

// .. and all of them.
pub fn resent_planned(state: &[u8]) -> u32
    requires { HoldsSome state.now }
    ensures { Computes resent_planned_of state.now result }
{
    if num8(state, State::AT_MODE) != State::EXCHANGE_ACTIONS {
        return 0;
    }
    planned_now(state) as u32
}

// "m CPCs": those in, in Construct, No and Un.
pub fn cpcs_in(h: State) -> u32
    ensures { (s : Server) → h ≡ header_of s → result ≡ cpcs_in_of s }
{
    if State::CONSTRUCT <= h.mode {
        return u8::count_ones(h.cpcs);
    }
    0
}
