// The state that a server is in, its configurations, and what is collected in them.
ghost use Rattle.std.specs.Prelude.{◌≤◌, ◌<◌, length};
ghost use Rattle.format.specs.Limits.{most_servers_limit};
ghost use Rattle.replication.specs.Machine.Types.{in_mode};
ghost use Rattle.replication.specs.Machine.Step.{entering, leave as left, with_cpc};
ghost use Rattle.image.specs.Holding.{Becomes};
ghost use Rattle.updates.specs.Lists.{configuration_of, BecomesIn};
ghost use Rattle.image.specs.Layout.{header_size};

use crate::numbers::change;
use record::sets::with_member;
use record::{Mode, State};

// Another of the eight states.
pub fn set_mode(state: &mut [u8], mode: u8)
    requires { header_size ≤ length state.old }
    ensures { BecomesIn mode in_mode state.old state.new }
{
    change(state, |h| State { mode, ..h });
}

// Entering Exchange_states with this configuration.
pub fn enter_exchange(state: &mut [u8], id: u32, set: u8)
    requires { header_size ≤ length state.old }
    ensures { Becomes (entering (configuration_of id set)) state.old state.new }
{
    change(
        state,
        |h| State {
            mode: u8::from(Mode::ExchangeStates),
            configuration_status: 1,
            configuration_id: id,
            configuration_set: set,
            transitional_status: 0,
            transitional_set: 0,
            states: 0,
            cpcs: 0,
            ..h
        },
    );
}

// A transitional configuration of this set, and the state that it leads to.
pub fn leave(state: &mut [u8], mode: u8, set: u8)
    requires { header_size ≤ length state.old }
    ensures { BecomesIn mode (λ m. left m set) state.old state.new }
{
    change(
        state,
        |h| State {
            mode,
            transitional_status: 1,
            transitional_set: set,
            ..h
        },
    );
}

// The CPC of server k is in.
pub fn add_cpc(state: &mut [u8], k: u8)
    requires { (header_size ≤ length state.old) × (k < most_servers_limit) }
    ensures { Becomes (with_cpc k) state.old state.new }
{
    change(
        state,
        |h| State {
            cpcs: with_member(h.cpcs, k as usize),
            ..h
        },
    );
}
