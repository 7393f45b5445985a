// Install.
ghost use Rattle.std.specs.Prelude.{◌≡◌, ◌≤◌};
ghost use Rattle.format.specs.Limits.{most_index_limit};
ghost use Rattle.replication.specs.Machine.Types.{Server, with_log, with_votes};
ghost use Rattle.replication.specs.Machine.Install.{install_log, install_votes, install as installed};
ghost use Rattle.image.specs.Header.{header_of};
ghost use Rattle.record.specs.Values.{last_of};
ghost use Rattle.image.specs.Holding.{HoldsSome, Becomes};

use crate::passes::{turn_rest, turn_yellow};
use crate::table::table;
use record::{AttemptIndex, LastPrimary, PrimaryIndex, State};
use updates::numbers::change;

// "yellow list green in order, ids not held passed over" .. "all other reds green by creator, then index"
pub fn install_log(state: &mut [u8])
    requires { HoldsSome state.old }
    ensures { Becomes (λ s. with_log (install_log s.votes.yellow.ids s.log) s) state.old state.new }
{
    let mut places = table(state);
    turn_yellow(state, &mut places);
    turn_rest(state, &mut places);
}

// The votes' part: the new primary component, "primary index + 1, its attempt the current one, its set the mark's", "attempt 0", "yellow empty and
// invalid".
pub fn install_votes(state: &mut [u8])
    requires { HoldsSome state.old }
    ensures { Becomes (λ s. with_votes (install_votes s.votes) s) state.old state.new }
{
    change(
        state,
        |h| State {
            last: LastPrimary {
                index: PrimaryIndex(h.last.index.0 + 1),
                attempt: h.attempt,
                set: h.mark.set,
            },
            attempt: AttemptIndex(0),
            yellow_status: 0,
            yellow_count: 0,
            ..h
        },
    );
}

// Install.
pub fn install(state: &mut [u8])
    requires { HoldsSome state.old }
    ensures { Becomes installed state.old state.new }
{
    install_log(state);
    install_votes(state);
}
