// Exchanges: how many retransmissions have come, and the end.
ghost use Rattle.std.specs.Prelude.{◌*◌, ◌≤◌, length};
ghost use Rattle.replication.specs.Machine.Step.{one_more, resending, attempting};
ghost use Rattle.image.specs.Holding.{HoldsSome, HoldsSuch, Becomes};
ghost use Rattle.updates.specs.Standing.{BecomesDecided};
ghost use Rattle.image.specs.Layout.{header_size};
ghost use Rattle.format.specs.Places.{id_size};

use crate::notes::note_all;
use crate::numbers::change;
use crate::votes::{VoteNumbers, take_votes};
use record::{AttemptIndex, Mark, Mode, State};

// A retransmission has come.
pub fn one_more(state: &mut [u8])
    requires { HoldsSome state.old }
    ensures { Becomes one_more state.old state.new }
{
    change(
        state,
        |h| State {
            come: h.come + 1,
            ..h
        },
    );
}

// To Exchange_actions.
pub fn resend(state: &mut [u8])
    requires { header_size ≤ length state.old }
    ensures { Becomes resending state.old state.new }
{
    change(
        state,
        |h| State {
            mode: u8::from(Mode::ExchangeActions),
            come: 0,
            ..h
        },
    );
}

// A primary component is attempted: "attempt + 1, mark (primary index, attempt, this set, no bits) .., Construct"
pub fn attempt(state: &mut [u8])
    requires { HoldsSome state.old }
    ensures { Becomes attempting state.old state.new }
{
    change(state, |h| {
        let attempt = AttemptIndex(h.attempt.0 + 1);
        let mark = Mark {
            status: 1,
            index: h.last.index,
            attempt,
            set: h.configuration_set,
            bits: 0,
        };
        State {
            mode: u8::from(Mode::Construct),
            attempt,
            mark,
            ..h
        }
    });
}

// Noted lengths and votes as the States decide; v and ids are the votes that they decide.
pub fn decide(state: &mut [u8], v: VoteNumbers, ids: &[u8])
    requires { HoldsSuch (λ s. length ids.now ≤ id_size * (s.servers * s.quota)) state.old }
    ensures { BecomesDecided v ids.now state.old state.new }
{
    note_all(state);
    take_votes(state, v, ids);
}
