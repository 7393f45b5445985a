// The States whose marks are judged, with the primary that they decide.
ghost use Rattle.std.specs.Prelude.{◌≡◌};
ghost use Rattle.record.specs.Values.{primary_of};
ghost use Rattle.replication.specs.Machine.Exchange.{taken_primary};
ghost use Rattle.exchange.specs.Slots.{Room, states_of};

use crate::states::States;
use record::LastPrimary;

#[derive(Clone, Copy)]
pub struct Judging<'a> {
    pub states: States<'a>,
    pub taken: LastPrimary,
    pub ghost room: { Room states.slots states.bytes.now },
    pub ghost is_taken: { primary_of taken ≡ taken_primary (states_of states.slots states.bytes.now) },
}

impl<'a> Judging<'a> {
    pub fn new(states: States<'a>) -> Judging<'a>
        requires { Room states.slots states.bytes.now }
        ensures slots { result.states.slots ≡ states.entry.slots }
        ensures bytes { result.states.bytes.now ≡ states.entry.bytes.now }
    {
        let taken = states.taken_primary();
        Judging { states, taken }
    }
}
