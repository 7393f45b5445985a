// A regular configuration: "on entry collected States and CPCs are dropped, the state is stored, a State sent."
ghost use Rattle.replication.specs.Machine.Types.{with_votes};
ghost use Rattle.replication.specs.Machine.Step.{join as joined, unmarked, yellow_valid};
ghost use Rattle.replication.specs.Machine.WellFormedRanges.{ConfigurationFits};
ghost use Rattle.updates.specs.Lists.{configuration_of};
ghost use Rattle.outgoing.specs.Lent.{LentSuch};
ghost use Rattle.step.specs.Answers.{taken_answer, AnswersFor};

use crate::Taken;
use outgoing::states::send_state;
use updates::membership::enter_exchange;
use updates::votes::{clear_mark, make_yellow_valid};

// With the mark kept.
pub fn join(state: &mut [u8], out: &mut [u8], id: u32, set: u8) -> Taken
    requires { LentSuch (λ s. ConfigurationFits s.servers s.me (configuration_of id set)) state.old out.old }
    ensures { AnswersFor (λ s t. joined s (configuration_of id set) t) (taken_answer result) state out }
{
    let sent = send_state(state, out, id);
    enter_exchange(state, id, set);
    Taken::stored(sent)
}

// "No: .. regular clears the mark, to Exchange_states."
pub fn join_unmarked(state: &mut [u8], out: &mut [u8], id: u32, set: u8) -> Taken
    requires { LentSuch (λ s. ConfigurationFits s.servers s.me (configuration_of id set)) state.old out.old }
    ensures { AnswersFor (λ s t. joined s (configuration_of id set) (with_votes (unmarked t.votes) t)) (taken_answer result) state out }
{
    clear_mark(state);
    join(state, out, id, set)
}

// "Trans_prim: .. regular clears the mark, makes yellow valid, to Exchange_states."
pub fn join_yellow(state: &mut [u8], out: &mut [u8], id: u32, set: u8) -> Taken
    requires { LentSuch (λ s. ConfigurationFits s.servers s.me (configuration_of id set)) state.old out.old }
    ensures { AnswersFor (λ s t. joined s (configuration_of id set) (with_votes (yellow_valid (unmarked t.votes)) t)) (taken_answer result) state out }
{
    make_yellow_valid(state);
    join_unmarked(state, out, id, set)
}
