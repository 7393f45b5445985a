// A request: numbered, put on the own list and stored; sent where requests are sent.
ghost use Rattle.std.specs.Prelude.{◌≤◌};
ghost use Rattle.replication.specs.Machine.Requests.{send_waiting, waiting_records};
ghost use Rattle.replication.specs.Machine.Step.{stored, requested};
ghost use Rattle.outgoing.specs.Lent.{LentSuch};
ghost use Rattle.step.specs.Answers.{taken_answer, AnswersBy, AnswersFor};
ghost use Rattle.step.specs.Events.{Asked};

use crate::Taken;
use guards::sends_now;
use outgoing::sending::send_records;
use record::State;
use updates::requests::{number, send_waiting};

// "sent, one time only, in order": all that waits.
pub fn send_all(state: &mut [u8], out: &mut [u8]) -> Taken
    requires { LentSuch (λ s. 0 ≤ 0) state.old out.old }
    ensures { AnswersFor (λ s t. stored s (send_waiting t) (waiting_records t)) (taken_answer result) state out }
{
    let sent = send_records(state, out);
    send_waiting(state);
    Taken::stored(sent)
}

// "numbered, put on the own list and stored whenever it comes"; h are the state's numbers.
pub fn request(state: &mut [u8], out: &mut [u8], h: State, payload: &[u8]) -> Taken
    requires { LentSuch (Asked payload.now h) state.old out.old }
    ensures { AnswersBy (requested payload.now) (taken_answer result) state out }
{
    number(state, payload);
    if !sends_now(h) {
        return Taken::stored(0);
    }
    send_all(state, out)
}
