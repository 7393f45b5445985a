// Actions that a state colours green or yellow.
ghost use Rattle.record.specs.Values.{action_of};
ghost use Rattle.replication.specs.Machine.Colours.{yellow as yellowed};
ghost use Rattle.replication.specs.Machine.Step.{green_and_note};
ghost use Rattle.image.specs.Holding.{HoldsSuch, Becomes};
ghost use Rattle.queue.specs.Queue.{Placed};
ghost use Rattle.step.specs.Events.{Next};

use octets::numbers::num16;
use queue::entering::enter;
use queue::greening::green;
use record::{ActionHead, ActionId, State};
use updates::notes::note;
use updates::yellow::join_yellow;

// "Reg_prim: action green; the creator's green length is noted"
pub fn green_and_note(state: &mut [u8], head: ActionHead, payload: &[u8])
    requires { HoldsSuch (λ s. Placed s (action_of head payload.now)) state.old }
    ensures { Becomes (green_and_note (action_of head payload.now)) state.old state.new }
{
    green(state, head, payload);
    note(state, head.creator, head.green_length);
}

// The action is entered, and its id joins the yellow list.
fn enter_yellow(state: &mut [u8], head: ActionHead, payload: &[u8])
    requires { HoldsSuch (Next (action_of head payload.now)) state.old }
    ensures { Becomes (yellowed (action_of head payload.now)) state.old state.new }
{
    enter(state, head, payload);
    join_yellow(
        state,
        ActionId {
            creator: head.creator,
            index: head.index,
        },
    );
}

// "as red, and its id joins the yellow list if it was entered"
pub fn yellow(state: &mut [u8], head: ActionHead, payload: &[u8])
    requires { HoldsSuch (λ s. Placed s (action_of head payload.now)) state.old }
    ensures { Becomes (yellowed (action_of head payload.now)) state.old state.new }
{
    let cut = num16(state, State::SIZE + State::CUT * head.creator as usize);
    if cut as u32 + 1 != head.index as u32 {
        return;
    }
    enter_yellow(state, head, payload);
}
