// K6: before an action is entered its white length is taken, and one for which there is then no place is let pass as one beyond a gap.
ghost use Rattle.std.specs.Prelude.{◌<◌};
ghost use Rattle.replication.specs.Machine.Rules.{reddening, exchanging};
ghost use Rattle.image.specs.Holding.{HoldsSuch};
ghost use Rattle.step.specs.Stages.{Sifts};

use queue::history::green_length;
use record::ActionHead;
use updates::white::take;

// "An action whose creator then still has q unwhite ones entered here is passed over like one beyond a gap, the length staying taken": index 0 is
// nobody's next.
pub fn pass(state: &mut [u8], head: ActionHead) -> ActionHead
    requires { HoldsSuch (λ s. head.creator < s.servers) state.old }
    ensures { Sifts reddening head result state.old state.new }
{
    if !take(state, head) {
        return head;
    }
    ActionHead {
        creator: head.creator,
        index: 0,
        green_length: head.green_length,
        white_length: head.white_length,
    }
}

// The same of a retransmission: one that comes for a green position is not entered, and nothing is taken from it.
pub fn pass_at(state: &mut [u8], position: u32, head: ActionHead) -> ActionHead
    requires { HoldsSuch (λ s. head.creator < s.servers) state.old }
    ensures { Sifts (exchanging position) head result state.old state.new }
{
    if position == 0 {
        return pass(state, head);
    }
    if green_length(state) < position {
        return pass(state, head);
    }
    head
}
