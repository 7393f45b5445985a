// K6: actions turn white in a state's buffer, and leave their slots.
ghost use Rattle.std.specs.Prelude.{not, List, ℕ, ◌<◌};
ghost use Rattle.base.specs.Tests.{◌<?◌};
ghost use Rattle.record.specs.Values.{action_of};
ghost use Rattle.replication.specs.Machine.Colours.{is_next, unwhite};
ghost use Rattle.image.specs.Holding.{HoldsSome, HoldsSuch, Becomes, Computes};
ghost use Rattle.updates.specs.White.{whitened, Takes};

use crate::notes::least_noted;
use octets::numbers::num16;
use queue::counting::count_of;
use queue::shifting::raise_white;
use record::{ActionHead, State};

// "An action green on every server, by the noted green lengths, becomes white".
pub fn whiten(state: &mut [u8])
    requires { HoldsSome state.old }
    ensures { Becomes whitened state.old state.new }
{
    let to = least_noted(state);
    raise_white(state, to);
}

// Whether the action is its creator's next.
fn is_next(state: &[u8], head: ActionHead) -> bool
    requires { HoldsSuch (λ s. head.creator < s.servers) state.now }
    ensures { (p : List ℕ) → Computes (λ s. is_next s.log (action_of head p)) state.now result }
{
    let cut = num16(state, State::SIZE + State::CUT * head.creator as usize);
    head.index as u32 == cut as u32 + 1
}

// Whether the creator has q unwhite actions here.
fn is_full(state: &[u8], creator: u8) -> bool
    requires { HoldsSome state.now }
    ensures { Computes (λ s. not (unwhite creator s.white s.log <? s.quota)) state.now result }
{
    let q = num16(state, State::AT_QUOTA) as u32;
    !(count_of(state, creator) < q)
}

// "Before entering an action .. a server takes that white length if it is higher than its own, but never above its own green length." The answer:
// whether there is no place for it. "An action whose creator then still has q unwhite ones entered here is passed over", "the length staying taken".
pub fn take(state: &mut [u8], head: ActionHead) -> bool
    requires { HoldsSuch (λ s. head.creator < s.servers) state.old }
    ensures { Takes head result state.old state.new }
{
    if !is_next(state, head) {
        return false;
    }
    raise_white(state, head.white_length);
    is_full(state, head.creator)
}
