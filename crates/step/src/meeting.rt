// K6: in Un the log that an action meets, before its white length is taken: the one after Install.
ghost use Rattle.std.specs.Prelude.{◌≡◌, List, ℕ};
ghost use Rattle.format.specs.Types.{action};
ghost use Rattle.record.specs.Events.{record_of};
ghost use Rattle.record.specs.Values.{action_of};
ghost use Rattle.replication.specs.Machine.Types.{Un, Server};
ghost use Rattle.image.specs.Header.{header_of};
ghost use Rattle.image.specs.Holding.{HoldsSome, Becomes};
ghost use Rattle.step.specs.Meeting.{met, Meets};

use guards::{is_member, numbered_own};
use image::header::load;
use install::installing::install_log;
use reader::read;
use record::events::Event;
use record::{ActionHead, ActionId, State};

// In Un: rows 5 and 6 let the action pass.
fn lets_pass(h: State, a: ActionHead) -> bool
    ensures { (s : Server) (p : List ℕ) → h ≡ header_of s → s.membership.mode ≡ Un → Meets result s (action (action_of a p)) }
{
    let id = ActionId {
        creator: a.creator,
        index: a.index,
    };
    numbered_own(h, id) && is_member(h, a.creator)
}

// In Un: the event does Install before anything else.
fn installs_first(h: State, v: Event) -> bool
    ensures { (s : Server) (e : List ℕ) → h ≡ header_of s → s.membership.mode ≡ Un → Meets result s (record_of v e) }
{
    match v {
        Event::Action(a) => lets_pass(h, a.head),
        _ => false,
    }
}

// What the event does before its action's white length is taken. `act` behind it does it again, and so nothing: no action is red then.
pub fn meet(state: &mut [u8], event: &[u8])
    requires { HoldsSome state.old }
    ensures { Becomes (λ s. met s event.now) state.old state.new }
{
    let h = load(state);
    if h.mode != State::UN {
        return;
    }
    let Ok(v) = read(h.context(), event) else {
        return;
    };
    if installs_first(h, v) {
        install_log(state);
    }
}
