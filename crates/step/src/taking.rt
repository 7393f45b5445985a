// An event as it comes: read against the state, and taken by its kind. h are the state's numbers.
ghost use Rattle.std.specs.Prelude.{◌≡◌, List, ℕ};
ghost use Rattle.base.specs.Bytes.{part_at};
ghost use Rattle.base.specs.Tests.{pick};
ghost use Rattle.format.specs.Types.{action as action_record, retransmission, request, recovery};
ghost use Rattle.record.specs.Events.{action_from, record_of};
ghost use Rattle.image.specs.Header.{mode_number};
ghost use Rattle.image.specs.Outcome.{state_number, step_on};
ghost use Rattle.replication.specs.Machine.Rules.{rule_for};
ghost use Rattle.replication.specs.Machine.Types.{Mode};
ghost use Rattle.image.specs.Holding.{HoldsSuch, HoldsSome, Becomes};
ghost use Rattle.outgoing.specs.Lent.{LentSuch};
ghost use Rattle.step.specs.Answers.{answered, answer_of, taken_answer, InForce, AnswersTo};
ghost use Rattle.step.specs.Events.{PartInForce, ReadInForce, ActionInForce};
ghost use Rattle.step.specs.Stages.{Acts, ActsAlone, ActsOn, ignored_by};
ghost use Rattle.updates.specs.White.{whitened};

use crate::events::{
    on_action, on_cpc, on_regular, on_request, on_retransmission, on_state, on_transitional,
};
use crate::{Act, Taken};
use image::header::load;
use queue::shifting::raise_white;
use reader::read;
use record::State;
use record::events::{ActionAt, Event};
use refusals::Refusal;
use updates::recovery::{highest_white, recover};
use updates::white::whiten;

fn delivered(state: &mut [u8], h: State, a: ActionAt, event: &[u8]) -> Result<Taken, Refusal>
    requires { HoldsSuch (ActionInForce action_record h a event.now) state.old }
    ensures { ActsAlone (action_record (action_from a event.now)) (answer_of result) state }
{
    let at = a.payload_at;
    let end = at + a.payload_length;
    let head = a.head;
    on_action(state, h, head, &event[at..end])
}

fn resent(
    state: &mut [u8],
    out: &mut [u8],
    h: State,
    sender: u8,
    position: u32,
    a: ActionAt,
    event: &[u8],
) -> Result<Taken, Refusal>
    requires { LentSuch (ActionInForce (retransmission sender position) h a event.now) state.old out.old }
    ensures { Acts (retransmission sender position (action_from a event.now)) (answer_of result) state out }
{
    let at = a.payload_at;
    let end = at + a.payload_length;
    let head = a.head;
    on_retransmission(state, out, h, sender, position, head, &event[at..end])
}

fn requested(
    state: &mut [u8],
    out: &mut [u8],
    h: State,
    at: usize,
    count: usize,
    event: &[u8],
) -> Result<Taken, Refusal>
    requires { LentSuch (PartInForce h (request (part_at count event.now at)) at count event.now) state.old out.old }
    ensures { AnswersTo (request (part_at count event.now at)) (answer_of result) state out }
{
    let end = at + count;
    on_request(state, out, h, &event[at..end])
}

// "Non_prim, no configuration, .. stored." The own list is entered: the highest white length on it is taken first.
fn recovered(state: &mut [u8], h: State) -> Taken
    requires { HoldsSuch (InForce h recovery) state.old }
    ensures { ActsAlone recovery (taken_answer result) state }
{
    raise_white(state, highest_white(state));
    recover(state);
    Taken::stored(0)
}

// The event v, which was read from the bytes `event`, but for the raise.
fn on_event(
    state: &mut [u8],
    out: &mut [u8],
    h: State,
    v: Event,
    event: &[u8],
) -> Result<Taken, Refusal>
    requires { LentSuch (ReadInForce h v event.now) state.old out.old }
    ensures { Acts (record_of v event.now) (answer_of result) state out }
{
    match v {
        Event::Action(action) => delivered(state, h, action, event),
        Event::Retransmission {
            sender,
            position,
            action,
        } => resent(state, out, h, sender, position, action, event),
        Event::State(s) => on_state(state, out, h, s.head.sender, s.head.configuration, event),
        Event::Cpc {
            sender,
            configuration,
        } => on_cpc(state, out, h, sender, configuration),
        Event::Regular { configuration, set } => on_regular(state, out, h, configuration, set),
        Event::Transitional { set } => on_transitional(state, h, set),
        Event::Request {
            payload_at,
            payload_length,
        } => requested(state, out, h, payload_at, payload_length, event),
        Event::Recovery => Ok(recovered(state, h)),
    }
}

// "Non_prim: .. State and CPC ignored."
fn is_ignored(mode: u8, v: Event) -> bool
    ensures { (m : Mode) (e : List ℕ) → mode ≡ mode_number m → result ≡ ignored_by (rule_for m (record_of v e)) }
{
    match v {
        Event::State(_) => mode == State::NON_PRIM,
        Event::Cpc { .. } => mode == State::NON_PRIM,
        _ => false,
    }
}

// One event but for the raise, over buffers whose number is 0: what it turned green is still there. "A record that does not read ends the step with
// its number."
pub fn act(state: &mut [u8], event: &[u8], out: &mut [u8]) -> Result<Act, Refusal>
    requires { state_number state.old out.old ≡ 0 }
    ensures { ActsOn event.now result state out }
{
    let h = load(state);
    let v = read(h.context(), event)?;
    let ignored = is_ignored(h.mode, v);
    let taken = on_event(state, out, h, v, event)?;
    Ok(Act {
        taken,
        raises: !ignored,
    })
}

// The raise behind it: "An action green on every server, by the noted green lengths, becomes white".
pub fn raise(state: &mut [u8], raises: bool)
    requires { HoldsSome state.old }
    ensures { Becomes (λ s. pick raises (whitened s) s) state.old state.new }
{
    if raises {
        whiten(state);
    }
}

// One event, over buffers whose number is 0.
pub fn step(state: &mut [u8], event: &[u8], out: &mut [u8]) -> Result<Taken, Refusal>
    requires { state_number state.old out.old ≡ 0 }
    ensures { answered (answer_of result) state.new out.new ≡ step_on state.old event.now out.old }
{
    let a = act(state, event, out)?;
    raise(state, a.raises);
    Ok(a.taken)
}
