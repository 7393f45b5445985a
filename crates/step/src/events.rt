// Each kind of event: whether the state takes it, by rows 5, 6 and 3, and what it does. h are the state's numbers.
ghost use Rattle.std.specs.Prelude.{◌≡◌, true, ℕ, ◌<◌};
ghost use Rattle.base.specs.Lists.{is_there};
ghost use Rattle.format.specs.Types.{Action, action, retransmission, cpc, regular, transitional, request as request_record};
ghost use Rattle.record.specs.Values.{action_of};
ghost use Rattle.replication.specs.Machine.Types.{Mode, Server};
ghost use Rattle.replication.specs.Machine.Rules.{on_action, on_retransmission, on_cpc, from_member};
ghost use Rattle.image.specs.Header.{header_of, mode_number};
ghost use Rattle.image.specs.Holding.{HoldsSuch};
ghost use Rattle.outgoing.specs.Lent.{LentSuch};
ghost use Rattle.step.specs.Answers.{answer_of, taken_answer, InForce, StateInForce, AnswersTo, AnswersToAlone};
ghost use Rattle.step.specs.Events.{Takes, Colours, FromMember, AnswersState};
ghost use Rattle.step.specs.Stages.{Acts, ActsAlone};
ghost use Rattle.format.specs.Limits.{most_servers_limit};

use crate::Taken;
use crate::colours::{green_and_note, yellow};
use crate::exchanging::{collect, exchange};
use crate::installing::{collect_cpc, collect_late_cpc, late_install};
use crate::joining::{join, join_unmarked, join_yellow};
use crate::requests::request;
use crate::sieve::{pass, pass_at};
use guards::{
    after_transitional, cpc_in, is_member, is_of, numbered_own, quota_left, regular_due, state_in,
    transitional_due,
};
use queue::counting::count_of;
use queue::entering::red;
use record::{ActionHead, ActionId, State};
use refusals::Refusal;
use updates::membership::leave;

// An action that rows 5 and 6 and the sieve let pass; `mode` is the state's number, which is not that of Un.
fn colour(state: &mut [u8], mode: u8, head: ActionHead, payload: &[u8]) -> Taken
    requires { HoldsSuch (Takes mode (action_of head payload.now)) state.old }
    ensures { Colours (action_of head payload.now) (taken_answer result) state }
{
    match mode {
        State::REG_PRIM => {
            green_and_note(state, head, payload);
            Taken::quiet()
        }
        State::TRANS_PRIM => {
            yellow(state, head, payload);
            Taken::quiet()
        }
        _ => {
            red(state, head, payload);
            Taken::quiet()
        }
    }
}

// Whether a state takes an action.
fn takes_action(mode: u8) -> bool
    ensures { (m : Mode) (a : Action) → mode ≡ mode_number m → result ≡ is_there (on_action m a) }
{
    match mode {
        State::NON_PRIM..=State::EXCHANGE_STATES => true,
        State::UN => true,
        _ => false,
    }
}

pub fn on_action(
    state: &mut [u8],
    h: State,
    head: ActionHead,
    payload: &[u8],
) -> Result<Taken, Refusal>
    requires { HoldsSuch (InForce h (action (action_of head payload.now))) state.old }
    ensures { ActsAlone (action (action_of head payload.now)) (answer_of result) state }
{
    let id = ActionId {
        creator: head.creator,
        index: head.index,
    };
    if !takes_action(h.mode) {
        return Err(Refusal::NotNow);
    }
    if !numbered_own(h, id) {
        return Err(Refusal::NotNow);
    }
    if !is_member(h, head.creator) {
        return Err(Refusal::NotFromHere);
    }
    if h.mode == State::UN {
        late_install(state, head, payload);
        return Ok(Taken::stored(0));
    }
    let x = pass(state, head);
    Ok(colour(state, h.mode, x, payload))
}

// Whether a state takes a retransmission.
fn takes_retransmission(mode: u8) -> bool
    ensures { (m : Mode) (p : ℕ) (a : Action) → mode ≡ mode_number m → result ≡ is_there (on_retransmission m p a) }
{
    match mode {
        State::NON_PRIM => true,
        State::EXCHANGE_ACTIONS => true,
        _ => false,
    }
}

pub fn on_retransmission(
    state: &mut [u8],
    out: &mut [u8],
    h: State,
    sender: u8,
    position: u32,
    head: ActionHead,
    payload: &[u8],
) -> Result<Taken, Refusal>
    requires { LentSuch (InForce h (retransmission sender position (action_of head payload.now))) state.old out.old }
    ensures { Acts (retransmission sender position (action_of head payload.now)) (answer_of result) state out }
{
    let id = ActionId {
        creator: head.creator,
        index: head.index,
    };
    if !takes_retransmission(h.mode) {
        return Err(Refusal::NotNow);
    }
    if !numbered_own(h, id) {
        return Err(Refusal::NotNow);
    }
    if !is_member(h, sender) {
        return Err(Refusal::NotFromHere);
    }
    if h.mode == State::EXCHANGE_ACTIONS {
        let x = pass_at(state, position, head);
        return Ok(exchange(state, out, position, x, payload));
    }
    let x = pass(state, head);
    red(state, x, payload);
    Ok(Taken::quiet())
}

// Row 6 does not apply to the State of server k in configuration `id`.
fn state_from_member(h: State, k: u8, id: u32) -> bool
    requires { k < most_servers_limit }
    ensures { FromMember k id h result }
{
    if !is_member(h, k) {
        return false;
    }
    if !is_of(h, id) {
        return false;
    }
    !state_in(h, k)
}

// The State of server k in configuration `id`: the whole event.
pub fn on_state(
    state: &mut [u8],
    out: &mut [u8],
    h: State,
    k: u8,
    id: u32,
    event: &[u8],
) -> Result<Taken, Refusal>
    requires { LentSuch (StateInForce h k id event.now) state.old out.old }
    ensures { AnswersState k id event.now (answer_of result) state out }
{
    if h.mode == State::NON_PRIM {
        return Ok(Taken::quiet());
    }
    if h.mode != State::EXCHANGE_STATES {
        return Err(Refusal::NotNow);
    }
    if !state_from_member(h, k, id) {
        return Err(Refusal::NotFromHere);
    }
    Ok(collect(state, out, k, event))
}

// Whether a state takes a CPC.
fn takes_cpc(mode: u8) -> bool
    ensures { (m : Mode) (k : ℕ) → mode ≡ mode_number m → result ≡ is_there (on_cpc m k) }
{
    match mode {
        State::NON_PRIM => true,
        State::CONSTRUCT => true,
        State::NO => true,
        _ => false,
    }
}

// Row 6 does not apply to the CPC of server k in configuration `id`.
fn cpc_from_member(h: State, k: u8, id: u32) -> bool
    requires { k < most_servers_limit }
    ensures { (s : Server) → h ≡ header_of s → result ≡ from_member s.membership (cpc k id) }
{
    if !is_member(h, k) {
        return false;
    }
    if !is_of(h, id) {
        return false;
    }
    !cpc_in(h, k)
}

pub fn on_cpc(state: &mut [u8], out: &mut [u8], h: State, k: u8, id: u32) -> Result<Taken, Refusal>
    requires { LentSuch (InForce h (cpc k id)) state.old out.old }
    ensures { AnswersTo (cpc k id) (answer_of result) state out }
{
    if h.mode == State::NON_PRIM {
        return Ok(Taken::quiet());
    }
    if !takes_cpc(h.mode) {
        return Err(Refusal::NotNow);
    }
    if !cpc_from_member(h, k, id) {
        return Err(Refusal::NotFromHere);
    }
    if h.mode == State::CONSTRUCT {
        return Ok(collect_cpc(state, out, k));
    }
    collect_late_cpc(state, k);
    Ok(Taken::quiet())
}

pub fn on_regular(
    state: &mut [u8],
    out: &mut [u8],
    h: State,
    id: u32,
    set: u8,
) -> Result<Taken, Refusal>
    requires { LentSuch (InForce h (regular id set)) state.old out.old }
    ensures { AnswersTo (regular id set) (answer_of result) state out }
{
    if !regular_due(h) {
        return Err(Refusal::NotNow);
    }
    let mode = h.mode;
    match mode {
        State::NON_PRIM => Ok(join(state, out, id, set)),
        State::UN => Ok(join(state, out, id, set)),
        State::NO => Ok(join_unmarked(state, out, id, set)),
        State::TRANS_PRIM => Ok(join_yellow(state, out, id, set)),
        _ => Err(Refusal::NotNow),
    }
}

pub fn on_transitional(state: &mut [u8], h: State, set: u8) -> Result<Taken, Refusal>
    requires { HoldsSuch (InForce h (transitional set)) state.old }
    ensures { AnswersToAlone (transitional set) (answer_of result) state }
{
    let Some(mode) = after_transitional(h.mode) else {
        return Err(Refusal::NotNow);
    };
    if !transitional_due(h) {
        return Err(Refusal::NotNow);
    }
    leave(state, u8::from(mode), set);
    Ok(Taken::quiet())
}

pub fn on_request(
    state: &mut [u8],
    out: &mut [u8],
    h: State,
    payload: &[u8],
) -> Result<Taken, Refusal>
    requires { LentSuch (InForce h (request_record payload.now)) state.old out.old }
    ensures { AnswersTo (request_record payload.now) (answer_of result) state out }
{
    if !quota_left(h, count_of(state, h.me)) {
        return Err(Refusal::QuotaUsed);
    }
    Ok(request(state, out, h, payload))
}
