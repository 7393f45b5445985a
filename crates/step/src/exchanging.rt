// An exchange: States collected, retransmissions taken in, and its end.
ghost use Rattle.std.specs.Prelude.{◌≡◌, true, false, length};
ghost use Rattle.record.specs.Values.{action_of};
ghost use Rattle.replication.specs.Machine.Types.{Non_prim, Exchange_states, Exchange_actions, Votes, Server, in_mode};
ghost use Rattle.replication.specs.Machine.Step.{exchanged, one_more, decided, end_exchange, all_states_in, after_states, exchange as exchanged_by};
ghost use Rattle.replication.specs.Machine.WellFormedFacts.{Configured};
ghost use Rattle.image.specs.Image.{image};
ghost use Rattle.image.specs.Holding.{Holds, HoldsSuch, Becomes};
ghost use Rattle.updates.specs.Standing.{vote_numbers};
ghost use Rattle.exchange.specs.Decided.{votes_numbers};
ghost use Rattle.outgoing.specs.Lent.{LentSuch};
ghost use Rattle.step.specs.Answers.{taken_answer, Came, AnswersFor, AnswersBy};
ghost use Rattle.step.specs.Events.{Ends, PlacedAt, Retransmitted, NotLast, AnswersPlanned, AnswersCollected, with_placed, exchanged_last};

use crate::Taken;
use crate::requests::send_all;
use exchange::decided::{
    TakenVotes, all_states_in, planned_now, quorum_here, taken_votes, taken_yellow,
};
use image::header::load;
use octets::numbers::num32;
use outgoing::resending::send_part;
use queue::entering::red;
use queue::greening::green;
use queue::history::green_length;
use record::{ActionHead, Mode};
use updates::exchanges::{attempt, decide, one_more, resend};
use updates::membership::set_mode;
use updates::states::collect_state;
use updates::votes::VoteNumbers;
use writer::records::write_cpc;

// ---- the end

// The votes that the States decide, with the count of their yellow ids.
fn with_count(v: TakenVotes, count: u16) -> VoteNumbers
    ensures { (w : Votes) → v ≡ votes_numbers w → count ≡ length w.yellow.ids → result ≡ vote_numbers w }
{
    let last = v.last;
    let attempt = v.attempt;
    let mark = v.mark;
    VoteNumbers {
        last,
        attempt,
        mark,
        yellow_status: v.yellow_status,
        yellow_count: count,
    }
}

// What the States decide, written into the state.
fn decide_all(state: &mut [u8])
    requires { HoldsSuch (λ t. t.membership.mode ≡ Non_prim) state.old }
    ensures { (t : Server) → Holds t state.old → state.new ≡ image (decided t) state.old }
{
    let mut ids: [u8; record::State::IDS] = [0; record::State::IDS];
    let v = taken_votes(state);
    let count = taken_yellow(state, &mut ids);
    let end = record::State::ID * count;
    let votes = with_count(v, count as u16);
    decide(state, votes, &ids[..end]);
}

// "attempt + 1, mark .., store, send CPC, Construct"
fn attempt_primary(state: &mut [u8], out: &mut [u8]) -> Taken
    requires { LentSuch (Ends true) state.old out.old }
    ensures { AnswersFor end_exchange (taken_answer result) state out }
{
    let h = load(state);
    let sent = write_cpc(out, h.me, h.configuration_id).unwrap_or(0);
    decide_all(state);
    attempt(state);
    Taken::stored(sent as u32)
}

// "else store, Non_prim": what waits is sent.
fn stay(state: &mut [u8], out: &mut [u8]) -> Taken
    requires { LentSuch (Ends false) state.old out.old }
    ensures { AnswersFor end_exchange (taken_answer result) state out }
{
    decide_all(state);
    send_all(state, out)
}

// "the exchange ends": every State is in, and the state has become Non_prim already, in which every number and list may change alone.
fn end_exchange(state: &mut [u8], out: &mut [u8]) -> Taken
    requires { LentSuch (λ t. Configured t × (t.membership.mode ≡ Non_prim)) state.old out.old }
    ensures { AnswersFor end_exchange (taken_answer result) state out }
{
    if quorum_here(state) {
        return attempt_primary(state, out);
    }
    stay(state, out)
}

// ---- States

// One's part of the plan is sent, and the retransmissions are awaited.
fn await_actions(state: &mut [u8], out: &mut [u8]) -> Taken
    requires { LentSuch (λ t. (all_states_in t ≡ true) × (t.membership.mode ≡ Exchange_states)) state.old out.old }
    ensures { AnswersPlanned (taken_answer result) state out }
{
    let sent = send_part(state, out);
    resend(state);
    Taken::sent(sent)
}

// All States are in.
fn after_states(state: &mut [u8], out: &mut [u8]) -> Taken
    requires { LentSuch (λ t. (all_states_in t ≡ true) × (t.membership.mode ≡ Exchange_states)) state.old out.old }
    ensures { AnswersFor after_states (taken_answer result) state out }
{
    if planned_now(state) != 0 {
        return await_actions(state, out);
    }
    set_mode(state, u8::from(Mode::NonPrim));
    end_exchange(state, out)
}

// "When every member's State is in: send one's part of the plan, to Exchange_actions." The State of server k is the whole event.
pub fn collect(state: &mut [u8], out: &mut [u8], k: u8, event: &[u8]) -> Taken
    requires { LentSuch (Came k event.now) state.old out.old }
    ensures { AnswersCollected event.now (taken_answer result) state out }
{
    collect_state(state, k, event);
    if !all_states_in(state) {
        return Taken::quiet();
    }
    after_states(state, out)
}

// ---- retransmissions

// "a retransmission at position green length + 1 is green; one at a lower nonzero position is ignored; any other is red."
fn place_action(state: &mut [u8], position: u32, head: ActionHead, payload: &[u8])
    requires { HoldsSuch (PlacedAt position (action_of head payload.now)) state.old }
    ensures { Becomes (with_placed position (action_of head payload.now)) state.old state.new }
{
    let length = green_length(state);
    if position == length + 1 {
        green(state, head, payload);
        return;
    }
    if position == 0 {
        red(state, head, payload);
        return;
    }
    if length < position {
        red(state, head, payload);
    }
}

// One that is not the last.
fn take_in(state: &mut [u8], position: u32, head: ActionHead, payload: &[u8])
    requires { HoldsSuch (NotLast position (action_of head payload.now)) state.old }
    ensures { Becomes (exchanged position (action_of head payload.now)) state.old state.new }
{
    place_action(state, position, head, payload);
    one_more(state);
}

// The number of retransmissions rises, and the state is Non_prim.
fn close(state: &mut [u8])
    requires { HoldsSuch (λ s. s.membership.mode ≡ Exchange_actions) state.old }
    ensures { Becomes (λ s. one_more (in_mode Non_prim s)) state.old state.new }
{
    set_mode(state, u8::from(Mode::NonPrim));
    one_more(state);
}

// The last one, after which the exchange ends.
fn take_last(state: &mut [u8], position: u32, head: ActionHead, payload: &[u8])
    requires { HoldsSuch (Retransmitted position (action_of head payload.now)) state.old }
    ensures { Becomes (exchanged_last position (action_of head payload.now)) state.old state.new }
{
    place_action(state, position, head, payload);
    close(state);
}

// "When as many have come as planned, possibly none, the exchange ends."
pub fn exchange(
    state: &mut [u8],
    out: &mut [u8],
    position: u32,
    head: ActionHead,
    payload: &[u8],
) -> Taken
    requires { LentSuch (Retransmitted position (action_of head payload.now)) state.old out.old }
    ensures { AnswersBy (exchanged_by position (action_of head payload.now)) (taken_answer result) state out }
{
    let planned = planned_now(state);
    let come = num32(state, record::State::AT_COME);
    if planned <= come as u64 + 1 {
        take_last(state, position, head, payload);
        return end_exchange(state, out);
    }
    take_in(state, position, head, payload);
    Taken::quiet()
}
