// The reader: what an event's bytes say to a server, or why they are refused.
#![tactic(auto)]

ghost use Rattle.std.specs.Prelude.{◌≡◌, List, ℕ};
ghost use Rattle.format.specs.Read.{read as read_of};
ghost use Rattle.format.specs.Range.{action_ok, state_ok, fields_ok};
ghost use Rattle.format.specs.Types.{retransmission, transitional};
ghost use Rattle.record.specs.Context.{context_of, ContextIn};
ghost use Rattle.record.specs.Values.{state_of};
ghost use Rattle.record.specs.Events.{state_from, record_of, ListsInside};
ghost use Rattle.reader.specs.Reading.{Readable, JudgesAction, numbers_ok, lists_ok, meaning, placed};

pub mod frame; // frame.rt: the frame of an event

use frame::framed_event;
use record::events::{ActionAt, Event, StateAt, StateHead};
use record::lists::ids_ok;
use record::range::{
    context_ok, id_ok, index_ok, inside_last, length_ok, mark_ok, own_set_ok, primary_ok, product,
    status_ok,
};
use record::{Context, State};
use refusals::Refusal;

fn action_ok(c: Context, a: ActionAt) -> bool
    requires { ContextIn c }
    ensures { JudgesAction a result (action_ok (context_of c)) }
{
    id_ok(c, a.head.id())
        && length_ok(a.head.green_length)
        && length_ok(a.head.white_length)
        && a.payload_length <= State::MOST_PAYLOAD
}

fn retransmission_ok(c: Context, sender: u8, position: u32, action: ActionAt) -> bool
    requires { ContextIn c }
    ensures { JudgesAction action result (λ a. fields_ok (context_of c) (retransmission sender position a)) }
{
    sender < c.servers && length_ok(position) && action_ok(c, action)
}

#[tactic(auto, using(record::proofs::Chains::chain), unfolding(format::specs::Range::fields_ok, record::specs::Context::context_of))]
fn transitional_ok(c: Context, set: u8) -> bool
    requires { ContextIn c }
    ensures { result ≡ fields_ok (context_of c) (transitional set) }
{
    own_set_ok(c, set) && inside_last(c, set)
}

// Cuts of two bytes are always in range. K6: "A yellow list has at most n × q ids": these are counted before they are compared.
fn lists_ok(c: Context, s: StateAt, e: &[u8]) -> bool
    requires { ContextIn c × ListsInside c.servers s e.now }
    ensures { result ≡ lists_ok (context_of c) (state_from s e.now) }
{
    let count = s.head.yellow_count;
    u32::from(count) <= product(u32::from(c.servers), u32::from(c.quota))
        && ids_ok(c, e, s.yellow_at, usize::from(count))
}

fn numbers_ok(c: Context, s: StateHead) -> bool
    requires { ContextIn c }
    ensures { (cuts ids : List ℕ) (at start : ℕ) → result ≡ numbers_ok (context_of c) (state_of s cuts at ids start) }
{
    s.sender < c.servers
        && length_ok(s.green_length)
        && index_ok(s.attempt.0)
        && primary_ok(c, s.last)
        && mark_ok(c, s.mark)
        && status_ok(s.yellow_status)
}

fn state_ok(c: Context, s: StateAt, e: &[u8]) -> bool
    requires { ContextIn c × ListsInside c.servers s e.now }
    ensures { result ≡ state_ok (context_of c) (state_from s e.now) }
{
    numbers_ok(c, s.head) && lists_ok(c, s, e)
}

// Whether the numbers, sets and lists of an event are in range.
fn event_ok(c: Context, v: Event, e: &[u8]) -> bool
    requires { Readable c v e.now }
    ensures { result ≡ fields_ok (context_of c) (record_of v e.now) }
{
    match v {
        Event::Action(action) => action_ok(c, action),
        Event::Retransmission {
            sender,
            position,
            action,
        } => retransmission_ok(c, sender, position, action),
        Event::State(s) => state_ok(c, s, e),
        Event::Cpc {
            sender,
            configuration: _,
        } => sender < c.servers,
        Event::Regular {
            configuration: _,
            set,
        } => own_set_ok(c, set),
        Event::Transitional { set } => transitional_ok(c, set),
        Event::Request {
            payload_at: _,
            payload_length,
        } => payload_length <= State::MOST_PAYLOAD,
        Event::Recovery => true,
    }
}

// What an event's bytes say to a server with this context: "bad length, version or kind" first, then ranges.
pub fn read(c: Context, e: &[u8]) -> Result<Event, Refusal>
    ensures e_value { meaning result e.now ≡ read_of (context_of c) e.now }
    ensures placed { placed c result e.now }
{
    let Some(v) = framed_event(e, c.servers) else {
        return Err(Refusal::BadRecord);
    };
    if context_ok(c) && event_ok(c, v, e) {
        Ok(v)
    } else {
        Err(Refusal::OutOfRange)
    }
}
