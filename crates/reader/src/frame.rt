// The frame of an event: its length, version and kind, and where the parts of its body lie.
ghost use Rattle.std.specs.Prelude.{◌≡◌, ℕ, ◌+◌, ◌*◌};
ghost use Rattle.base.specs.Bytes.{Bytes};
ghost use Rattle.format.specs.Types.{of_action, of_retransmission, of_state, of_cpc, of_regular, of_transitional, of_request, of_recovery};
ghost use Rattle.reader.specs.Framed.{head_ok, body_in, framed_in, Answers};

use octets::numbers::{num8, num16, num32};
use record::events::{Event, StateAt, StateHead, VERSION};
use record::parts::{action_at, state_head};
use record::{Kind, State};

// Stays: each frame with a payload tests its length itself, as a function for that test takes as many lines as it saves.
fn frame_action(e: &[u8]) -> Option<Event>
    ensures { (n : ℕ) → Answers (body_in of_action n e.now) n result e.now }
{
    if e.len() < Event::ACTION_SIZE {
        return None;
    }
    let m = usize::from(num8(e, Event::PAYLOAD));
    if Event::ACTION_SIZE + m != e.len() {
        return None;
    }
    Some(Event::Action(action_at(e, Event::BODY)))
}

fn frame_retransmission(e: &[u8]) -> Option<Event>
    ensures { (n : ℕ) → Answers (body_in of_retransmission n e.now) n result e.now }
{
    if e.len() < Event::RETRANSMISSION_SIZE {
        return None;
    }
    let m = usize::from(num8(e, Event::RESENT_PAYLOAD));
    if Event::RETRANSMISSION_SIZE + m != e.len() {
        return None;
    }
    let action = action_at(e, Event::RESENT);
    Some(Event::Retransmission {
        sender: num8(e, Event::SENDER),
        position: num32(e, Event::NUMBER),
        action,
    })
}

fn frame_state(e: &[u8], servers: u8) -> Option<Event>
    ensures { Answers (body_in of_state servers e.now) servers result e.now }
{
    let at = StateHead::CUTS + State::CUT * usize::from(servers);
    if e.len() < at + StateHead::STANDING {
        return None;
    }
    let head = state_head(e, servers, at);
    if at + StateHead::STANDING + State::ID * usize::from(head.yellow_count) != e.len() {
        return None;
    }
    Some(Event::State(StateAt {
        head,
        cuts_at: StateHead::CUTS,
        yellow_at: at + StateHead::STANDING,
    }))
}

fn frame_cpc(e: &[u8]) -> Option<Event>
    ensures { (n : ℕ) → Answers (body_in of_cpc n e.now) n result e.now }
{
    if e.len() != Event::CPC_SIZE {
        return None;
    }
    Some(Event::Cpc {
        sender: num8(e, Event::SENDER),
        configuration: num32(e, Event::NUMBER),
    })
}

fn frame_regular(e: &[u8]) -> Option<Event>
    ensures { (n : ℕ) → Answers (body_in of_regular n e.now) n result e.now }
{
    if e.len() != Event::REGULAR_SIZE {
        return None;
    }
    Some(Event::Regular {
        configuration: num32(e, Event::BODY),
        set: num8(e, Event::REGULAR_SET),
    })
}

fn frame_transitional(e: &[u8]) -> Option<Event>
    ensures { (n : ℕ) → Answers (body_in of_transitional n e.now) n result e.now }
{
    if e.len() != Event::TRANSITIONAL_SIZE {
        return None;
    }
    Some(Event::Transitional {
        set: num8(e, Event::BODY),
    })
}

fn frame_request(e: &[u8]) -> Option<Event>
    ensures { (n : ℕ) → Answers (body_in of_request n e.now) n result e.now }
{
    if e.len() < Event::REQUEST_SIZE {
        return None;
    }
    let m = usize::from(num8(e, Event::BODY));
    if Event::REQUEST_SIZE + m != e.len() {
        return None;
    }
    Some(Event::Request {
        payload_at: Event::REQUEST_SIZE,
        payload_length: m,
    })
}

fn frame_recovery(e: &[u8]) -> Option<Event>
    ensures { (n : ℕ) → Answers (body_in of_recovery n e.now) n result e.now }
{
    if e.len() != Event::RECOVERY_SIZE {
        return None;
    }
    Some(Event::Recovery)
}

// Whether the length bytes and the version are right. There is a kind byte then.
#[tactic(auto, using(record::proofs::Chains::chain, base::proofs::BytesLaws::given_bytes_lem), unfolding(crate::specs::Framed::head_ok))]
fn head_ok(e: &[u8]) -> bool
    ensures value { result ≡ head_ok e.now }
    ensures bytes { Bytes e.now }
{
    Event::BODY <= e.len()
        && usize::from(num16(e, 0)) + Event::LENGTH_SIZE == e.len()
        && num8(e, Event::VERSION_AT) == VERSION
}

// The event that the bytes frame for a server of this many, its ranges not looked at; or none.
pub fn framed_event(e: &[u8], servers: u8) -> Option<Event>
    ensures answers { Answers (framed_in servers e.now) servers result e.now }
    ensures bytes { Bytes e.now }
{
    if !head_ok(e) {
        return None;
    }
    let Ok(kind) = Kind::try_from(num8(e, Event::KIND_AT)) else {
        return None;
    };
    match kind {
        Kind::Action => frame_action(e),
        Kind::Retransmission => frame_retransmission(e),
        Kind::State => frame_state(e, servers),
        Kind::Cpc => frame_cpc(e),
        Kind::Regular => frame_regular(e),
        Kind::Transitional => frame_transitional(e),
        Kind::Request => frame_request(e),
        Kind::Recovery => frame_recovery(e),
    }
}
