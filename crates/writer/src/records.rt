// Writers of the records that the engine sends. Each takes the outgoing buffer's unused rest and writes its record at the front of it,
// number by number. It answers how many bytes the record has, so that the next one goes behind them, or none where there is no room: then the
// rest is as it was.
ghost use Rattle.std.specs.Prelude.{◌≡◌, ◌+◌, ◌≤◌, length};
ghost use Rattle.base.specs.Patched.{patched};
ghost use Rattle.base.specs.Tests.{◌≤?◌};
ghost use Rattle.format.specs.Places.{at_body, cpc_size, standing_size};
ghost use Rattle.format.specs.Types.{action, cpc, kind_number};
ghost use Rattle.format.specs.Write.{write};
ghost use Rattle.record.specs.Codes.{the_kind};
ghost use Rattle.record.specs.Values.{action_of, resent};
ghost use Rattle.writer.specs.Blocks.{frame_bytes, opening_bytes, standing_bytes, StateRoom};
ghost use Rattle.writer.specs.Written.{Puts, given_bytes, put_of, put_state};

use crate::parts::{put_body, put_mark, put_primary, put_yellow_head};
use octets::blocks::copy;
use octets::numbers::{put8, put16, put32};
use record::events::{Event, StateHead, VERSION};
use record::{ActionHead, Kind, State};

// What the length bytes count of a record of each kind, but payload, cuts and ids.
const ACTION_FOLLOWS: u32 = (Event::ACTION_SIZE - Event::LENGTH_SIZE) as u32;

const RETRANSMISSION_FOLLOWS: u32 = (Event::RETRANSMISSION_SIZE - Event::LENGTH_SIZE) as u32;

const STATE_FOLLOWS: u32 = (StateHead::SIZE - Event::LENGTH_SIZE) as u32;

const CPC_FOLLOWS: u32 = (Event::CPC_SIZE - Event::LENGTH_SIZE) as u32;

// Two length bytes tell a length modulo this.
const LENGTH_MODULUS: u32 = 65536;

// Whether `size` bytes and `more` behind them lie inside `length` bytes.
fn fits(length: usize, size: usize, more: usize) -> bool
    ensures { result ≡ (size + more ≤? length) }
{
    size <= length && more <= length - size
}

// Length bytes, version and kind.
fn put_frame(rest: &mut [u8], follows: u32, kind: Kind)
    requires { at_body ≤ length rest.old }
    ensures { rest.new ≡ patched 0 (frame_bytes follows (kind_number (the_kind kind))) rest.old }
{
    put16(rest, 0, (follows % LENGTH_MODULUS) as u16);
    put8(rest, Event::VERSION_AT, VERSION);
    put8(rest, Event::KIND_AT, u8::from(kind));
}

// These, a sender and a number: all of a CPC, and what a State and a retransmission begin with.
fn put_opening(rest: &mut [u8], follows: u32, kind: Kind, sender: u8, number: u32)
    requires { cpc_size ≤ length rest.old }
    ensures { rest.new ≡ patched 0 (opening_bytes follows (kind_number (the_kind kind)) sender number) rest.old }
{
    put_frame(rest, follows, kind);
    put8(rest, Event::SENDER, sender);
    put32(rest, Event::NUMBER, number);
}

// Writes a CPC.
pub fn write_cpc(rest: &mut [u8], sender: u8, configuration: u32) -> Option<usize>
    ensures { Puts (write (cpc sender configuration)) result rest.old rest.new }
{
    if rest.len() < Event::CPC_SIZE {
        return None;
    }
    put_opening(rest, CPC_FOLLOWS, Kind::Cpc, sender, configuration);
    Some(Event::CPC_SIZE)
}

// Writes an action.
pub fn write_action(rest: &mut [u8], head: ActionHead, payload: &[u8]) -> Option<usize>
    ensures { Puts (write (action (action_of head payload.now))) result rest.old rest.new }
{
    let size = payload.len();
    if !fits(rest.len(), Event::ACTION_SIZE, size) {
        return None;
    }
    let follows = ACTION_FOLLOWS + (size % LENGTH_MODULUS as usize) as u32;
    put_frame(rest, follows, Kind::Action);
    put_body(rest, Event::BODY, head, payload);
    Some(Event::ACTION_SIZE + size)
}

// Writes a retransmission of an action.
pub fn write_retransmission(
    rest: &mut [u8],
    sender: u8,
    position: u32,
    head: ActionHead,
    payload: &[u8],
) -> Option<usize>
    ensures { Puts (write (resent sender position head payload.now)) result rest.old rest.new }
{
    let size = payload.len();
    if !fits(rest.len(), Event::RETRANSMISSION_SIZE, size) {
        return None;
    }
    let follows = RETRANSMISSION_FOLLOWS + (size % LENGTH_MODULUS as usize) as u32;
    put_opening(rest, follows, Kind::Retransmission, sender, position);
    put_body(rest, Event::RESENT, head, payload);
    Some(Event::RETRANSMISSION_SIZE + size)
}

// What a State has behind its cuts, from `at` on, up to its ids.
fn put_standing(rest: &mut [u8], at: usize, head: StateHead)
    requires { at + standing_size ≤ length rest.old }
    ensures { rest.new ≡ patched at (standing_bytes head) rest.old }
{
    put32(rest, at, head.green_length);
    put32(rest, at + StateHead::ATTEMPT, head.attempt.0);
    put_primary(rest, at + StateHead::LAST, head.last);
    put_mark(rest, at + StateHead::MARK, head.mark);
    put_yellow_head(
        rest,
        at + StateHead::YELLOW,
        head.yellow_status,
        head.yellow_count,
    );
}

// The whole record of a State, of the first bytes given.
fn put_state(rest: &mut [u8], head: StateHead, cuts: &[u8], ids: &[u8])
    requires { StateRoom head cuts.now ids.now rest.old }
    ensures { rest.new ≡ patched 0 (given_bytes head cuts.now ids.now) rest.old }
{
    let n = State::CUT * usize::from(head.servers);
    let m = State::ID * usize::from(head.yellow_count);
    let follows = STATE_FOLLOWS + (n + m) as u32;
    put_opening(rest, follows, Kind::State, head.sender, head.configuration);
    copy(rest, StateHead::CUTS, &cuts[..n]);
    put_standing(rest, StateHead::CUTS + n, head);
    copy(rest, StateHead::SIZE + n, &ids[..m]);
}

// Writes a State: `cuts` begins with its cuts, two bytes each, and `ids` with its yellow ids, three bytes each. None too where these are too few.
pub fn write_state(rest: &mut [u8], head: StateHead, cuts: &[u8], ids: &[u8]) -> Option<usize>
    ensures { put_of result rest.new ≡ put_state head cuts.now ids.now rest.old }
{
    let n = State::CUT * usize::from(head.servers);
    let m = State::ID * usize::from(head.yellow_count);
    if cuts.len() < n || ids.len() < m || rest.len() < StateHead::SIZE + (n + m) {
        return None;
    }
    put_state(rest, head, cuts, ids);
    Some(StateHead::SIZE + (n + m))
}
