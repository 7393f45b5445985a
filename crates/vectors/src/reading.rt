// An event that was read: its kind, its numbers in the record's order, and its lists.
ghost use Rattle.std.specs.Prelude.{◌+◌, ◌*◌, ◌≤◌, length};
ghost use Rattle.format.specs.Places.{cut_size, id_size};
ghost use Rattle.reader.specs.Reading.{PlacedEvent, PlacedAction, PlacedRetransmission, PlacedState, PlacedPayload};

use record::events::{ActionAt, Event, StateAt, StateHead};
use record::{Context, State};
use std::io::{Result, Write};
use vector_tools::output::{Bytes, Hex, Numbers};

fn payload<W: Write>(out: &mut W, e: &[u8], at: usize, m: usize) -> Result<()>
    requires { PlacedPayload at m e.now }
{
    write!(out, " payload ")?;
    out.write_all(&e[at..at + m])
}

fn action<W: Write>(out: &mut W, c: Context, a: ActionAt, e: &[u8]) -> Result<()>
    requires { PlacedAction c a e.now }
{
    let h = a.head;
    write!(out, "action {} {}", h.creator, h.index)?;
    write!(out, " {} {}", h.green_length, h.white_length)?;
    payload(out, e, a.payload_at, a.payload_length)
}

fn retransmission<W: Write>(
    out: &mut W,
    c: Context,
    sender: u8,
    position: u32,
    a: ActionAt,
    e: &[u8],
) -> Result<()>
    requires { PlacedRetransmission c sender position a e.now }
{
    write!(out, "retransmission {sender} {position} ")?;
    action(out, c, a, e)
}

fn state_numbers(h: StateHead) -> [u64; 13] {
    let last = h.last;
    let mark = h.mark;
    [
        u64::from(h.sender),
        u64::from(h.configuration),
        u64::from(h.green_length),
        u64::from(h.attempt.0),
        u64::from(last.index.0),
        u64::from(last.attempt.0),
        u64::from(last.set),
        u64::from(mark.status),
        u64::from(mark.index.0),
        u64::from(mark.attempt.0),
        u64::from(mark.set),
        u64::from(mark.bits),
        u64::from(h.yellow_status),
    ]
}

// The cuts in hexadecimal.
fn cuts<W: Write>(out: &mut W, e: &[u8], at: usize, n: usize) -> Result<()>
    requires { at + cut_size * n ≤ length e.now }
{
    write!(out, " cuts {}", Hex(&e[at..at + State::CUT * n]))
}

// How many ids there are, and a digest of their bytes.
fn ids<W: Write>(out: &mut W, e: &[u8], at: usize, count: usize) -> Result<()>
    requires { at + id_size * count ≤ length e.now }
{
    write!(out, " ids {count}{}", Bytes(&e[at..at + State::ID * count]))
}

fn state<W: Write>(out: &mut W, c: Context, s: StateAt, e: &[u8]) -> Result<()>
    requires { PlacedState c s e.now }
{
    let h = s.head;
    let numbers = state_numbers(h);
    write!(out, "State{}", Numbers(&numbers))?;
    cuts(out, e, s.cuts_at, usize::from(h.servers))?;
    ids(out, e, s.yellow_at, usize::from(h.yellow_count))
}

fn request<W: Write>(out: &mut W, e: &[u8], at: usize, m: usize) -> Result<()>
    requires { PlacedPayload at m e.now }
{
    write!(out, "request")?;
    payload(out, e, at, m)
}

// Stays: c, v and e stay parameters, since `PlacedEvent` is not a proposition as a ghost field has to be (c).
pub fn event<W: Write>(out: &mut W, c: Context, v: Event, e: &[u8]) -> Result<()>
    requires { PlacedEvent c v e.now }
{
    match v {
        Event::Action(a) => action(out, c, a, e),
        Event::Retransmission {
            sender,
            position,
            action,
        } => retransmission(out, c, sender, position, action, e),
        Event::State(s) => state(out, c, s, e),
        Event::Cpc {
            sender,
            configuration,
        } => write!(out, "CPC {sender} {configuration}"),
        Event::Regular { configuration, set } => write!(out, "regular {configuration} {set}"),
        Event::Transitional { set } => write!(out, "transitional {set}"),
        Event::Request {
            payload_at,
            payload_length,
        } => request(out, e, payload_at, payload_length),
        Event::Recovery => write!(out, "recovery"),
    }
}
