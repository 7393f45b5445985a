// What was read, written again: into a buffer with exactly enough room for one record or for two, and with one byte too few.
ghost use Rattle.reader.specs.Reading.{PlacedEvent, PlacedAction, PlacedRetransmission, PlacedState};

use crate::reading;
use record::Context;
use record::events::{ActionAt, Event, StateAt};
use std::io::{Result, Write};
use vector_tools::output::Bytes;
use writer::records::{write_action, write_cpc, write_retransmission, write_state};

fn action(c: Context, a: ActionAt, e: &[u8], room: &mut [u8]) -> Option<usize>
    requires { PlacedAction c a e.now }
{
    write_action(
        room,
        a.head,
        &e[a.payload_at..a.payload_at + a.payload_length],
    )
}

fn retransmission(
    c: Context,
    sender: u8,
    position: u32,
    a: ActionAt,
    e: &[u8],
    room: &mut [u8],
) -> Option<usize>
    requires { PlacedRetransmission c sender position a e.now }
{
    let payload = &e[a.payload_at..a.payload_at + a.payload_length];
    write_retransmission(room, sender, position, a.head, payload)
}

fn state(c: Context, s: StateAt, e: &[u8], room: &mut [u8]) -> Option<usize>
    requires { PlacedState c s e.now }
{
    write_state(room, s.head, &e[s.cuts_at..], &e[s.yellow_at..])
}

// Writes the event at the front of the room; an event of a kind that the engine does not send is not written.
fn again(c: Context, v: Event, e: &[u8], room: &mut [u8]) -> Option<usize>
    requires { PlacedEvent c v e.now }
{
    match v {
        Event::Action(a) => action(c, a, e, room),
        Event::Retransmission {
            sender,
            position,
            action,
        } => retransmission(c, sender, position, action, e, room),
        Event::State(s) => state(c, s, e, room),
        Event::Cpc {
            sender,
            configuration,
        } => write_cpc(room, sender, configuration),
        _ => None,
    }
}

pub fn say<W: Write>(out: &mut W, c: Context, e: &[u8]) -> Result<()> {
    match reader::read(c, e) {
        Ok(v) => reading::event(out, c, v, e),
        Err(refusal) => write!(out, "refused {}", u32::from(refusal)),
    }
}

// Writes the event three times, each behind the one before, as long as there is room.
fn fill<W: Write>(out: &mut W, c: Context, v: Event, e: &[u8], room: &mut [u8]) -> Result<()>
    requires { PlacedEvent c v e.now }
{
    let mut at = 0;
    for _k in 0..3 {
        let Some(size) = again(c, v, e, &mut room[at..]) else {
            return write!(out, " full");
        };
        if room.len() - at < size {
            return Ok(());
        }
        let next = at + size;
        write!(out, " next {next} ")?;
        say(out, c, &room[at..next])?;
        at = next;
    }
    Ok(())
}

// Fills a buffer of this size, which held 238 everywhere.
fn sized<W: Write>(out: &mut W, c: Context, v: Event, e: &[u8], size: usize) -> Result<()>
    requires { PlacedEvent c v e.now }
{
    let mut space: [u8; 16384] = [238; 16384];
    if size <= space.len() {
        let room = &mut space[..size];
        write!(out, "  room {size}")?;
        fill(out, c, v, e, room)?;
        writeln!(out, "{}", Bytes(room))?;
    }
    Ok(())
}

// The same for each of the four sizes.
pub fn write<W: Write>(out: &mut W, c: Context, e: &[u8]) -> Result<()> {
    let n = e.len();
    if let Ok(v) = reader::read(c, e)
        && 1 <= n
        && n <= 8192
    {
        for size in [n - 1, n, 2 * n - 1, 2 * n] {
            sized(out, c, v, e, size)?;
        }
    }
    Ok(())
}
