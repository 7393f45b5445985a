// Vectors for the check of a state. The first byte says what a vector does:
//   00 servers quota quota me     begins anew with this start
//   01 patches                    changes the state for the lines that follow
//   02 lengths patches            answers for a changed copy; the lengths are those of the state's and the outgoing buffer, 2 bytes each
//   03 length                     answers how many of the changes of one byte leave 0, give 7 and give 8; there is room to send
ghost use Rattle.std.specs.Prelude.{◌≡◌, ◌<◌, length};

use crate::patch::patches;
use image::start;
use refusals::{Refusal, outcome_number};
use state_check::check_buffers;
use std::io::{Result, Write};
use vector_tools::patch::patch;

pub const ROOM: usize = 8192;

// Begins anew with the start of these sizes.
fn begin(base: &mut [u8], e: &[u8]) {
    base.fill(0);
    if let [servers, high, low, me, ..] = e {
        let quota = u16::from_be_bytes([*high, *low]);
        let _ = start(base, u32::from(*servers), u32::from(quota), u32::from(*me));
    }
}

// A number of two bytes, and what is behind it.
fn length(e: &[u8]) -> Option<(usize, &[u8])> {
    match e {
        [high, low, rest @ ..] => { Some((usize::from(u16::from_be_bytes([*high, *low])), rest)) }
        _ => None,
    }
}

// The number for the first bytes of a state and of an outgoing buffer; 9 where there are fewer.
fn answer<W: Write>(out: &mut W, base: &[u8], length: usize, room: usize, e: &[u8]) -> Result<()> {
    let mut state: [u8; ROOM] = [0; ROOM];
    patch(&mut state, 0, base);
    patches(&mut state, e);
    let outgoing: [u8; ROOM] = [0; ROOM];
    if length <= ROOM && room <= ROOM {
        let outcome = check_buffers(&state[..length], &outgoing[..room]);
        write!(out, "{}", outcome_number(outcome))
    } else {
        write!(out, "9")
    }
}

// How many changes left 0, gave 7 and gave 8.
#[derive(Clone, Copy, Default)]
struct Tally {
    read: u64,
    short: u64,
    unread: u64,
}

impl Tally {
    fn count(&mut self, outcome: std::result::Result<(), Refusal>) {
        let one = match outcome {
            Ok(()) => &mut self.read,
            Err(Refusal::ShortBuffer) => &mut self.short,
            Err(_) => &mut self.unread,
        };
        *one = one.wrapping_add(1);
    }
}

// One byte changed, and back.
fn damaged(state: &mut [u8], at: usize, by: u8, outgoing: &[u8]) -> std::result::Result<(), Refusal>
    requires { at < length state.old }
    ensures { length state.new ≡ length state.old }
{
    let old = state[at];
    state[at] = old.wrapping_add(by);
    let outcome = check_buffers(state, outgoing);
    state[at] = old;
    outcome
}

// Each byte changed in three ways.
fn sweep(state: &mut [u8], outgoing: &[u8]) -> Tally {
    let mut tally = Tally::default();
    for at in 0..state.len() {
        for by in [1, 128, 255] {
            tally.count(damaged(state, at, by, outgoing));
        }
    }
    tally
}

fn sweep_all<W: Write>(out: &mut W, base: &[u8], length: usize) -> Result<()> {
    let mut state: [u8; ROOM] = [0; ROOM];
    patch(&mut state, 0, base);
    let outgoing: [u8; ROOM] = [0; ROOM];
    let t = if length <= ROOM {
        sweep(&mut state[..length], &outgoing)
    } else {
        Tally::default()
    };
    write!(out, "{} {} {}", t.read, t.short, t.unread)
}

pub fn vector<W: Write>(out: &mut W, base: &mut [u8], e: &[u8]) -> Result<()> {
    match e {
        [0, rest @ ..] => begin(base, rest),
        [1, rest @ ..] => patches(base, rest),
        [2, rest @ ..] => {
            if let Some((length, rest)) = length(rest)
                && let Some((room, rest)) = self::length(rest)
            {
                answer(out, base, length, room, rest)?;
            }
        }
        [3, rest @ ..] => {
            if let Some((length, _)) = length(rest) {
                sweep_all(out, base, length)?;
            }
        }
        _ => {}
    }
    Ok(())
}
