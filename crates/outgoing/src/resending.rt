// One's part of the retransmission plan, as records. Each function writes at the front of the buffer that it is lent, and answers how many bytes
// its records have.
ghost use Rattle.std.specs.Prelude.{◌≡◌, true, ◌-◌, ◌≤◌, ◌<◌, max, min, length};
ghost use Rattle.replication.specs.Machine.Step.{all_states_in};
ghost use Rattle.outgoing.specs.Lent.{LentSuch, PutsRecords};
ghost use Rattle.queue.specs.Queue.{QueueIn};
ghost use Rattle.outgoing.specs.Resending.{queue_in, SendsTo, Resends, part_in, PositionsIn, IndexesIn, OwnNumber, all_reds, NextRed};
ghost use Rattle.outgoing.specs.Resending.{from_place, at_position, greens_of, reds_of, RoomFor, SendsAll, one_of, Stated};
ghost use Rattle.outgoing.specs.Resending.{green_part, red_part, whole_part};
ghost use Rattle.format.specs.Places.{most_retransmission};
ghost use Rattle.image.specs.Decode.{servers_in};
ghost use Rattle.image.specs.Counts.{queue_count};

use crate::payload;
use exchange::decided::{resends_green, resends_red};
use exchange::plan::Share;
use image::places::{Section, place_of};
use install::table::{Lookup, index_at, table};
use octets::numbers::num8;
use queue::history::{green_length, green_slot, white_length};
use record::State;
use record::parts::action_at;
use writer::records::write_retransmission;

// The action at the place k of the queue.
fn send_slot(state: &[u8], out: &mut [u8], me: u8, position: u32, k: usize) -> usize
    requires { QueueIn state.now × (k < queue_count state.now) × (most_retransmission ≤ length out.old) }
    ensures { SendsTo 1 (one_of (from_place me position (queue_in state.now) k)) out result }
{
    let a = action_at(state, place_of(state, Section::Queue) + State::SLOT * k);
    let head = a.head;
    let size = write_retransmission(out, me, position, head, payload(state, a));
    size.unwrap_or(0)
}

// The action at a position, which has a slot.
fn send_position(state: &[u8], out: &mut [u8], me: u8, position: u32) -> usize
    requires { PositionsIn (position - 1) position state.now × (1 ≤ position) × (most_retransmission ≤ length out.old) }
    ensures { SendsTo 1 (one_of (at_position me state.now position)) out result }
{
    send_slot(state, out, me, position, green_slot(state, position - 1))
}

// Those above `low` up to `high`.
fn send_positions(state: &[u8], out: &mut [u8], me: u8, low: u32, high: u32) -> usize
    requires { PositionsIn low high state.now × RoomFor (greens_of me low high state.now) out.old }
    ensures { SendsAll (greens_of me low high state.now) out result }
{
    let mut sent = 0;
    for p in low..high {
        sent += send_position(state, &mut out[sent..], me, p + 1);
    }
    sent
}

// Where in the queue a red action stands, and its index.
#[derive(Clone, Copy)]
struct Red {
    place: usize,
    index: u16,
}

// The creator's next action over the index i, where it is not over `high`.
fn next_red(
    state: &[u8],
    places: &[u16; State::MOST_IDS],
    creator: u8,
    i: u32,
    high: u32,
) -> Option<Red>
    requires { IndexesIn places.now creator high state.now × (i < high) }
    ensures { NextRed creator i high state.now result }
{
    let all = Lookup {
        state,
        places,
        first: 0,
    };
    let Some(place) = all.next(creator, i as u16) else {
        return None;
    };
    let index = index_at(state, place);
    if high < u32::from(index) {
        return None;
    }
    Some(Red { place, index })
}

// "resends from the lowest cut + 1 to it, as red": the indexes above `low` up to `high`. Only actions that are held cost a turn, and room.
fn send_creator(
    state: &[u8],
    out: &mut [u8],
    places: &[u16; State::MOST_IDS],
    me: u8,
    creator: u8,
    low: u32,
    high: u32,
) -> usize
    requires { IndexesIn places.now creator high state.now × RoomFor (reds_of me creator low high state.now) out.old }
    ensures { SendsAll (reds_of me creator low high state.now) out result }
{
    let mut sent = 0;
    let mut i = low;
    // Stays: it does not count, each turn goes on from the index of the creator's next action (`next_red`), and a `for` says that no plainer.
    while i < high {
        let Some(red) = next_red(state, places, creator, i, high) else {
            break;
        };
        sent += send_slot(state, &mut out[sent..], me, 0, red.place);
        i = u32::from(red.index);
    }
    sent
}

// "the server with the longest green list resends positions from the shortest length + 1 to its own." "An action that the resender does not hold is
// left out": the positions begin above the last white action, and end with the last green one.
fn send_green(state: &[u8], out: &mut [u8], me: u8) -> usize
    requires { Stated state.now × OwnNumber me state.now × RoomFor (green_part state.now) out.old }
    ensures { SendsAll (green_part state.now) out result }
{
    let Share::Own(part) = resends_green(state) else {
        return 0;
    };
    let low = part.low.max(white_length(state));
    let high = part.high.min(green_length(state));
    send_positions(state, out, me, low, high)
}

// "for each creator the server with the highest cut resends from the lowest cut + 1 to it, as red."
fn send_red(state: &[u8], out: &mut [u8], places: &[u16; State::MOST_IDS], me: u8, c: u8) -> usize
    requires { Resends places.now me state.now × (c < servers_in state.now) × RoomFor (red_part state.now c) out.old }
    ensures { SendsAll (red_part state.now c) out result }
{
    let Share::Own(part) = resends_red(state, c as usize) else {
        return 0;
    };
    send_creator(state, out, places, me, c, part.low, part.high)
}

// The same for every creator.
fn send_reds(state: &[u8], out: &mut [u8], places: &[u16; State::MOST_IDS], me: u8) -> usize
    requires { Resends places.now me state.now × RoomFor (all_reds state.now) out.old }
    ensures { SendsAll (all_reds state.now) out result }
{
    let mut sent = 0;
    for c in 0..num8(state, State::AT_SERVERS) {
        sent += send_red(state, &mut out[sent..], places, me, c);
    }
    sent
}

// All of them.
fn send_plan(state: &[u8], out: &mut [u8]) -> usize
    requires { Stated state.now × RoomFor (whole_part state.now) out.old }
    ensures { SendsAll (whole_part state.now) out result }
{
    let me = num8(state, State::AT_ME);
    let green = send_green(state, out, me);
    let places = table(state);
    green + send_reds(state, &mut out[green..], &places, me)
}

// "send one's part of the plan": at the front of the outgoing buffer; how many bytes it has.
pub fn send_part(state: &[u8], out: &mut [u8]) -> u32
    requires { LentSuch (λ s. all_states_in s ≡ true) state.now out.old }
    ensures { PutsRecords part_in result state.now out.old out.new }
{
    send_plan(state, out) as u32
}
