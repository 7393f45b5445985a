// Green entries, copied from the queue's slots one behind another.
ghost use Rattle.std.specs.Prelude.{◌≡◌, ◌+◌, ◌≤◌, length};
ghost use Rattle.base.specs.Bytes.{number_at};
ghost use Rattle.base.specs.Patched.{patched};
ghost use Rattle.format.specs.Places.{action_payload_at, action_head_size};
ghost use Rattle.format.specs.Read.{action_at};
ghost use Rattle.image.specs.Decode.{greens_in, white_in};
ghost use Rattle.queue.specs.Queue.{QueueIn};
ghost use Rattle.queries.specs.Queries.{entry_bytes, entry_head_size, listing, listed};

use crate::GreenEntries;
use image::places::{Section, place_of};
use octets::blocks::copy;
use octets::numbers::num8;
use queue::history::green_slot;
use record::{ActionHead, State};

// An entry but its payload: an id, and the payload's length; and with the longest payload.
const ENTRY_HEAD: usize = State::ID + 1;

pub const MOST_ENTRY: usize = ENTRY_HEAD + State::MOST_PAYLOAD;

// The entry of the action in the slot from `slot` on, whose payload has m bytes.
fn put_entry(state: &[u8], slot: usize, m: usize, out: &mut [u8], at: usize)
    requires m_value { (m ≡ number_at 1 state.now (slot + action_payload_at)) × (slot + action_head_size + m ≤ length state.now) }
    requires m_in_bounds { at + (entry_head_size + m) ≤ length out.old }
    ensures { out.new ≡ patched at (entry_bytes (action_at state.now slot)) out.old }
{
    let id_end = slot + State::ID;
    let payload = slot + ActionHead::PAYLOAD;
    let end = payload + 1 + m;
    copy(out, at, &state[slot..id_end]);
    copy(out, at + State::ID, &state[payload..end]);
}

// Those behind the first `from` that fit. All that are not white have a slot.
pub fn put_entries(state: &[u8], from: u32, white: u32, green: u32, out: &mut [u8]) -> GreenEntries
    requires queue_in { QueueIn state.now × (white ≡ white_in state.now) × (green ≡ length (greens_in state.now)) }
    requires white_le_from { (white ≤ from) × (from ≤ green) }
    ensures { listed result out.new
        ≡ listing (white_in state.now) (greens_in state.now) from out.old }
{
    let queue = place_of(state, Section::Queue);
    let mut at = 0;
    for k in from..green {
        let slot = queue + State::SLOT * green_slot(state, k);
        let m = num8(state, slot + ActionHead::PAYLOAD) as usize;
        if out.len() - at < ENTRY_HEAD + m {
            return GreenEntries::put(green, white, k - from, at);
        }
        put_entry(state, slot, m, out, at);
        at += ENTRY_HEAD + m;
    }
    GreenEntries::put(green, white, green - from, at)
}
