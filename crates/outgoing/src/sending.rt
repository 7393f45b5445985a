// What waits on the own list, as records.
ghost use Rattle.std.specs.Prelude.{◌-◌, ◌≤◌, length};
ghost use Rattle.base.specs.Lists.{gather, above};
ghost use Rattle.format.specs.Places.{most_retransmission};
ghost use Rattle.replication.specs.Machine.Requests.{waiting_records};
ghost use Rattle.image.specs.Counts.{own_count_of};
ghost use Rattle.outgoing.specs.Lent.{LentSuch, PutsRecords};
ghost use Rattle.outgoing.specs.Resending.{SendsTo, Room, one_of};
ghost use Rattle.outgoing.specs.Sending.{OwnIn, own_at};

use crate::payload;
use image::header::{load, unsent};
use image::places::{Section, place_of};
use record::State;
use record::parts::action_at;
use writer::records::write_action;

// The p-th action of the own list, at the front of the buffer: how many bytes its record has.
fn send_own(state: &[u8], out: &mut [u8], p: u16) -> usize
    requires { OwnIn state.now × (1 ≤ p) × (p ≤ own_count_of state.now) × (most_retransmission ≤ length out.old) }
    ensures { SendsTo 1 (one_of (own_at state.now p)) out result }
{
    let a = action_at(
        state,
        place_of(state, Section::Own) + State::SLOT * (p as usize - 1),
    );
    let head = a.head;
    let size = write_action(out, head, payload(state, a));
    size.unwrap_or(0)
}

// Those behind the first `low` up to the one at `high`: how many bytes they have.
fn send_behind(state: &[u8], out: &mut [u8], low: u16, high: u16) -> usize
    requires { OwnIn state.now × (high ≤ own_count_of state.now) × Room (high - low) out.old }
    ensures { SendsTo (high - low) (gather (own_at state.now) (above low high)) out result }
{
    let mut sent = 0;
    for p in low..high {
        sent += send_own(state, &mut out[sent..], p + 1);
    }
    sent
}

// What waits, the last ones of the own list in order, at the front of the outgoing buffer; how many bytes it has. The state is not changed.
pub fn send_records(state: &[u8], out: &mut [u8]) -> u32
    requires { LentSuch (λ s. 0 ≤ 0) state.now out.old }
    ensures { PutsRecords waiting_records result state.now out.old out.new }
{
    let h = load(state);
    let high = h.own_count;
    let low = high - unsent(h);
    send_behind(state, out, low, high) as u32
}
