// The slots of the state's buffer: what is tested of each entry.
#![tactic(auto, using(record::proofs::Chains::chain), unfolding(crate::specs::Slots::slot_fits, crate::specs::Slots::within_cut_at, crate::specs::Slots::queue_slot_fits, crate::specs::Slots::own_slot_fits, crate::specs::Slots::noted_at, format::specs::Range::length_ok, record::specs::Context::context_of))]

ghost use Rattle.std.specs.Prelude.{◌≡◌, ◌+◌, ◌*◌, ◌-◌, ◌≤◌, length};
ghost use Rattle.base.specs.Lists.{every_at};
ghost use Rattle.base.specs.Bytes.{zero_at};
ghost use Rattle.format.specs.Limits.{most_payload_limit, most_quota_limit, most_ids};
ghost use Rattle.record.specs.Context.{context_of, ContextIn};
ghost use Rattle.record.specs.Values.{HasPlaces, NextId};
ghost use Rattle.state_check.specs.Slots.{Masks, payload_room, payload_space, payload_fits, slot_fits, noted_at, noted_fit};
ghost use Rattle.state_check.specs.Slots.{CutInside, queue_slot_fits, NextSlotFits, QueueRoom, queue_fits, own_reach, own_slot_fits, own_fits};
ghost use Rattle.image.specs.Layout.{noted_size, slot_size};

use octets::numbers::{num8, num16, num32};
use record::lists::Ids;
use record::range::length_ok;
use record::{ActionHead, Context, State};

// A payload's space in a slot.
const SPACE: usize = State::SLOT - ActionHead::SIZE;

// Masks of payloads: as many zeros as a payload may have bytes, then as many ones as its space. From MOST_PAYLOAD - m on they let through what
// stands behind a payload of m bytes.
pub const MASKS: usize = State::MOST_PAYLOAD + SPACE;

pub fn masks() -> [u8; MASKS]
    ensures { Masks result }
{
    let mut t: [u8; MASKS] = [0; MASKS];
    for j in State::MOST_PAYLOAD..MASKS {
        t[j] = 255;
    }
    t
}

// Whether zeros stand behind a payload of m bytes, which begins at `at`: the OR of all its room under the masks, so that the time does not
// go by m and the compiler can use wide instructions.
fn zeros(b: &[u8], at: usize, m: usize, t: &[u8; MASKS]) -> bool
    requires { Masks t.now × (m ≤ most_payload_limit) × (at + payload_space ≤ length b.now) }
    ensures { result ≡ every_at (zero_at b.now) 1 (payload_space - m) (at + m) }
{
    let from = State::MOST_PAYLOAD - m;
    let mut all: u8 = 0;
    for j in 0..SPACE {
        all |= b[at + j] & t[from + j];
    }
    all == 0
}

// The bytes that the slots lie in, and the masks of their payloads.
#[derive(Clone, Copy)]
pub struct SlotBytes<'a> {
    pub bytes: &'a [u8],
    pub masks: &'a [u8; MASKS],
    pub ghost masked: { Masks masks.now },
}

impl<'a> SlotBytes<'a> {
    // A payload of at most 48 bytes, and zeros behind it.
    fn payload_fits(&self, at: usize) -> bool
        requires { at + payload_room ≤ length self.now.bytes.now }
        ensures { result ≡ payload_fits self.now.bytes.now at }
    {
        let m = num8(self.bytes, at) as usize;
        m <= State::MOST_PAYLOAD && zeros(self.bytes, at + 1, m, self.masks)
    }

    // An action's green length, white length and payload.
    fn slot_fits(&self, at: usize) -> bool
        requires { at + slot_size ≤ length self.now.bytes.now }
        ensures { result ≡ slot_fits self.now.bytes.now at }
    {
        length_ok(num32(self.bytes, at + ActionHead::GREEN_LENGTH))
            && length_ok(num32(self.bytes, at + ActionHead::WHITE_LENGTH))
            && self.payload_fits(at + ActionHead::PAYLOAD)
    }

    // An action of the queue: the cuts begin at `cuts`, and its creator's is among them.
    fn queue_slot_fits(&self, cuts: usize, at: usize) -> bool
        requires { CutInside cuts at self.now.bytes.now × (at + slot_size ≤ length self.now.bytes.now) }
        ensures { result ≡ queue_slot_fits self.now.bytes.now cuts at }
    {
        let index = num16(self.bytes, at + ActionHead::INDEX);
        let cut = cuts + State::CUT * num8(self.bytes, at) as usize;
        index <= num16(self.bytes, cut) && self.slot_fits(at)
    }

    // The slot behind `k` others from `at` on: its id is new, and its place in the table of the ids that were met is set; and all else. As the id is
    // in range, its creator's cut is there to be read.
    fn next_fits(&self, c: Context, cuts: usize, at: usize, k: usize, met: &mut [u8]) -> bool
        requires { QueueRoom c cuts (at + slot_size * k) 1 self.now.bytes.now × NextId slot_size k self.now.bytes.now at (at + slot_size * k) c.servers met.old }
        ensures { NextSlotFits (context_of c) cuts k self.now.bytes.now at (at + slot_size * k) result met.old met.new }
    {
        let here = at + State::SLOT * k;
        let before = Ids {
            bytes: self.bytes,
            at,
            step: State::SLOT,
            count: k,
        };
        before.is_new(c, here, met) && self.queue_slot_fits(cuts, here)
    }

    // The queue, in one pass, by a table of the ids that were met.
    fn queue_fits_by(
        &self,
        c: Context,
        cuts: usize,
        at: usize,
        count: usize,
        met: &mut [u8],
    ) -> bool
        requires { QueueRoom c cuts at count self.now.bytes.now × HasPlaces c.servers met.old }
        ensures { result ≡ queue_fits (context_of c) cuts count self.now.bytes.now at }
    {
        for k in 0..count {
            if !self.next_fits(c, cuts, at, k, met) {
                return false;
            }
        }
        true
    }

    fn queue_fits_with<const N: usize>(
        &self,
        c: Context,
        cuts: usize,
        at: usize,
        count: usize,
    ) -> bool
        requires { QueueRoom c cuts at count self.now.bytes.now × (c.servers * most_quota_limit ≤ N) × (N ≤ most_ids) }
        ensures { result ≡ queue_fits (context_of c) cuts count self.now.bytes.now at }
    {
        let mut met: [u8; N] = [0; N];
        self.queue_fits_by(c, cuts, at, count, &mut met)
    }

    // The queue. A table for few servers is short.
    pub fn queue_fits(&self, c: Context, cuts: usize, at: usize, count: usize) -> bool
        requires { QueueRoom c cuts at count self.now.bytes.now }
        ensures { result ≡ queue_fits (context_of c) cuts count self.now.bytes.now at }
    {
        match c.servers {
            0..=2 => self.queue_fits_with::<{ State::IDS_OF_2 }>(c, cuts, at, count),
            3 => self.queue_fits_with::<{ State::IDS_OF_3 }>(c, cuts, at, count),
            4 => self.queue_fits_with::<{ State::IDS_OF_4 }>(c, cuts, at, count),
            _ => self.queue_fits_with::<{ State::MOST_IDS }>(c, cuts, at, count),
        }
    }

    // An own action of the index k + 1.
    fn own_slot_fits(&self, c: Context, k: usize, at: usize) -> bool
        requires { ContextIn c × (k ≤ own_reach) × (at + slot_size ≤ length self.now.bytes.now) }
        ensures { result ≡ own_slot_fits (context_of c) k self.now.bytes.now at }
    {
        num8(self.bytes, at) == c.me
            && num16(self.bytes, at + ActionHead::INDEX) as usize == k + 1
            && self.slot_fits(at)
    }

    // Own actions of the indexes from k + 1 on.
    pub fn own_fits(&self, c: Context, k: usize, at: usize, count: usize) -> bool
        requires { ContextIn c × (k + count ≤ own_reach) × (at + slot_size * count ≤ length self.now.bytes.now) }
        ensures { result ≡ own_fits (context_of c) k count self.now.bytes.now at }
    {
        for i in 0..count {
            if !self.own_slot_fits(c, k + i, at + State::SLOT * i) {
                return false;
            }
        }
        true
    }
}

fn noted_at(b: &[u8], at: usize) -> bool
    requires { at + noted_size ≤ length b.now }
    ensures { result ≡ noted_at b.now at }
{
    length_ok(num32(b, at))
}

// The noted lengths.
pub fn noted_fit(c: Context, b: &[u8], at: usize) -> bool
    requires { ContextIn c × (at + noted_size * c.servers ≤ length b.now) }
    ensures { result ≡ noted_fit (context_of c) b.now at }
{
    let servers = c.servers as usize;
    for k in 0..servers {
        if !noted_at(b, at + State::NOTED * k) {
            return false;
        }
    }
    true
}
