// The sections of the state's buffer, each against the numbers that go with it.
#![tactic(auto, using(record::proofs::Chains::chain), unfolding(crate::specs::Checks::cuts_fit, crate::specs::Checks::first_lists_ok, crate::specs::Checks::last_lists_ok, crate::specs::Checks::lists_ok))]

ghost use Rattle.std.specs.Prelude.{◌≡◌, ◌+◌, ◌*◌, ◌≤◌, length};
ghost use Rattle.base.specs.Bytes.{numbers_at};
ghost use Rattle.base.specs.Lists.{sum};
ghost use Rattle.base.specs.Tests.{◌≤?◌};
ghost use Rattle.format.specs.Limits.{most_servers_limit};
ghost use Rattle.image.specs.Layout.{the_noted, the_states};
ghost use Rattle.format.specs.Places.{cut_size};
ghost use Rattle.record.specs.Context.{context_of};
ghost use Rattle.state_check.specs.Slots.{noted_fit};
ghost use Rattle.state_check.specs.Numbers.{CountsIn};
ghost use Rattle.state_check.specs.Collected.{collected_ok};
ghost use Rattle.state_check.specs.Checks.{place_of, own_cut, queue_cuts, own_next, cuts_fit, yellow_ok, own_ok, queue_ok, Buffer};
ghost use Rattle.state_check.specs.Checks.{first_lists_ok, last_lists_ok, places_ok, lists_ok, CreatorsIn};

use super::collected::collected_ok;
use super::slots::{SlotBytes, masks, noted_fit};
use super::tally::{tally, tally_fits};
use image::places::CUTS;
use image::sizes::Sizes;
use octets::numbers::num16;
use record::lists::ids_ok;
use record::{Context, State};

// The sum of the n cuts from `at` on.
fn sum_of(b: &[u8], at: usize, n: usize) -> u32
    requires { (n ≤ most_servers_limit) × (at + cut_size * n ≤ length b.now) }
    ensures { result ≡ sum (numbers_at cut_size n b.now at) }
{
    let mut total: u32 = 0;
    for k in 0..n {
        total += num16(b, at + State::CUT * k) as u32;
    }
    total
}

// The bytes of a state's buffer, long enough for its sizes; the numbers that they begin with, and what its records are read against.
#[derive(Clone, Copy)]
pub struct Image<'a> {
    pub context: Context,
    pub numbers: State,
    pub bytes: &'a [u8],
    pub ghost ready: { Buffer context bytes.now },
}

impl<'a> Image<'a> {
    fn sizes(&self) -> Sizes
        ensures { (result.servers ≡ self.now.context.servers) × (result.quota ≡ self.now.context.quota) }
    {
        Sizes {
            servers: self.context.servers as u32,
            quota: self.context.quota as u32,
        }
    }

    // The server's own cut.
    fn own_cut(&self) -> u16
        ensures { result ≡ own_cut (context_of self.now.context) self.now.bytes.now }
    {
        num16(
            self.bytes,
            CUTS as usize + State::CUT * self.context.me as usize,
        )
    }

    // No more actions in the queue than were entered, by the cuts: the others are white.
    fn queue_cuts(&self) -> bool
        ensures { result ≡ queue_cuts (context_of self.now.context) self.now.numbers.queue_length self.now.bytes.now }
    {
        let n = self.context.servers as usize;
        self.numbers.queue_length <= sum_of(self.bytes, CUTS as usize, n)
    }

    // The own list goes from the own cut to the last numbered.
    fn own_next(&self) -> bool
        ensures { result ≡ own_next (context_of self.now.context) self.now.numbers.own_count self.now.numbers.numbered self.now.bytes.now }
    {
        let h = self.numbers;
        self.own_cut() as u32 + h.own_count as u32 == h.numbered as u32
    }

    fn cuts_fit(&self) -> bool
        ensures { result ≡ cuts_fit (context_of self.now.context) self.now.numbers self.now.bytes.now }
    {
        self.queue_cuts() && self.own_next()
    }

    fn noted_ok(&self) -> bool
        ensures { result ≡ noted_fit (context_of self.now.context) self.now.bytes.now (place_of (context_of self.now.context) the_noted) }
    {
        let at = self.sizes().noted_at() as usize;
        noted_fit(self.context, self.bytes, at)
    }

    // No table is laid out where there are no ids.
    fn yellow_ok(&self) -> bool
        requires { self.now.numbers.yellow_count ≤ self.now.context.servers * self.now.context.quota }
        ensures { result ≡ yellow_ok (context_of self.now.context) self.now.numbers.yellow_count self.now.bytes.now }
    {
        let count = self.numbers.yellow_count as usize;
        let at = self.sizes().yellow_at() as usize;
        count == 0 || ids_ok(self.context, self.bytes, at, count)
    }

    fn own_ok(&self) -> bool
        requires { self.now.numbers.own_count ≤ self.now.context.quota }
        ensures { result ≡ own_ok (context_of self.now.context) self.now.numbers.own_count self.now.bytes.now }
    {
        let at = self.sizes().own_at() as usize;
        let masks = masks();
        let slots = SlotBytes {
            bytes: self.bytes,
            masks: &masks,
        };
        let cut = self.own_cut() as usize;
        slots.own_fits(self.context, cut, at, self.numbers.own_count as usize)
    }

    fn queue_ok(&self) -> bool
        requires { self.now.numbers.queue_length ≤ self.now.context.servers * self.now.context.quota }
        ensures { result ≡ queue_ok (context_of self.now.context) self.now.numbers.queue_length self.now.bytes.now }
    {
        let at = self.sizes().queue_at() as usize;
        let masks = masks();
        let slots = SlotBytes {
            bytes: self.bytes,
            masks: &masks,
        };
        let count = self.numbers.queue_length as usize;
        slots.queue_fits(self.context, CUTS as usize, at, count)
    }

    // The own actions of the queue, of which there are `entered`, and those that are numbered and not entered are at most q together.
    fn own_room(&self, entered: u16) -> bool
        ensures { result ≡ (entered + self.now.numbers.numbered ≤? self.now.context.quota + own_cut (context_of self.now.context) self.now.bytes.now) }
    {
        let numbered = self.numbers.numbered;
        let cut = self.own_cut() as u32;
        entered as u32 + numbered as u32 <= self.context.quota as u32 + cut
    }

    // "its q bounds only those not white": those that have a place in the queue.
    fn places_ok(&self) -> bool
        requires { CreatorsIn self.now.context self.now.numbers.queue_length self.now.bytes.now }
        ensures { result ≡ places_ok (context_of self.now.context) self.now.numbers.numbered self.now.numbers.queue_length self.now.bytes.now }
    {
        let at = self.sizes().queue_at() as usize;
        let t = tally(self.bytes, at, self.numbers.queue_length as usize);
        tally_fits(self.context, &t) && self.own_room(t[self.context.me as usize])
    }

    // The collected States.
    pub fn states_ok(&self) -> bool
        ensures { result ≡ collected_ok (context_of self.now.context) self.now.numbers.states self.now.numbers.configuration_id self.now.context.servers 0 self.now.bytes.now (place_of (context_of self.now.context) the_states) }
    {
        let h = self.numbers;
        let at = self.sizes().states_at() as usize;
        collected_ok(self.context, h.states, h.configuration_id, self.bytes, at)
    }

    // Cuts and noted lengths.
    fn first_lists_ok(&self) -> bool
        ensures { result ≡ first_lists_ok (context_of self.now.context) self.now.numbers self.now.bytes.now }
    {
        self.cuts_fit() && self.noted_ok()
    }

    // Yellow ids, own list and queue.
    fn last_lists_ok(&self) -> bool
        requires { CountsIn self.now.context.servers self.now.context.quota self.now.numbers }
        ensures { result ≡ last_lists_ok (context_of self.now.context) self.now.numbers.yellow_count self.now.numbers.own_count self.now.numbers.queue_length self.now.bytes.now }
    {
        self.yellow_ok() && self.own_ok() && self.queue_ok()
    }

    pub fn lists_ok(&self) -> bool
        requires { CountsIn self.now.context.servers self.now.context.quota self.now.numbers }
        ensures { result ≡ lists_ok (context_of self.now.context) self.now.numbers self.now.bytes.now }
    {
        self.first_lists_ok() && self.last_lists_ok() && self.places_ok()
    }
}
