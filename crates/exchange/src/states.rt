// The collected States where they lie, and which of them are meant.
ghost use Rattle.exchange.specs.Slots.{Space};

use crate::slots::Slots;
use image::sizes::Sizes;
use octets::numbers::num16;
use record::State;
use record::events::StateHead;
use record::parts::state_head;
use record::sets::{has, with_member};

#[derive(Clone, Copy)]
pub struct States<'a> {
    pub slots: Slots,
    pub bytes: &'a [u8],
    pub ghost space: { Space slots bytes.now },
}

impl<'a> States<'a> {
    ghost use Rattle.std.specs.Prelude.{◌≡◌, ℕ, ◌+◌, ◌≤◌, length, Bool};
    ghost use Rattle.format.specs.Types.{State as FormatState};
    ghost use Rattle.replication.specs.Machine.Plan.{cut_in};
    ghost use Rattle.base.specs.Lists.{any};
    ghost use Rattle.image.specs.Layout.{SizesIn};
    ghost use Rattle.exchange.specs.Slots.{slots_of, slot_at, head_of};
    ghost use Rattle.exchange.specs.Folds.{folded};
    ghost use Rattle.exchange.specs.States.{IsSlot, AtEach, Steps, Tells, Found, Within, First, Those, sent, sent_by};

    // Those of a state with these sizes; `here` is the set of the senders whose State is in.
    pub fn collected(servers: u8, quota: u16, here: u8, state: &'a [u8]) -> States<'a>
        requires { SizesIn servers quota × Space (slots_of servers quota here) state.now }
        ensures slots { result.slots ≡ slots_of servers quota here }
        ensures bytes { result.bytes.now ≡ state.now }
    {
        let sizes = Sizes {
            servers: servers as u32,
            quota: quota as u32,
        };
        let slots = Slots {
            servers: servers as usize,
            size: sizes.state_size() as usize,
            at: sizes.states_at() as usize,
            here,
        };
        States {
            slots,
            bytes: state,
        }
    }

    // Where the slot k begins.
    pub fn place(&self, k: usize) -> usize
        requires { IsSlot self.now k }
        ensures { (result ≡ slot_at self.now.slots k) × (result + self.now.slots.size ≤ length self.now.bytes.now) }
    {
        self.slots.at + k * self.slots.size
    }

    // The numbers of the State in the slot k.
    pub fn head(&self, k: usize) -> StateHead
        requires { IsSlot self.now k }
        ensures { result ≡ head_of self.now.slots self.now.bytes.now k }
    {
        let at = self.place(k);
        state_head(
            &self.bytes[at..],
            self.slots.servers as u8,
            StateHead::CUTS + State::CUT * self.slots.servers,
        )
    }

    // The cut of the creator c in the State of the slot k.
    pub fn cut(&self, k: usize, c: usize) -> u16
        requires { IsSlot self.now k × IsSlot self.now c }
        ensures { result ≡ cut_in c (sent_by self.now k) }
    {
        let at = self.place(k);
        num16(self.bytes, at + StateHead::CUTS + State::CUT * c)
    }

    // What f makes of `start` and the slots that are meant, in turn.
    pub fn fold<A, F: Fn(A, usize) -> A>(&self, start: A, f: F) -> A
        requires { (a : A) → AtEach self.now (F.pre f a) }
        ensures { (step : A → FormatState → A) → Steps self.now (F.post f) step → result ≡ folded step start (sent self.now) }
    {
        let mut a = start;
        for k in 0..self.slots.servers {
            if has(self.slots.here, k) {
                a = f(a, k);
            }
        }
        a
    }

    // Whether one that is meant passes the test.
    pub fn any<F: Fn(usize) -> bool>(&self, test: F) -> bool
        requires { AtEach self.now (F.pre test) }
        ensures { (t : FormatState → Bool) → Tells self.now (F.post test) t → result ≡ any t (sent self.now) }
    {
        for k in 0..self.slots.servers {
            if has(self.slots.here, k) && test(k) {
                return true;
            }
        }
        false
    }

    // The first slot that is meant and passes the test.
    pub fn find<F: Fn(usize) -> bool>(&self, test: F) -> Option<usize>
        requires { AtEach self.now (F.pre test) }
        ensures slot { Within self.now result }
        ensures found { (t : FormatState → Bool) → Tells self.now (F.post test) t → Found self.now t result }
    {
        for k in 0..self.slots.servers {
            if has(self.slots.here, k) && test(k) {
                return Some(k);
            }
        }
        None
    }

    // The first slot that is meant.
    pub fn first(&self) -> Option<usize>
        ensures { First self.now result }
    {
        self.find(|_k| true)
    }

    // Those that are meant and pass the test.
    pub fn those<F: Fn(usize) -> bool>(&self, test: F) -> States<'a>
        requires { AtEach self.now (F.pre test) }
        ensures { (t : FormatState → Bool) → Tells self.now (F.post test) t → Those self.now t result }
    {
        let mut here = 0;
        for k in 0..self.slots.servers {
            if has(self.slots.here, k) && test(k) {
                here = with_member(here, k);
            }
        }
        let slots = Slots { here, ..self.slots };
        States {
            slots,
            bytes: self.bytes,
        }
    }
}
