// Marks, judged on the States as sent: document 01, 'End of exchange'.
ghost use Rattle.std.specs.Prelude.{◌≡◌};
ghost use Rattle.format.specs.Types.{State as FormatState};
ghost use Rattle.record.specs.Values.{primary_of, mark_of};
ghost use Rattle.replication.specs.Machine.Types.{cleared_mark};
ghost use Rattle.replication.specs.Machine.Exchange.{same_attempt_of, rule_a, rule_b, joined_bits};
ghost use Rattle.replication.specs.Machine.Exchange.{judged_mark, mark_left, own_mark, quorum as has_quorum};
ghost use Rattle.exchange.specs.States.{IsSlot, sent, sent_by};
ghost use Rattle.exchange.specs.Marks.{against as is_against, likewise as is_likewise, joined_with, with_bits, is_left};

use crate::judging::Judging;
use record::sets::{has, inside, with_member};
use record::{AttemptIndex, LastPrimary, Mark, PrimaryIndex, State};
use votes::linear_vote;

// "A cleared mark is all zeros."
fn cleared() -> Mark
    ensures { mark_of result ≡ cleared_mark }
{
    Mark {
        status: 0,
        index: PrimaryIndex(0),
        attempt: AttemptIndex(0),
        set: 0,
        bits: 0,
    }
}

fn same_attempt(m: Mark, o: Mark) -> bool
    ensures { result ≡ same_attempt_of (mark_of m) (mark_of o) }
{
    o.index == m.index && o.attempt == m.attempt
}

// "alike in index, attempt and set"
fn likewise(m: Mark, o: Mark) -> bool
    ensures { result ≡ is_likewise (mark_of m) (mark_of o) }
{
    if o.status != 1 {
        return false;
    }
    if !same_attempt(m, o) {
        return false;
    }
    o.set == m.set
}

// "(a) the taken primary's index exceeds the mark's and v is not in its set"
fn rule_a(p: LastPrimary, sender: u8, m: Mark) -> bool
    ensures { (s : FormatState) → s.sender ≡ sender → s.mark ≡ mark_of m → result ≡ rule_a (primary_of p) s }
{
    if p.index.0 <= m.index.0 {
        return false;
    }
    !has(p.set, sender as usize)
}

impl<'a> Judging<'a> {
    // Whether the State in the slot k clears the mark by rule (b).
    fn against(&self, k: usize, m: Mark) -> bool
        requires { IsSlot self.now.states k }
        ensures { result ≡ is_against (mark_of m) (sent_by self.now.states k) }
    {
        let x = self.states.head(k);
        if !has(m.set, x.sender as usize) {
            return false;
        }
        if x.mark.status != 1 {
            return true;
        }
        !same_attempt(m, x.mark)
    }

    // "(b) a member of the mark's set, present here, sent no mark, or another (index, attempt)"
    fn rule_b(&self, m: Mark) -> bool
        ensures { (s : FormatState) → s.mark ≡ mark_of m → result ≡ rule_b (sent self.now.states) s }
    {
        self.states.any(|k| self.against(k, m))
    }

    fn joined(&self, k: usize, m: Mark, bits: u8) -> u8
        requires { IsSlot self.now.states k }
        ensures { (sent_by self.now.states k).sender ≡ k → result ≡ joined_with (mark_of m) bits (sent_by self.now.states k) }
    {
        let o = self.states.head(k).mark;
        if likewise(m, o) {
            with_member(bits | o.bits, k)
        } else {
            bits
        }
    }

    // The mark's bits, "joined with those of marks here alike .., and their senders".
    fn joined_bits(&self, m: Mark) -> u8
        ensures { (s : FormatState) → s.mark ≡ mark_of m → result ≡ joined_bits (sent self.now.states) s }
    {
        self.states.fold(m.bits, |bits, k| self.joined(k, m, bits))
    }

    // The mark of the slot k after judging.
    pub fn judged(&self, k: usize) -> Mark
        requires { IsSlot self.now.states k }
        ensures { mark_of result ≡ judged_mark (sent self.now.states) (sent_by self.now.states k) }
    {
        let x = self.states.head(k);
        let m = x.mark;
        if m.status != 1 {
            return cleared();
        }
        if rule_a(self.taken, x.sender, m) {
            return cleared();
        }
        if self.rule_b(m) {
            return cleared();
        }
        let bits = self.joined_bits(m);
        if inside(m.set, bits) {
            return cleared();
        }
        // "Otherwise the joined bits are kept."
        Mark { bits, ..m }
    }

    fn is_left(&self, k: usize) -> bool
        requires { IsSlot self.now.states k }
        ensures { result ≡ is_left (sent self.now.states) (sent_by self.now.states k) }
    {
        self.judged(k).status == 1
    }

    // Whether some mark is left here.
    pub fn mark_left(&self) -> bool
        ensures { result ≡ mark_left (sent self.now.states) }
    {
        self.states.any(|k| self.is_left(k))
    }

    // The own mark, judged on the own State as sent.
    pub fn own_mark(&self, me: usize) -> Mark
        ensures { mark_of result ≡ own_mark me (sent self.now.states) (sent self.now.states) }
    {
        match self
            .states
            .find(|k| self.states.head(k).sender as usize == me)
        {
            Some(k) => self.judged(k),
            None => cleared(),
        }
    }

    // "Quorum: no mark left here, more than half of the taken primary's members here, and both counters below 4,000,000,000." At exactly half
    // document 02's K1 decides.
    pub fn quorum(&self, here: u8) -> bool
        ensures { result ≡ has_quorum (sent self.now.states) here }
    {
        if self.mark_left() {
            return false;
        }
        let p = self.taken;
        if !linear_vote(p, here) {
            return false;
        }
        if State::MOST_INDEX <= p.index.0 {
            return false;
        }
        self.states.taken_attempt() < State::MOST_INDEX
    }
}
