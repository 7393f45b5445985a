// Who resends what: document 01, 'Plan'.
ghost use Rattle.std.specs.Prelude.{◌≡◌, ℕ, ◌==◌, max, min, length};
ghost use Rattle.format.specs.Types.{State};
ghost use Rattle.replication.specs.Machine.Plan.{highest as highest_of, lowest as lowest_of, missing as missing_of, planned as planned_of};
ghost use Rattle.replication.specs.Machine.Plan.{resender, is_me};
ghost use Rattle.exchange.specs.States.{AtEach, Tells, sent};
ghost use Rattle.exchange.specs.Plan.{part_of};

use crate::states::States;

// What is resent: those above `low` up to `high`.
#[derive(Clone, Copy, Debug, PartialEq, Eq)]
pub struct Part {
    pub low: u32,
    pub high: u32,
}

// Whose part of the plan it is: the server's own, or another's.
#[derive(Clone, Copy, Debug, PartialEq, Eq)]
pub enum Share {
    Own(Part),
    Others(Part),
}

// By a number of the State in each slot: the green length, the attempt, or the cut of one creator.
impl<'a> States<'a> {
    // The highest of the States that are meant.
    pub fn highest<F: Fn(usize) -> u32>(&self, number: F) -> u32
        requires { AtEach self.now (F.pre number) }
        ensures { (n : State → ℕ) → Tells self.now (F.post number) n → result ≡ highest_of n (sent self.now) }
    {
        self.fold(
            0,
            |high, k|
                requires { F.pre number k }
                ensures { (x : ℕ) × F.post number k x × (result ≡ max x high) }
            { number(k).max(high) },
        )
    }

    // The lowest of them.
    pub fn lowest<F: Fn(usize) -> u32>(&self, number: F) -> u32
        requires { AtEach self.now (F.pre number) }
        ensures { (n : State → ℕ) → Tells self.now (F.post number) n → result ≡ lowest_of n (sent self.now) }
    {
        match self.first() {
            Some(start) => self.fold(
                number(start),
                |low, k|
                    requires { F.pre number k }
                    ensures { (x : ℕ) × F.post number k x × (result ≡ min low x) }
                { low.min(number(k)) },
            ),
            None => 0,
        }
    }

    // How many are resent: "from the shortest length + 1 to its own", "from the lowest cut + 1 to it".
    pub fn missing<F: Fn(usize) -> u32 + Copy>(&self, number: F) -> u32
        requires { AtEach self.now (F.pre number) }
        ensures { (n : State → ℕ) → Tells self.now (F.post number) n → result ≡ length (missing_of n (sent self.now)) }
    {
        self.highest(number).saturating_sub(self.lowest(number))
    }

    // How many retransmissions are planned, those left out too.
    pub fn planned(&self) -> u64
        ensures { result ≡ planned_of self.now.slots.servers (sent self.now) }
    {
        let mut total = self.missing(|k| self.head(k).green_length) as u64;
        for c in 0..self.slots.servers {
            total += self.missing(|k| self.cut(k, c) as u32) as u64;
        }
        total
    }

    // Whether the server `me` is the one that resends: "Lowest number wins ties."
    pub fn resends<F: Fn(usize) -> u32 + Copy>(&self, number: F, me: usize) -> bool
        requires { AtEach self.now (F.pre number) }
        ensures { (n : State → ℕ) → Tells self.now (F.post number) n → result ≡ is_me me (resender n (sent self.now)) }
    {
        let high = self.highest(number);
        let is_highest = |k|
            requires { F.pre number k }
            ensures { (x : ℕ) × F.post number k x × (result ≡ (x == high)) }
        { number(k) == high };
        match self.find(is_highest) {
            Some(k) => self.head(k).sender as usize == me,
            None => false,
        }
    }

    // The part, and whether the server `me` is the one that resends it.
    pub fn part<F: Fn(usize) -> u32 + Copy>(&self, number: F, me: usize) -> Share
        requires { AtEach self.now (F.pre number) }
        ensures { (n : State → ℕ) → Tells self.now (F.post number) n → result ≡ part_of n me (sent self.now) }
    {
        let part = Part {
            low: self.lowest(number),
            high: self.highest(number),
        };
        if self.resends(number, me) {
            Share::Own(part)
        } else {
            Share::Others(part)
        }
    }
}
