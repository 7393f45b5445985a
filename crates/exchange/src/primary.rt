// The primary component that the States decide, the group that sent it, and the attempt: document 01, 'End of exchange'.
ghost use Rattle.std.specs.Prelude.{◌≡◌};
ghost use Rattle.record.specs.Values.{primary_of, last_of};
ghost use Rattle.replication.specs.Machine.Exchange.{taken_primary, same_pair, taken_attempt};
ghost use Rattle.exchange.specs.States.{IsSlot, Those, sent, sent_by};

use crate::states::States;
use record::LastPrimary;
use votes::later_of;

impl<'a> States<'a> {
    // The last primary in the State of the slot k.
    fn last(&self, k: usize) -> LastPrimary
        requires { IsSlot self.now k }
        ensures { result ≡ last_of (sent_by self.now k).last }
    {
        self.head(k).last
    }

    // "Take the last primary with the highest (index, attempt), the lowest-numbered sender's if sets differ"
    pub fn taken_primary(&self) -> LastPrimary
        ensures { primary_of result ≡ taken_primary (sent self.now) }
    {
        match self.first() {
            Some(start) => self.fold(self.last(start), |p, k| later_of(p, self.last(k))),
            None => LastPrimary::first(0),
        }
    }

    fn has_pair(&self, k: usize, p: LastPrimary) -> bool
        requires { IsSlot self.now k }
        ensures { result ≡ same_pair (primary_of p) (sent_by self.now k) }
    {
        let x = self.last(k);
        x.index == p.index && x.attempt == p.attempt
    }

    // "all who sent that pair are the updated group"
    pub fn group(&self, p: LastPrimary) -> States<'a>
        ensures { Those self.now (same_pair (primary_of p)) result }
    {
        self.those(|k| self.has_pair(k, p))
    }

    // "the attempt is the highest they sent"
    pub fn taken_attempt(&self) -> u32
        ensures { result ≡ taken_attempt (sent self.now) }
    {
        let group = self.group(self.taken_primary());
        group.highest(|k| group.head(k).attempt.0)
    }
}
