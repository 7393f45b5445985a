// The yellow list that the States decide: document 01, 'End of exchange'.
ghost use Rattle.std.specs.Prelude.{◌≡◌};
ghost use Rattle.replication.specs.Machine.Exchange.{is_valid, taken_yellow};
ghost use Rattle.exchange.specs.States.{IsSlot, Voters, sent, sent_by};

use crate::states::States;

impl<'a> States<'a> {
    fn is_valid(&self, k: usize) -> bool
        requires { IsSlot self.now k }
        ensures { result ≡ is_valid (sent_by self.now k) }
    {
        self.head(k).yellow_status == 1
    }

    // Those of the updated group who sent a valid list: the yellow list is made of theirs.
    pub fn yellow_voters(&self) -> States<'a>
        ensures { Voters self.now result }
    {
        let group = self.group(self.taken_primary());
        group.those(|k| group.is_valid(k))
    }

    // "Yellow is valid if any of them sent it valid"
    pub fn yellow_status(&self) -> u8
        ensures { result ≡ (taken_yellow (sent self.now)).status }
    {
        match self.yellow_voters().first() {
            Some(_k) => 1,
            None => 0,
        }
    }
}
