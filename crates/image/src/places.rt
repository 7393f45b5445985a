// Where the sections of the state's buffer begin.
ghost use Rattle.std.specs.Prelude.{◌≡◌, ◌≤◌};
ghost use Rattle.image.specs.Layout.{state_size, the_noted, the_states, the_yellow, the_own, the_queue, offset, most_states_at};
ghost use Rattle.image.specs.Layout.{most_state_size, most_yellow_at, most_own_at};
ghost use Rattle.image.specs.Counts.{place, CountsIn};
ghost use Rattle.image.specs.Sections.{section_number};

use super::sizes::{CUT, CUT_AND_NOTED, HEADER, ID, SLOT, STATE_HEAD, Sizes};
use octets::numbers::{num8, num16};
use record::State;
use record::range::product;

// The sections behind the cuts, in their order.
#[derive(Clone, Copy, Debug, PartialEq, Eq)]
pub enum Section {
    Noted,
    States,
    Yellow,
    Own,
    Queue,
}

// The cuts begin behind the header.
pub const CUTS: u32 = HEADER;

impl Sizes {
    pub fn noted_at(self) -> u32
        ensures { result ≡ offset self.servers self.quota the_noted }
    {
        CUTS + CUT * self.servers
    }

    pub fn states_at(self) -> u32
        ensures { (result ≡ offset self.servers self.quota the_states) × (result ≤ most_states_at) }
    {
        CUTS + CUT_AND_NOTED * self.servers
    }

    // A collected State's slot.
    pub fn state_size(self) -> u32
        ensures { (result ≡ state_size self.servers self.quota) × (result ≤ most_state_size) }
    {
        STATE_HEAD + CUT * self.servers + ID * self.most_ids()
    }

    pub fn yellow_at(self) -> u32
        ensures { (result ≡ offset self.servers self.quota the_yellow) × (result ≤ most_yellow_at) }
    {
        self.states_at() + product(self.servers, self.state_size())
    }

    pub fn own_at(self) -> u32
        ensures { (result ≡ offset self.servers self.quota the_own) × (result ≤ most_own_at) }
    {
        self.yellow_at() + ID * self.most_ids()
    }

    pub fn queue_at(self) -> u32
        ensures { result ≡ offset self.servers self.quota the_queue }
    {
        self.own_at() + SLOT * self.quota
    }

    // Where a section begins.
    fn section_at(self, section: Section) -> u32
        ensures { result ≡ offset self.servers self.quota (section_number section) }
    {
        match section {
            Section::Noted => self.noted_at(),
            Section::States => self.states_at(),
            Section::Yellow => self.yellow_at(),
            Section::Own => self.own_at(),
            Section::Queue => self.queue_at(),
        }
    }
}

// Where a section begins in the state.
pub fn place_of(state: &[u8], section: Section) -> usize
    requires { CountsIn state.now }
    ensures { result ≡ place (section_number section) state.now }
{
    let sizes = Sizes {
        servers: num8(state, State::AT_SERVERS) as u32,
        quota: num16(state, State::AT_QUOTA) as u32,
    };
    sizes.section_at(section) as usize
}
