// How long the buffers must be, by the numbers of servers and the quota.
ghost use Rattle.std.specs.Prelude.{◌≡◌, ◌*◌, ◌≤◌};
ghost use Rattle.format.specs.Limits.{fewest_servers_limit, least_quota_limit, most_ids};
ghost use Rattle.image.specs.Layout.{SizesIn, state_length, out_length, least_state_length, least_out_length};

use record::State;
use record::events::StateHead;
use record::range::product;

// The fixed-size fields; a cut, alone and with a noted length; an action on the own list or in the queue; an id; a State with no cuts and no ids.
pub const HEADER: u32 = State::SIZE as u32;

pub const CUT: u32 = State::CUT as u32;

pub const CUT_AND_NOTED: u32 = State::CUT_AND_NOTED as u32;

pub const SLOT: u32 = State::SLOT as u32;

pub const ID: u32 = State::ID as u32;

pub const STATE_HEAD: u32 = StateHead::SIZE as u32;

// The longest retransmission of an action by its position, and that of it as red.
const RESENT: u32 = 2 * State::RETRANSMISSION as u32;

// How many servers there are and their quota, neither above its limit: what all lengths and places follow from.
#[derive(Clone, Copy)]
pub struct Sizes {
    pub servers: u32,
    pub quota: u32,
    ghost within: { SizesIn servers quota },
}

impl Sizes {
    // Servers times quota: so many actions can a queue have, and so many ids a yellow list.
    pub fn most_ids(self) -> u32
        ensures { (result ≡ self.servers * self.quota) × (result ≤ most_ids) }
    {
        product(self.servers, self.quota)
    }

    // The required length of the state's buffer.
    pub fn state_length(self) -> u32
        ensures { result ≡ state_length self.servers self.quota }
    {
        let n = self.servers;
        let all = self.most_ids();
        let states = product(n, STATE_HEAD + CUT * n + ID * all);
        HEADER + CUT_AND_NOTED * n + states + ID * all + SLOT * self.quota + SLOT * all
    }

    // The required length of the outgoing buffer.
    pub fn out_length(self) -> u32
        ensures { result ≡ out_length self.servers self.quota }
    {
        RESENT * self.most_ids()
    }
}

// Where servers or quota are out of range, these lengths stand for the required ones.
fn least() -> Sizes
    ensures { (result.servers ≡ fewest_servers_limit) × (result.quota ≡ least_quota_limit) }
{
    Sizes {
        servers: State::FEWEST_SERVERS as u32,
        quota: State::LEAST_QUOTA as u32,
    }
}

pub fn least_state_length() -> u32
    ensures { result ≡ least_state_length }
{
    least().state_length()
}

pub fn least_out_length() -> u32
    ensures { result ≡ least_out_length }
{
    least().out_length()
}
