// Parts of a record, as a state's buffer holds them too, read where they lie.
ghost use Rattle.std.specs.Prelude.{◌≡◌, ◌+◌, ◌≤◌, length};
ghost use Rattle.format.specs.Places.{id_size, action_head_size, primary_size, mark_size, state_cuts_at, standing_size};
ghost use Rattle.format.specs.Range.{same_id};
ghost use Rattle.format.specs.Read.{id_at};
ghost use Rattle.record.specs.Events.{id_in, action_in, last_in, mark_in, head_in};
ghost use Rattle.record.specs.Values.{the_id};

use crate::events::{ActionAt, Event, StateHead};
use crate::{ActionHead, ActionId, AttemptIndex, LastPrimary, Mark, PrimaryIndex};
use octets::numbers::{num8, num16, num32};

// The id at `at`.
pub fn id_at(e: &[u8], at: usize) -> ActionId
    requires { at + id_size ≤ length e.now }
    ensures { result ≡ id_in e.now at }
{
    ActionId {
        creator: num8(e, at),
        index: num16(e, at + ActionHead::INDEX),
    }
}

impl ActionId {
    // Whether it is the id at `at`.
    pub fn is_at(self, e: &[u8], at: usize) -> bool
        requires { at + id_size ≤ length e.now }
        ensures { result ≡ same_id (the_id self) (id_at e.now at) }
    {
        self == id_at(e, at)
    }
}

// The action from `at` on.
#[tactic(auto, unfolding(crate::specs::Events::action_in))]
pub fn action_at(e: &[u8], at: usize) -> ActionAt
    requires { at + action_head_size ≤ length e.now }
    ensures { result ≡ action_in e.now at }
{
    let id = id_at(e, at);
    ActionAt {
        head: ActionHead {
            creator: id.creator,
            index: id.index,
            green_length: num32(e, at + ActionHead::GREEN_LENGTH),
            white_length: num32(e, at + ActionHead::WHITE_LENGTH),
        },
        payload_at: at + ActionHead::SIZE,
        payload_length: usize::from(num8(e, at + ActionHead::PAYLOAD)),
    }
}

#[tactic(auto, unfolding(crate::specs::Events::last_in, crate::specs::Values::last_of, format::specs::Read::primary_at))]
pub fn last_at(e: &[u8], at: usize) -> LastPrimary
    requires { at + primary_size ≤ length e.now }
    ensures { result ≡ last_in e.now at }
{
    LastPrimary {
        index: PrimaryIndex(num32(e, at)),
        attempt: AttemptIndex(num32(e, at + LastPrimary::ATTEMPT)),
        set: num8(e, at + LastPrimary::SET),
    }
}

#[tactic(auto, unfolding(crate::specs::Events::mark_in))]
pub fn mark_at(e: &[u8], at: usize) -> Mark
    requires { at + mark_size ≤ length e.now }
    ensures { result ≡ mark_in e.now at }
{
    Mark {
        status: num8(e, at),
        index: PrimaryIndex(num32(e, at + Mark::INDEX)),
        attempt: AttemptIndex(num32(e, at + Mark::ATTEMPT)),
        set: num8(e, at + Mark::SET),
        bits: num8(e, at + Mark::BITS),
    }
}

// The numbers of a State of this many servers. Those behind its cuts begin at `at`.
#[tactic(auto, unfolding(crate::specs::Events::head_in))]
pub fn state_head(e: &[u8], servers: u8, at: usize) -> StateHead
    requires { (state_cuts_at ≤ at) × (at + standing_size ≤ length e.now) }
    ensures { result ≡ head_in servers e.now at }
{
    StateHead {
        sender: num8(e, Event::SENDER),
        configuration: num32(e, Event::NUMBER),
        servers,
        green_length: num32(e, at),
        attempt: AttemptIndex(num32(e, at + StateHead::ATTEMPT)),
        last: last_at(e, at + StateHead::LAST),
        mark: mark_at(e, at + StateHead::MARK),
        yellow_status: num8(e, at + StateHead::YELLOW),
        yellow_count: num16(e, at + StateHead::YELLOW_COUNT),
    }
}
