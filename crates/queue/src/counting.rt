// How many places a creator's actions have.
ghost use Rattle.std.specs.Prelude.{◌≡◌, [], ◌∷◌, ◌≤◌, ◌<◌, length};
ghost use Rattle.format.specs.Read.{action_at};
ghost use Rattle.replication.specs.Machine.Colours.{of_creator, unwhite};
ghost use Rattle.image.specs.Counts.{CountsIn};
ghost use Rattle.image.specs.Holding.{Computes};

use image::places::{Section, place_of};
use octets::numbers::{num8, num32};
use record::State;

// 1 where the action from `at` on is this creator's, else 0.
fn one_of(state: &[u8], at: usize, creator: u8) -> u32
    requires { at < length state.now }
    ensures { (result ≡ of_creator creator (action_at state.now at ∷ [])) × (result ≤ 1) }
{
    u32::from(num8(state, at) == creator)
}

// How many actions of this creator are entered and not white: one pass over the slots in use.
pub fn count_of(state: &[u8], creator: u8) -> u32
    requires { CountsIn state.now }
    ensures { Computes (λ s. unwhite creator s.white s.log) state.now result }
{
    let slots = num32(state, State::AT_QUEUE_LENGTH) as usize;
    let at = place_of(state, Section::Queue);
    let mut count: u32 = 0;
    for k in 0..slots {
        count += one_of(state, at + State::SLOT * k, creator);
    }
    count
}
