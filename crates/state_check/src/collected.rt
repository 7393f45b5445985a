// The collected States: whether each slot holds the record that it must.
ghost use Rattle.std.specs.Prelude.{◌≡◌, not, List, ℕ, ◌+◌, ◌≤◌, length};
ghost use Rattle.base.specs.Tests.{◌or◌};
ghost use Rattle.base.specs.Sets.{in_set};
ghost use Rattle.image.specs.Layout.{state_size};
ghost use Rattle.record.specs.Context.{context_of, ContextIn};
ghost use Rattle.record.specs.Events.{record_of};
ghost use Rattle.reader.specs.Reading.{meaning};
ghost use Rattle.state_check.specs.Collected.{is_state, says_state, holds_state, collected_ok, StatesInside};

use crate::numbers::count_ok;
use image::sizes::Sizes;
use octets::numbers::num16;
use reader::read;
use record::events::{Event, StateHead};
use record::sets::has;
use record::{Context, State};
use refusals::Refusal;

// Whether an event is a State of this sender in this configuration.
fn is_state(v: Event, sender: u8, configuration: u32) -> bool
    ensures { (e : List ℕ) → result ≡ is_state sender configuration (record_of v e) }
{
    let Event::State(s) = v else {
        return false;
    };
    s.head.sender == sender && s.head.configuration == configuration
}

fn says_state(r: Result<Event, Refusal>, sender: u8, configuration: u32) -> bool
    ensures { (e : List ℕ) → result ≡ says_state sender configuration (meaning r e) }
{
    let Ok(v) = r else {
        return false;
    };
    is_state(v, sender, configuration)
}

// Whether the slot at `at` holds the record of a State of this sender in this configuration.
fn holds_state(c: Context, sender: u8, configuration: u32, b: &[u8], at: usize) -> bool
    requires { ContextIn c × (at + state_size c.servers c.quota ≤ length b.now) }
    ensures { result ≡ holds_state (context_of c) sender configuration b.now at }
{
    let n = c.servers as usize;
    let count = num16(b, at + (StateHead::COUNT + State::CUT * n));
    if !count_ok(c, count as u32) {
        return false;
    }
    let end = at + (StateHead::SIZE + State::CUT * n + State::ID * count as usize);
    let reading = read(c, &b[at..end]);
    says_state(reading, sender, configuration)
}

// The slot of server k: not in use, or its State.
fn collected_at(c: Context, set: u8, configuration: u32, k: u8, b: &[u8], at: usize) -> bool
    requires { ContextIn c × (at + state_size c.servers c.quota ≤ length b.now) }
    ensures { result ≡ (not (in_set k set) or holds_state (context_of c) k configuration b.now at) }
{
    !has(set, k as usize) || holds_state(c, k, configuration, b, at)
}

// The slots from `at` on: the States of the senders in the set are in.
pub fn collected_ok(c: Context, set: u8, configuration: u32, b: &[u8], at: usize) -> bool
    requires { StatesInside c b.now at }
    ensures { result ≡ collected_ok (context_of c) set configuration c.servers 0 b.now at }
{
    let sizes = Sizes {
        servers: c.servers as u32,
        quota: c.quota as u32,
    };
    let size = sizes.state_size() as usize;
    let mut here = at;
    for k in 0..c.servers {
        if !collected_at(c, set, configuration, k, b, here) {
            return false;
        }
        here += size;
    }
    true
}
