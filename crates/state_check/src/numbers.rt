// The numbers of the state: which are in range, and which belong together.
#![tactic(auto, using(record::proofs::Chains::chain, crate::proofs::NumberCode::picked), unfolding(crate::specs::Numbers::regular_ok, crate::specs::Numbers::transitional_ok, crate::specs::Numbers::membership_ok, crate::specs::Numbers::queue_count_ok, crate::specs::Numbers::yellow_count_ok, crate::specs::Numbers::room_ok, crate::specs::Numbers::counts_ok, crate::specs::Numbers::votes_ok, crate::specs::Numbers::numbers_ok, record::specs::Context::context_of))]

ghost use Rattle.std.specs.Prelude.{◌≡◌};
ghost use Rattle.base.specs.Tests.{◌≤?◌};
ghost use Rattle.format.specs.Limits.{most_planned};
ghost use Rattle.record.specs.Context.{context_of, ContextIn};
ghost use Rattle.state_check.specs.Numbers.{regular_ok, transitional_ok, membership_ok, queue_count_ok, yellow_count_ok, room_ok};
ghost use Rattle.state_check.specs.Numbers.{counts_ok, votes_ok, numbers_ok};

use record::range::{
    index_ok, inside_last, mark_ok, own_set_ok, primary_ok, product, set_ok, status_ok,
};
use record::sets::inside;
use record::{Context, State};

// None, and zeros; or one whose set holds the server itself.
fn regular_ok(c: Context, h: State) -> bool
    requires { ContextIn c }
    ensures { result ≡ regular_ok (context_of c) h }
{
    if h.configuration_status == 0 {
        h.configuration_id == 0 && h.configuration_set == 0
    } else {
        h.configuration_status == 1 && own_set_ok(c, h.configuration_set)
    }
}

// None, and zeros; or one whose set holds the server itself and lies inside the regular one, if any.
fn transitional_ok(c: Context, h: State) -> bool
    requires { ContextIn c }
    ensures { result ≡ transitional_ok (context_of c) h }
{
    let set = h.transitional_set;
    if h.transitional_status == 0 {
        set == 0
    } else {
        h.transitional_status == 1 && own_set_ok(c, set) && inside_last(c, set)
    }
}

// At most as many retransmissions as can be planned.
fn come_ok(c: Context, come: u32) -> bool
    requires { ContextIn c }
    ensures { result ≡ (come ≤? most_planned c.servers) }
{
    come <= State::MOST_LENGTH + product(u32::from(c.servers), u32::from(State::MOST_NUMBER))
}

fn membership_ok(c: Context, h: State) -> bool
    requires { ContextIn c }
    ensures { result ≡ membership_ok (context_of c) h }
{
    regular_ok(c, h)
        && transitional_ok(c, h)
        && set_ok(c, h.states)
        && inside(h.states, h.configuration_set)
        && set_ok(c, h.cpcs)
        && come_ok(c, h.come)
}

// How many actions the queue may have, and how many ids a yellow list.
pub fn count_ok(c: Context, count: u32) -> bool
    requires { ContextIn c }
    ensures queue { result ≡ queue_count_ok (context_of c) count }
    ensures yellow { result ≡ yellow_count_ok (context_of c) count }
{
    count <= product(u32::from(c.servers), u32::from(c.quota))
}

// Every list has room, and the green actions are among those of the queue.
fn room_ok(c: Context, h: State) -> bool
    requires { ContextIn c }
    ensures { result ≡ room_ok (context_of c) h.queue_length h.green_count h.own_count h.yellow_count }
{
    count_ok(c, h.queue_length)
        && h.green_count <= h.queue_length
        && h.own_count <= c.quota
        && count_ok(c, u32::from(h.yellow_count))
}

// And those sent are numbered.
fn counts_ok(c: Context, h: State) -> bool
    requires { ContextIn c }
    ensures { result ≡ counts_ok (context_of c) h }
{
    room_ok(c, h) && h.sent <= h.numbered
}

fn votes_ok(c: Context, h: State) -> bool
    requires { ContextIn c }
    ensures { result ≡ votes_ok (context_of c) h }
{
    index_ok(h.attempt.0)
        && primary_ok(c, h.last)
        && mark_ok(c, h.mark)
        && status_ok(h.yellow_status)
}

// An image of another layout is none of this one.
pub fn numbers_ok(c: Context, h: State) -> bool
    requires { ContextIn c }
    ensures { result ≡ numbers_ok (context_of c) h }
{
    h.layout == State::LAYOUT && membership_ok(c, h) && counts_ok(c, h) && votes_ok(c, h)
}
