// Which numbers, sets and lists are in range: document 01, 'Records', second paragraph.
ghost use Rattle.std.specs.Prelude.{◌≡◌, ◌*◌, ◌≤◌};
ghost use Rattle.base.specs.Tests.{◌≤?◌};
ghost use Rattle.format.specs.Limits.{most_servers_limit, most_length_limit};
ghost use Rattle.format.specs.Range.{sizes_ok, context_ok, id_ok, index_ok, set_ok, status_ok, primary_ok, mark_ok, own_set_ok, inside_last};
ghost use Rattle.record.specs.Context.{context_of, last_of, ContextIn};
ghost use Rattle.record.specs.Limits.{the_limits};
ghost use Rattle.record.specs.Values.{the_id, primary_of, mark_of};

use crate::sets::{has, inside};
use crate::{ActionId, Context, LastPrimary, Mark, State};

// The limits as one value.
#[derive(Clone, Copy)]
pub struct Limits {
    pub fewest_servers: u8,
    pub most_servers: u8,
    pub least_quota: u16,
    pub most_quota: u16,
    pub most_payload: usize,
    pub most_index: u32,
    pub most_number: u16,
    pub most_length: u32,
}

impl Limits {
    #[tactic(auto, unfolding(crate::specs::Limits::the_limits))]
    pub fn all() -> Limits
        ensures { result ≡ the_limits }
    {
        Limits {
            fewest_servers: State::FEWEST_SERVERS,
            most_servers: State::MOST_SERVERS,
            least_quota: State::LEAST_QUOTA,
            most_quota: State::MOST_QUOTA,
            most_payload: State::MOST_PAYLOAD,
            most_index: State::MOST_INDEX,
            most_number: State::MOST_NUMBER,
            most_length: State::MOST_LENGTH,
        }
    }
}

// "Servers: 2 to 8 .. Quota q: 1 to 256"
#[tactic(auto, using(crate::proofs::Chains::chain), unfolding(format::specs::Range::sizes_ok))]
pub fn sizes_ok(servers: u32, quota: u32) -> bool
    ensures { result ≡ sizes_ok servers quota }
{
    u32::from(State::FEWEST_SERVERS) <= servers
        && servers <= u32::from(State::MOST_SERVERS)
        && u32::from(State::LEAST_QUOTA) <= quota
        && quota <= u32::from(State::MOST_QUOTA)
}

#[tactic(auto, using(crate::proofs::Chains::chain), unfolding(format::specs::Range::context_ok, crate::specs::Context::context_of))]
pub fn context_ok(c: Context) -> bool
    ensures { result ≡ context_ok (context_of c) }
{
    sizes_ok(u32::from(c.servers), u32::from(c.quota)) && c.me < c.servers
}

// K6: "indexes and cuts run to 65,535", the most that two bytes hold.
#[tactic(auto, using(crate::proofs::Chains::chain), unfolding(format::specs::Range::id_ok, crate::specs::Context::context_of, crate::specs::Values::id_of))]
pub fn id_ok(c: Context, id: ActionId) -> bool
    ensures { result ≡ id_ok (context_of c) (the_id id) }
{
    id.creator < c.servers && 1 <= id.index
}

pub fn product(n: u32, m: u32) -> u32
    requires { (n ≤ most_servers_limit) × (m ≤ 65535) }
    ensures { (result ≡ n * m) × (result ≤ most_servers_limit * m) }
{
    n * m
}

// K6: "positions and lengths to 524,280"
#[tactic(auto, using(crate::proofs::Chains::chain))]
pub fn length_ok(length: u32) -> bool
    ensures { result ≡ (length ≤? most_length_limit) }
{
    length <= State::MOST_LENGTH
}

// "Primary and attempt indexes run 0 to 4,000,000,000."
#[tactic(auto, using(crate::proofs::Chains::chain), unfolding(format::specs::Range::index_ok))]
pub fn index_ok(i: u32) -> bool
    ensures { result ≡ index_ok i }
{
    i <= State::MOST_INDEX
}

// "A status is 0 or 1."
#[tactic(auto, using(crate::proofs::Chains::chain), unfolding(format::specs::Range::status_ok))]
pub fn status_ok(s: u8) -> bool
    ensures { result ≡ status_ok s }
{
    s <= 1
}

// Only bits of servers that there are.
pub fn set_ok(c: Context, s: u8) -> bool
    requires { ContextIn c }
    ensures { result ≡ set_ok (context_of c) s }
{
    u32::from(s) < 1 << c.servers
}

#[tactic(auto, using(crate::proofs::Chains::chain), unfolding(format::specs::Range::primary_ok, crate::specs::Values::primary_of))]
pub fn primary_ok(c: Context, p: LastPrimary) -> bool
    requires { ContextIn c }
    ensures { result ≡ primary_ok (context_of c) (primary_of p) }
{
    index_ok(p.index.0) && index_ok(p.attempt.0) && set_ok(c, p.set)
}

#[tactic(auto, using(crate::proofs::Chains::chain), unfolding(format::specs::Range::mark_ok, crate::specs::Values::mark_of))]
pub fn mark_ok(c: Context, m: Mark) -> bool
    requires { ContextIn c }
    ensures { result ≡ mark_ok (context_of c) (mark_of m) }
{
    status_ok(m.status)
        && index_ok(m.index.0)
        && index_ok(m.attempt.0)
        && set_ok(c, m.set)
        && set_ok(c, m.bits)
}

// "A regular set holds the server itself"
#[tactic(auto, using(crate::proofs::Chains::chain), unfolding(format::specs::Range::own_set_ok, crate::specs::Context::context_of))]
pub fn own_set_ok(c: Context, s: u8) -> bool
    requires { ContextIn c }
    ensures { result ≡ own_set_ok (context_of c) s }
{
    set_ok(c, s) && has(s, usize::from(c.me))
}

// "lies inside the last regular one, if any"
pub fn inside_last(c: Context, s: u8) -> bool
    ensures { result ≡ inside_last (last_of c.configured c.set) s }
{
    c.configured == 0 || inside(s, c.set)
}
