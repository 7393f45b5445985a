// Last primaries: which of two is the later one, and whether those here are a quorum of one.
#![tactic(auto)]

ghost use Rattle.std.specs.Prelude.{◌≡◌};
ghost use Rattle.base.specs.Sets.{lowest_member};
ghost use Rattle.base.specs.Tests.{pick};
ghost use Rattle.format.specs.Limits.{most_servers_limit};
ghost use Rattle.record.specs.Values.{primary_of};
ghost use Rattle.replication.specs.Machine.Exchange.{later as is_later, linear_vote};

use record::LastPrimary;
use record::sets::has;

// The lowest-numbered member of the set; 8, which is no server, where it is empty.
// Stays: 8 in place of none (d): it is std's `trailing_zeros` itself, and `has` answers no to it.
fn lowest_member(set: u8) -> usize
    ensures { result ≡ lowest_member most_servers_limit set }
{
    u8::trailing_zeros(set) as usize
}

// "more than half of the taken primary's members here"; document 02, K1: "Exactly half of the last primary now also makes a quorum if it holds that
// primary's lowest-numbered member."
pub fn linear_vote(p: LastPrimary, here: u8) -> bool
    ensures { result ≡ linear_vote (primary_of p) here }
{
    let set = p.set;
    let present = set & here;
    let all = u8::count_ones(set);
    let twice = 2 * u8::count_ones(present);
    all < twice || twice == all && has(present, lowest_member(set))
}

// Whether r has a higher (index, attempt) than p.
pub fn later(p: LastPrimary, r: LastPrimary) -> bool
    ensures { result ≡ is_later (primary_of p) (primary_of r) }
{
    p.index.0 < r.index.0 || p.index == r.index && p.attempt.0 < r.attempt.0
}

// The one with the higher (index, attempt), and p where neither has.
pub fn later_of(p: LastPrimary, r: LastPrimary) -> LastPrimary
    ensures { result ≡ pick (is_later (primary_of p) (primary_of r)) r p }
{
    if later(p, r) { r } else { p }
}
