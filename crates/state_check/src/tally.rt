// How many actions each server has in the queue: in one pass, by a table.
ghost use Rattle.std.specs.Prelude.{◌≡◌};
ghost use Rattle.record.specs.Context.{ContextIn};
ghost use Rattle.image.specs.Decode.{actions_at};
ghost use Rattle.state_check.specs.Tally.{Tally, tally_fits, TallyRoom};

use octets::numbers::num8;
use record::{Context, State};

// A number for each server.
pub const SERVERS: usize = State::MOST_SERVERS as usize;

// Of each server, how many of the `count` actions from `at` on it made.
pub fn tally(b: &[u8], at: usize, count: usize) -> [u16; SERVERS]
    requires { TallyRoom count b.now at }
    ensures { Tally (actions_at count b.now at) result }
{
    let mut t: [u16; SERVERS] = [0; SERVERS];
    for k in 0..count {
        let creator = num8(b, at + State::SLOT * k) as usize;
        t[creator] += 1;
    }
    t
}

// Whether none has made more than the quota.
pub fn tally_fits(c: Context, t: &[u16; SERVERS]) -> bool
    requires { ContextIn c }
    ensures { result ≡ tally_fits c.quota t.now c.servers 0 }
{
    let n = usize::from(c.servers);
    for k in 0..n {
        if c.quota < t[k] {
            return false;
        }
    }
    true
}
