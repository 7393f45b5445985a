// How many records there are, by their length bytes.
ghost use Rattle.std.specs.Prelude.{◌≡◌, ◌+◌, ◌≤◌, length, take, drop};
ghost use Rattle.base.specs.Bytes.{number_at};
ghost use Rattle.format.specs.Places.{length_size};
ghost use Rattle.replay_servers.specs.Core.{records_in};

use octets::numbers::num16;
use record::events::Event;

// What lies behind the first record, by its length bytes; nothing where it would end beyond these bytes.
fn behind(out: &[u8]) -> &[u8]
    requires { length_size ≤ length out.now }
    ensures { result.now ≡ drop (number_at length_size out.now 0 + length_size) out.now }
{
    let size = usize::from(num16(out, 0)) + Event::LENGTH_SIZE;
    &out[size.min(out.len())..]
}

// How many records the first `sent` bytes are.
pub fn records(out: &[u8], sent: u32) -> usize
    ensures { result ≡ records_in (take sent out.now) }
{
    let end = sent as usize;
    count(&out[..end.min(out.len())])
}

fn count(out: &[u8]) -> usize
    ensures { result ≡ records_in out.now }
{
    let mut rest = out;
    let mut n = 0;
    while Event::LENGTH_SIZE <= rest.len() {
        rest = behind(rest);
        n += 1;
    }
    n
}
