// What comes next in a slice of events one behind another.
ghost use Rattle.std.specs.Prelude.{◌≡◌};
ghost use Rattle.daemons.specs.Buffers.{is_recovery};
ghost use Rattle.burst.specs.Burst.{cut_short, next_of, EndsIn};
ghost use Rattle.burst.specs.Next.{next_as};

use octets::numbers::num16;
use record::Kind;
use record::events::{Event, VERSION};
use refusals::Refusal;

// "one cut short by the slice's end"
fn cut_short(first: bool) -> Result<Option<usize>, Refusal>
    ensures { next_as result ≡ cut_short first }
{
    if first {
        Err(Refusal::BadRecord)
    } else {
        Ok(None)
    }
}

// What a record with no body has in its low length byte.
const NO_BODY: u8 = (Event::BODY - Event::LENGTH_SIZE) as u8;

// The event is the recovery's record.
pub fn is_recovery(e: &[u8]) -> bool
    ensures { result ≡ is_recovery e.now }
{
    if e.len() != Event::BODY {
        return false;
    }
    if e[0] != 0 {
        return false;
    }
    if e[1] != NO_BODY {
        return false;
    }
    if e[Event::VERSION_AT] != VERSION {
        return false;
    }
    e[Event::KIND_AT] == u8::from(Kind::Recovery)
}

// The size of the event that comes next in the slice, if one that may be taken does; whether it would stand first.
pub fn next_in(e: &[u8], first: bool) -> Result<Option<usize>, Refusal>
    ensures value { next_as result ≡ next_of first e.now }
    ensures ends_in { EndsIn (next_as result) e.now }
{
    if e.len() < 1 {
        return Ok(None);
    }
    if e.len() < Event::LENGTH_SIZE {
        return cut_short(first);
    }
    let size = num16(e, 0) as usize + Event::LENGTH_SIZE;
    if e.len() < size {
        return cut_short(first);
    }
    if first {
        return Ok(Some(size));
    }
    if is_recovery(&e[..size]) {
        return Ok(None);
    }
    Ok(Some(size))
}
