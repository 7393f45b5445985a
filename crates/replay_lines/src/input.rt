// The input: the set-up record, then server byte and event, repeated.
ghost use Rattle.std.specs.Prelude.{◌≡◌, ◌≤◌, true, length};
ghost use Rattle.format.specs.Places.{setup_size};
ghost use Rattle.format.specs.Setup.{setup_frame_ok, setup_ok, read_setup};
ghost use Rattle.replay_servers.specs.Core.{table_servers, table_quota};
ghost use Rattle.replay_lines.specs.Input.{meaning, cut_short, next_of};

use crate::setup::Setup;
use octets::numbers::{num8, num16};
use record::events::{Event, VERSION};
use record::range::sizes_ok;
use refusals::Refusal;
use replay_servers::{QUOTA, SERVERS};

pub const MOST_SERVERS: u8 = SERVERS as u8;

pub const MOST_QUOTA: u16 = QUOTA as u16;

impl Setup {
    const KIND: u8 = 9;

    const AT_SERVERS: usize = Event::BODY;

    const AT_QUOTA: usize = Setup::AT_SERVERS + 1;

    pub const SIZE: usize = Setup::AT_QUOTA + 2;

    // What its length bytes say.
    const FOLLOWING: u16 = (Setup::SIZE - Event::LENGTH_SIZE) as u16;

    fn is_framed(e: &[u8]) -> bool
        ensures frame { result ≡ setup_frame_ok e.now }
        ensures long { result ≡ true → length e.now ≡ setup_size }
    {
        e.len() == Setup::SIZE
            && num16(e, 0) == Setup::FOLLOWING
            && num8(e, Event::VERSION_AT) == VERSION
            && num8(e, Event::KIND_AT) == Setup::KIND
    }

    // "It takes n to 4 and q to 16".
    fn is_in_range(servers: u8, quota: u16) -> bool
        ensures { result ≡ setup_ok table_servers table_quota (record { servers = servers; quota = quota }) }
    {
        sizes_ok(u32::from(servers), u32::from(quota))
            && servers <= MOST_SERVERS
            && quota <= MOST_QUOTA
    }

    pub fn read(e: &[u8]) -> Result<Setup, Refusal>
        ensures { meaning result ≡ read_setup table_servers table_quota e.now }
    {
        if !Setup::is_framed(e) {
            return Err(Refusal::BadRecord);
        }
        let servers = num8(e, Setup::AT_SERVERS);
        let quota = num16(e, Setup::AT_QUOTA);
        if !Setup::is_in_range(servers, quota) {
            return Err(Refusal::OutOfRange);
        }
        Ok(Setup { servers, quota })
    }
}

// What comes next: an event of so many bytes behind its server byte; what is there is not yet a whole event; the input's end.
#[derive(Clone, Copy, Drop)]
pub enum Next {
    Event(usize),
    More,
    Done,
}

// "an event cut short by the input's end"
fn cut_short(ended: bool) -> Result<Next, Refusal>
    ensures { result ≡ cut_short ended }
{
    if ended {
        Err(Refusal::BadRecord)
    } else {
        Ok(Next::More)
    }
}

// A server byte and an event's length bytes.
const FRONT: usize = 1 + Event::LENGTH_SIZE;

// What comes next, of n servers, or why the input is wrong; whether the input has ended with these bytes.
pub fn next_in(servers: u8, input: &[u8], ended: bool) -> Result<Next, Refusal>
    ensures { result ≡ next_of servers input.now ended }
{
    if input.len() < 1 {
        return Ok(if ended { Next::Done } else { Next::More });
    }
    if servers <= input[0] {
        return Err(Refusal::OutOfRange);
    }
    if input.len() < FRONT {
        return cut_short(ended);
    }
    let size = usize::from(num16(input, 1)) + Event::LENGTH_SIZE;
    if input.len() - 1 < size {
        return cut_short(ended);
    }
    Ok(Next::Event(size))
}
