// One event of the input at the table of servers, and its line.
#![tactic(auto)]

ghost use Rattle.std.specs.Prelude.{◌≡◌, ◌+◌, ◌<◌, ◌≤◌, length};
ghost use Rattle.replay_servers.specs.Core.{table_servers};
ghost use Rattle.replay_servers.specs.Starting.{fresh_table};
ghost use Rattle.replay_servers.specs.Table.{altered};
ghost use Rattle.replay_lines.specs.Lines.{Put, line_room};
ghost use Rattle.replay_turns.specs.Turns.{shown_of, line_at, Took, turn_of};

pub mod passes; // passes.rt: turns one after another

use arrayvec::ArrayString;
use octets::numbers::{num8, num32};
use queue::history::entered_count;
use record::State;
use replay_lines::input::{Next, next_in};
use replay_lines::line::{Shown, push_refusal};
use replay_lines::setup::Setup;
use replay_servers::starting::begin;
use replay_servers::{Reply, SERVERS, STATE_ROOM, Server, dispatch};

// "Red counts held actions not green; prim is the primary index; sent counts records put out." K6: "`replay` counts white ones as green":
// those that were entered and have no slot.
fn shown_in(event: u64, server: u8, reply: Reply, b: &[u8; STATE_ROOM]) -> Shown
    ensures { result ≡ shown_of event server reply b.now }
{
    let held = num32(b, State::AT_QUEUE_LENGTH);
    let green = num32(b, State::AT_GREEN_COUNT);
    let white = entered_count(b).saturating_sub(held);
    let prim = num32(b, State::AT_LAST);
    Shown {
        number: event,
        server: u64::from(server),
        returned: u64::from(reply.number),
        mode: num8(b, State::AT_MODE),
        red: u64::from(held.saturating_sub(green)),
        green: u64::from(white) + u64::from(green),
        prim: u64::from(prim),
        sent: reply.sent as u64,
    }
}

// The event e at the server k, and its line.
fn answer<const N: usize>(
    t: &mut [Server; SERVERS],
    event: u64,
    k: u8,
    e: &[u8],
    out: &mut ArrayString<N>,
)
    requires { (k < table_servers) × (length out.old.bytes + line_room ≤ N) }
    ensures table_value { t.new ≡ altered t.old k e.now }
    ensures put { Put (line_at t.old event k e.now) line_room out.old.bytes out.new.bytes }
{
    let at = usize::from(k);
    let reply = dispatch(t, at, e);
    shown_in(event, k, reply, &t[at].state).push_line(out);
}

// What comes after a turn: the next one, more input, or nothing.
// Stays: the definitions of a pass go on, ask or stop by these three, of which neither Option nor ControlFlow says more (d).
#[derive(Clone, Copy, Drop)]
pub enum Going {
    On,
    Read,
    Stop,
}

// How many bytes of the input were taken, and what comes after them.
#[derive(Clone, Copy, Drop)]
pub struct Turn {
    pub taken: usize,
    pub going: Going,
}

// The servers, how many of the table take part, and the number of the next event.
#[derive(Clone, Copy, Drop)]
pub struct Replay {
    pub table: [Server; SERVERS],
    pub servers: u8,
    pub event: u64,
    ghost few: { servers ≤ table_servers },
}

impl Replay {
    // Every server at its start.
    pub fn new(setup: Setup) -> Replay
        ensures table { result.table ≡ fresh_table setup.servers setup.quota }
        ensures servers { result.servers ≡ setup.servers }
        ensures event { result.event ≡ 1 }
    {
        Replay {
            table: begin(setup.servers, setup.quota),
            servers: setup.servers,
            event: 1,
        }
    }

    // One event of the input, or what else comes next; the line is put behind the text.
    pub fn take_turn<const N: usize>(
        &mut self,
        input: &[u8],
        ended: bool,
        out: &mut ArrayString<N>,
    ) -> Turn
        requires { length out.old.bytes + line_room ≤ N }
        ensures took { Took (turn_of self.old.table self.old.servers self.old.event input.now ended) self.new.table result out.old.bytes out.new.bytes }
        ensures servers { self.new.servers ≡ self.old.servers }
        ensures event { self.new.event ≡ self.old.event }
    {
        match next_in(self.servers, input, ended) {
            Ok(Next::Event(size)) => {
                let event = self.event;
                answer(&mut self.table, event, input[0], &input[1..size + 1], out);
                Turn {
                    taken: size + 1,
                    going: Going::On,
                }
            }
            Ok(Next::More) => Turn {
                taken: 0,
                going: Going::Read,
            },
            Ok(Next::Done) => Turn {
                taken: 0,
                going: Going::Stop,
            },
            Err(refusal) => {
                push_refusal(out, "input", u32::from(refusal));
                Turn {
                    taken: 0,
                    going: Going::Stop,
                }
            }
        }
    }
}
