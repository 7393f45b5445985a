// The servers of one program: one event at one server, and the table of servers, of which the named one is altered.
#![tactic(auto)]

ghost use Rattle.std.specs.Prelude.{◌≡◌};
ghost use Rattle.daemons.specs.Buffers.{source_in};
ghost use Rattle.replay_servers.specs.Core.{buffers_of, entry_after, core_of, Alters};
ghost use Rattle.replay_servers.specs.Table.{altered, replied};

pub mod records; // records.rt: how many records were put out
pub mod starting; // starting.rt: the table at the start

use burst::slices::is_recovery;
use record::State;
use record::events::StateHead;
use records::records;
use refusals::Refusal;
use step::step_on;

// How many servers there are at most, and their highest quota.
pub const SERVERS: usize = 4;

pub const QUOTA: usize = 16;

const ACTIONS: usize = SERVERS * QUOTA;

const STATES: usize = SERVERS * (StateHead::SIZE + State::CUT * SERVERS + State::ID * ACTIONS);

const SLOTS: usize = State::SLOT * QUOTA + State::SLOT * ACTIONS;

// Both buffers for them, by the formulas of docs/LAYOUT.md.
pub const STATE_ROOM: usize = State::SIZE
    + State::CUT_AND_NOTED * SERVERS
    + STATES
    + State::ID * ACTIONS
    + SLOTS;

pub const OUT_ROOM: usize = 2 * State::RETRANSMISSION * ACTIONS;

// The number returned, and how many records were put out.
#[derive(Clone, Copy)]
pub struct Reply {
    pub number: u32,
    pub sent: usize,
}

// A server's state in memory and its stored state.
#[derive(Clone, Copy)]
pub struct Server {
    pub state: [u8; STATE_ROOM],
    pub store: [u8; STATE_ROOM],
}

// What an event makes of a server, and the reply.
#[derive(Clone, Copy)]
pub struct Stepped {
    pub server: Server,
    pub reply: Reply,
}

impl Server {
    // The state that the event comes to. "Recovery starts from that server's last stored image."
    pub fn source(&self, e: &[u8]) -> [u8; STATE_ROOM]
        ensures { result ≡ source_in (buffers_of self.now) e.now }
    {
        if is_recovery(e) {
            return self.store;
        }
        self.state
    }

    // With the new state, stored too where the store word is 1; as before where the event was refused.
    pub fn kept(self, state: [u8; STATE_ROOM], number: u32, store: u32) -> Server
        ensures { result ≡ entry_after self number store state }
    {
        if number != 0 {
            return self;
        }
        if store == 1 {
            return Server {
                state,
                store: state,
            };
        }
        Server { state, ..self }
    }

    // The core: one event at one server, by value.
    pub fn core(self, e: &[u8]) -> Stepped
        ensures { result ≡ core_of self e.now }
    {
        let mut state = self.source(e);
        let mut out: [u8; OUT_ROOM] = [0; OUT_ROOM];
        let a = step_on(&mut state, e, &mut out);
        Stepped {
            server: self.kept(state, a.number, a.store),
            reply: Reply {
                number: a.number,
                sent: records(&out, a.sent),
            },
        }
    }

    // One entry is lent: the core is called by value, and the new entry is stored.
    pub fn alter(&mut self, e: &[u8]) -> Reply
        ensures { Alters self.old e.now self.new result }
    {
        let stepped = self.core(e);
        *self = stepped.server;
        stepped.reply
    }
}

// The table is lent: the entry is picked by its number. One that is not there is refused.
pub fn dispatch(t: &mut [Server], k: usize, e: &[u8]) -> Reply
    ensures { (result ≡ replied t.old k e.now) × (t.new ≡ altered t.old k e.now) }
{
    if k < t.len() {
        t[k].alter(e)
    } else {
        Reply {
            number: u32::from(Refusal::OutOfRange),
            sent: 0,
        }
    }
}
