// Records: the types that the reader, the writers and the engine share, and document 01's limits.
#![tactic(auto)]

ghost use Rattle.std.specs.Prelude.{◌≡◌, ◌≤◌};
ghost use Rattle.format.specs.Limits.{most_servers_limit};
ghost use Rattle.record.specs.Context.{reading_context};
ghost use Rattle.format.specs.Types.{first_primary};
ghost use Rattle.record.specs.Start.{start_of};
ghost use Rattle.record.specs.Values.{id_in_head, last_of};

pub mod sets; // sets.rt: sets of servers
pub mod range; // range.rt: which numbers and sets are in range
pub mod lists; // lists.rt: lists of ids in bytes
pub mod events; // events.rt: an event that was read
pub mod parts; // parts.rt: parts of a record, read where they lie
pub mod modes; // modes.rt: the eight states, and their bytes
pub mod kinds; // kinds.rt: the kinds of records, and their bytes

use events::Event;
pub use kinds::Kind;
pub use modes::Mode;
use sets::everyone;

// The index of a primary component, and that of an attempt to create one: neither stands for the other.
#[derive(Clone, Copy, Debug, PartialEq, Eq)]
pub struct PrimaryIndex(pub u32);

#[derive(Clone, Copy, Debug, PartialEq, Eq)]
pub struct AttemptIndex(pub u32);

// The last primary component that a server knows of.
#[derive(Clone, Copy, Debug, PartialEq, Eq)]
pub struct LastPrimary {
    pub index: PrimaryIndex,
    pub attempt: AttemptIndex,
    pub set: u8,
}

// Where its parts lie from its beginning on, and how many bytes it is written in.
impl LastPrimary {
    pub const ATTEMPT: usize = 4;

    pub const SET: usize = LastPrimary::ATTEMPT + 4;

    pub const SIZE: usize = LastPrimary::SET + 1;

    // The one with these members that no Install made.
    #[tactic(auto, unfolding(crate::specs::Values::last_of))]
    pub fn first(set: u8) -> LastPrimary
        ensures { result ≡ last_of (first_primary set) }
    {
        LastPrimary {
            index: PrimaryIndex(0),
            attempt: AttemptIndex(0),
            set,
        }
    }
}

// What a server stores of the primary component that it attempts to create.
// Stays: a record's status may be any byte (only 0 and 1 are in range), and its other numbers are read and kept whatever it is.
#[derive(Clone, Copy, Debug, PartialEq, Eq)]
pub struct Mark {
    pub status: u8,
    pub index: PrimaryIndex,
    pub attempt: AttemptIndex,
    pub set: u8,
    pub bits: u8,
}

impl Mark {
    pub const INDEX: usize = 1;

    pub const ATTEMPT: usize = Mark::INDEX + 4;

    pub const SET: usize = Mark::ATTEMPT + 4;

    pub const BITS: usize = Mark::SET + 1;

    pub const SIZE: usize = Mark::BITS + 1;
}

// The name of an action: which server created it, and the how many-th of that server it is.
#[derive(Clone, Copy, Debug, PartialEq, Eq)]
pub struct ActionId {
    pub creator: u8,
    pub index: u16,
}

// An action but its payload.
#[derive(Clone, Copy, Debug, PartialEq, Eq)]
pub struct ActionHead {
    pub creator: u8,
    pub index: u16,
    pub green_length: u32,
    pub white_length: u32,
}

impl ActionHead {
    pub fn id(self) -> ActionId
        ensures { result ≡ id_in_head self }
    {
        ActionId {
            creator: self.creator,
            index: self.index,
        }
    }

    // Where the index lies in an id; then the creator's green and white length and the payload's length in an action.
    pub const INDEX: usize = 1;

    pub const GREEN_LENGTH: usize = State::ID;

    pub const WHITE_LENGTH: usize = ActionHead::GREEN_LENGTH + 4;

    pub const PAYLOAD: usize = ActionHead::WHITE_LENGTH + 4;

    // With the payload's length.
    pub const SIZE: usize = ActionHead::PAYLOAD + 1;
}

// What a record is read against. `configured` is 0 where there was no regular configuration since the start or the last
// recovery; `set` is then not looked at.
// Stays: no plainer as an Option, since both are bytes of the image and `last_of` names what they say.
#[derive(Clone, Copy)]
pub struct Context {
    pub servers: u8,
    pub quota: u16,
    pub me: u8,
    pub configured: u8,
    pub set: u8,
}

// The numbers of a server's state, in the order of its buffer. Its lists lie beside them. The queue holds what is not white: `green_count` is how
// many of its first actions are green.
// Stays: the image's layout (docs/LAYOUT.md) has statuses and the mode as bytes, and a damaged image may have any byte there.
#[derive(Clone, Copy)]
pub struct State {
    pub layout: u8,
    pub servers: u8,
    pub quota: u16,
    pub me: u8,
    pub mode: u8,
    pub configuration_status: u8,
    pub configuration_id: u32,
    pub configuration_set: u8,
    pub transitional_status: u8,
    pub transitional_set: u8,
    pub states: u8,
    pub cpcs: u8,
    pub come: u32,
    pub queue_length: u32,
    pub green_count: u32,
    pub numbered: u16,
    pub own_count: u16,
    pub sent: u16,
    pub attempt: AttemptIndex,
    pub last: LastPrimary,
    pub mark: Mark,
    pub yellow_status: u8,
    pub yellow_count: u16,
}

// "The starting state and these limits belong to the state's own kind": each limit is named here and nowhere else.
impl State {
    pub const FEWEST_SERVERS: u8 = 2;

    pub const MOST_SERVERS: u8 = 8;

    pub const LEAST_QUOTA: u16 = 1;

    pub const MOST_QUOTA: u16 = 256;

    pub const MOST_PAYLOAD: usize = 48;

    pub const MOST_INDEX: u32 = 4_000_000_000;

    // Indexes of actions and cuts run to the first, positions and lengths to the second.
    pub const MOST_NUMBER: u16 = 65_535;

    pub const MOST_LENGTH: u32 = State::MOST_SERVERS as u32 * State::MOST_NUMBER as u32;

    // The numbers of the eight states, as a state's byte has them (`Mode`'s own order).
    pub const NON_PRIM: u8 = 0;

    pub const REG_PRIM: u8 = 1;

    pub const TRANS_PRIM: u8 = 2;

    pub const EXCHANGE_STATES: u8 = 3;

    pub const EXCHANGE_ACTIONS: u8 = 4;

    pub const CONSTRUCT: u8 = 5;

    pub const NO: u8 = 6;

    pub const UN: u8 = 7;

    // The number of this layout, with which every image begins: no number of servers, with which those of the first layout began.
    pub const LAYOUT: u8 = State::MOST_SERVERS + 3;

    // Where each number begins in the state's buffer, behind the one before it (docs/LAYOUT.md).
    pub const AT_LAYOUT: usize = 0;

    pub const AT_SERVERS: usize = State::AT_LAYOUT + 1;

    pub const AT_QUOTA: usize = State::AT_SERVERS + 1;

    pub const AT_ME: usize = State::AT_QUOTA + 2;

    pub const AT_MODE: usize = State::AT_ME + 1;

    pub const AT_CONFIGURATION: usize = State::AT_MODE + 1;

    pub const AT_CONFIGURATION_ID: usize = State::AT_CONFIGURATION + 1;

    pub const AT_CONFIGURATION_SET: usize = State::AT_CONFIGURATION_ID + 4;

    pub const AT_TRANSITIONAL: usize = State::AT_CONFIGURATION_SET + 1;

    pub const AT_TRANSITIONAL_SET: usize = State::AT_TRANSITIONAL + 1;

    pub const AT_STATES: usize = State::AT_TRANSITIONAL_SET + 1;

    pub const AT_CPCS: usize = State::AT_STATES + 1;

    pub const AT_COME: usize = State::AT_CPCS + 1;

    pub const AT_QUEUE_LENGTH: usize = State::AT_COME + 4;

    pub const AT_GREEN_COUNT: usize = State::AT_QUEUE_LENGTH + 4;

    pub const AT_NUMBERED: usize = State::AT_GREEN_COUNT + 4;

    pub const AT_OWN_COUNT: usize = State::AT_NUMBERED + 2;

    pub const AT_SENT: usize = State::AT_OWN_COUNT + 2;

    pub const AT_ATTEMPT: usize = State::AT_SENT + 2;

    pub const AT_LAST: usize = State::AT_ATTEMPT + 4;

    pub const AT_MARK: usize = State::AT_LAST + LastPrimary::SIZE;

    pub const AT_YELLOW: usize = State::AT_MARK + Mark::SIZE;

    pub const AT_YELLOW_COUNT: usize = State::AT_YELLOW + 1;

    // All of them together.
    pub const SIZE: usize = State::AT_YELLOW_COUNT + 2;

    // An action on the own list or in the queue, filled up with zeros.
    pub const SLOT: usize = ActionHead::SIZE + State::MOST_PAYLOAD;

    // The longest retransmission.
    pub const RETRANSMISSION: usize = Event::RETRANSMISSION_SIZE + State::MOST_PAYLOAD;

    // A creator's cut; a noted green length; both.
    pub const CUT: usize = 2;

    pub const NOTED: usize = 4;

    pub const CUT_AND_NOTED: usize = State::CUT + State::NOTED;

    // An id, and how many a yellow list can have.
    pub const ID: usize = ActionHead::INDEX + 2;

    pub const MOST_IDS: usize = State::MOST_SERVERS as usize * State::MOST_QUOTA as usize;

    // Those of two, three and four servers.
    pub const IDS_OF_2: usize = 2 * State::MOST_QUOTA as usize;

    pub const IDS_OF_3: usize = 3 * State::MOST_QUOTA as usize;

    pub const IDS_OF_4: usize = 4 * State::MOST_QUOTA as usize;

    // The bytes of so many.
    pub const IDS: usize = State::ID * State::MOST_IDS;

    // "At the start: Non_prim, no configuration, nothing held or marked, yellow invalid, attempt 0, last primary (index 0,
    // attempt 0, all servers)."
    #[tactic(auto, unfolding(crate::specs::Start::start_of))]
    pub fn start(servers: u8, quota: u16, me: u8) -> State
        requires { servers ≤ most_servers_limit }
        ensures { result ≡ start_of servers quota me }
    {
        let last = LastPrimary::first(everyone(servers));
        let mark = Mark {
            status: 0,
            index: PrimaryIndex(0),
            attempt: AttemptIndex(0),
            set: 0,
            bits: 0,
        };
        State {
            layout: State::LAYOUT,
            servers,
            quota,
            me,
            mode: State::NON_PRIM,
            configuration_status: 0,
            configuration_id: 0,
            configuration_set: 0,
            transitional_status: 0,
            transitional_set: 0,
            states: 0,
            cpcs: 0,
            come: 0,
            queue_length: 0,
            green_count: 0,
            numbered: 0,
            own_count: 0,
            sent: 0,
            attempt: AttemptIndex(0),
            last,
            mark,
            yellow_status: 0,
            yellow_count: 0,
        }
    }

    // What an event that comes in this state is read against.
    #[tactic(auto, unfolding(crate::specs::Context::reading_context))]
    pub fn context(self) -> Context
        ensures { result ≡ reading_context self }
    {
        Context {
            servers: self.servers,
            quota: self.quota,
            me: self.me,
            configured: self.configuration_status,
            set: self.configuration_set,
        }
    }
}
