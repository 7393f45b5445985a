// An event that was read: its numbers, and where its lists lie in its bytes.
use crate::{ActionHead, AttemptIndex, LastPrimary, Mark};

// A record's version byte.
pub const VERSION: u8 = 2;

// An action. Its payload is the `payload_length` bytes from `payload_at` on.
#[derive(Clone, Copy)]
pub struct ActionAt {
    pub head: ActionHead,
    pub payload_at: usize,
    pub payload_length: usize,
}

// A State but its cuts and its yellow ids; how many there are of each.
#[derive(Clone, Copy)]
pub struct StateHead {
    pub sender: u8,
    pub configuration: u32,
    pub servers: u8,
    pub green_length: u32,
    pub attempt: AttemptIndex,
    pub last: LastPrimary,
    pub mark: Mark,
    pub yellow_status: u8,
    pub yellow_count: u16,
}

impl StateHead {
    // Where a State's cuts begin in its record: sender and configuration id stand before them.
    pub const CUTS: usize = Event::SENDER + 1 + 4;

    // What stands behind the cuts, each from their end on: green length, attempt, last primary, mark, and the yellow list's status and count.
    pub const ATTEMPT: usize = 4;

    pub const LAST: usize = StateHead::ATTEMPT + 4;

    pub const MARK: usize = StateHead::LAST + LastPrimary::SIZE;

    pub const YELLOW: usize = StateHead::MARK + Mark::SIZE;

    pub const YELLOW_COUNT: usize = StateHead::YELLOW + 1;

    pub const STANDING: usize = StateHead::YELLOW_COUNT + 2;

    // A State with no cuts and no ids, and where the yellow list's count is in it.
    pub const SIZE: usize = StateHead::CUTS + StateHead::STANDING;

    pub const COUNT: usize = StateHead::CUTS + StateHead::YELLOW_COUNT;
}

// A State. Its cuts, two bytes for each server, begin at `cuts_at`, and its yellow ids, three bytes each, at `yellow_at`.
#[derive(Clone, Copy)]
pub struct StateAt {
    pub head: StateHead,
    pub cuts_at: usize,
    pub yellow_at: usize,
}

#[derive(Clone, Copy)]
pub enum Event {
    Action(ActionAt),
    Retransmission {
        sender: u8,
        position: u32,
        action: ActionAt,
    },
    State(StateAt),
    Cpc {
        sender: u8,
        configuration: u32,
    },
    Regular {
        configuration: u32,
        set: u8,
    },
    Transitional {
        set: u8,
    },
    Request {
        payload_at: usize,
        payload_length: usize,
    },
    Recovery,
}

// Where the parts of a record lie: two length bytes, the version, the kind, the body. A body of a retransmission, a State or a CPC begins with the
// sender and a number; a retransmission's action stands behind them.
impl Event {
    pub const LENGTH_SIZE: usize = 2;

    pub const VERSION_AT: usize = Event::LENGTH_SIZE;

    pub const KIND_AT: usize = Event::VERSION_AT + 1;

    pub const BODY: usize = Event::KIND_AT + 1;

    pub const SENDER: usize = Event::BODY;

    pub const NUMBER: usize = Event::SENDER + 1;

    pub const RESENT: usize = Event::NUMBER + 4;

    // Where the set lies in a regular configuration: behind its id.
    pub const REGULAR_SET: usize = Event::BODY + 4;

    // Where the payload's length lies in an action, and in a retransmission.
    pub const PAYLOAD: usize = Event::BODY + ActionHead::PAYLOAD;

    pub const RESENT_PAYLOAD: usize = Event::RESENT + ActionHead::PAYLOAD;

    // How many bytes a record of each kind has, but payload, cuts and ids.
    pub const ACTION_SIZE: usize = Event::BODY + ActionHead::SIZE;

    pub const RETRANSMISSION_SIZE: usize = Event::RESENT + ActionHead::SIZE;

    pub const CPC_SIZE: usize = Event::NUMBER + 4;

    pub const REGULAR_SIZE: usize = Event::REGULAR_SET + 1;

    pub const TRANSITIONAL_SIZE: usize = Event::BODY + 1;

    pub const REQUEST_SIZE: usize = Event::BODY + 1;

    pub const RECOVERY_SIZE: usize = Event::BODY;
}
