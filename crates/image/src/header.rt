// The state's numbers, in the first section of its buffer.
ghost use Rattle.std.specs.Prelude.{◌≡◌, true, ◌≤◌, length};
ghost use Rattle.base.specs.Patched.{patched};
ghost use Rattle.replication.specs.Machine.Types.{Server};
ghost use Rattle.replication.specs.Machine.Requests.{waiting};
ghost use Rattle.replication.specs.Machine.WellFormed.{well_formed};
ghost use Rattle.image.specs.Header.{header_of, header_in, membership_bytes, counts_bytes, header_written};
ghost use Rattle.image.specs.Layout.{header_size, at_queue_length};

use octets::blocks::copy;
use octets::numbers::{num8, num16, num32};
use record::parts::{last_at, mark_at};
use record::{AttemptIndex, State};
use writer::parts::{put_mark, put_primary, put_yellow_head};

// The state's numbers at the front of its buffer.
pub fn load(state: &[u8]) -> State
    requires { header_size ≤ length state.now }
    ensures { result ≡ header_in state.now }
{
    State {
        layout: num8(state, State::AT_LAYOUT),
        servers: num8(state, State::AT_SERVERS),
        quota: num16(state, State::AT_QUOTA),
        me: num8(state, State::AT_ME),
        mode: num8(state, State::AT_MODE),
        configuration_status: num8(state, State::AT_CONFIGURATION),
        configuration_id: num32(state, State::AT_CONFIGURATION_ID),
        configuration_set: num8(state, State::AT_CONFIGURATION_SET),
        transitional_status: num8(state, State::AT_TRANSITIONAL),
        transitional_set: num8(state, State::AT_TRANSITIONAL_SET),
        states: num8(state, State::AT_STATES),
        cpcs: num8(state, State::AT_CPCS),
        come: num32(state, State::AT_COME),
        queue_length: num32(state, State::AT_QUEUE_LENGTH),
        green_count: num32(state, State::AT_GREEN_COUNT),
        numbered: num16(state, State::AT_NUMBERED),
        own_count: num16(state, State::AT_OWN_COUNT),
        sent: num16(state, State::AT_SENT),
        attempt: AttemptIndex(num32(state, State::AT_ATTEMPT)),
        last: last_at(state, State::AT_LAST),
        mark: mark_at(state, State::AT_MARK),
        yellow_status: num8(state, State::AT_YELLOW),
        yellow_count: num16(state, State::AT_YELLOW_COUNT),
    }
}

// How many own actions wait to be sent: of the last ones numbered, those that are on the own list.
pub fn unsent(h: State) -> u16
    requires { h.sent ≤ h.numbered }
    ensures { (s : Server) → well_formed s ≡ true → h ≡ header_of s → result ≡ length (waiting s.log) }
{
    h.own_count.min(h.numbered - h.sent)
}

fn save_membership(state: &mut [u8], h: State)
    requires { header_size ≤ length state.old }
    ensures { state.new ≡ patched 0 (membership_bytes h) state.old }
{
    let quota = h.quota.to_be_bytes();
    let id = h.configuration_id.to_be_bytes();
    let come = h.come.to_be_bytes();
    let b: [u8; State::AT_QUEUE_LENGTH] = [
        h.layout,
        h.servers,
        quota[0],
        quota[1],
        h.me,
        h.mode,
        h.configuration_status,
        id[0],
        id[1],
        id[2],
        id[3],
        h.configuration_set,
        h.transitional_status,
        h.transitional_set,
        h.states,
        h.cpcs,
        come[0],
        come[1],
        come[2],
        come[3],
    ];
    copy(state, 0, &b);
}

// Counts, and the attempt.
fn save_counts(state: &mut [u8], h: State)
    requires { header_size ≤ length state.old }
    ensures { state.new ≡ patched at_queue_length (counts_bytes h) state.old }
{
    let queue = h.queue_length.to_be_bytes();
    let green = h.green_count.to_be_bytes();
    let numbered = h.numbered.to_be_bytes();
    let own = h.own_count.to_be_bytes();
    let sent = h.sent.to_be_bytes();
    let attempt = h.attempt.0.to_be_bytes();
    let b: [u8; State::AT_LAST - State::AT_QUEUE_LENGTH] = [
        queue[0],
        queue[1],
        queue[2],
        queue[3],
        green[0],
        green[1],
        green[2],
        green[3],
        numbered[0],
        numbered[1],
        own[0],
        own[1],
        sent[0],
        sent[1],
        attempt[0],
        attempt[1],
        attempt[2],
        attempt[3],
    ];
    copy(state, State::AT_QUEUE_LENGTH, &b);
}

// Writes the state's numbers at the front of its buffer.
pub fn save(state: &mut [u8], h: State)
    requires { header_size ≤ length state.old }
    ensures { state.new ≡ patched 0 (header_written h) state.old }
{
    save_membership(state, h);
    save_counts(state, h);
    put_primary(state, State::AT_LAST, h.last);
    put_mark(state, State::AT_MARK, h.mark);
    put_yellow_head(state, State::AT_YELLOW, h.yellow_status, h.yellow_count);
}
