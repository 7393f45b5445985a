// The State that a server sends.
ghost use Rattle.std.specs.Prelude.{◌≡◌, ◌≤◌, length};
ghost use Rattle.image.specs.Header.{header_in};
ghost use Rattle.image.specs.Decode.{greens_in};
ghost use Rattle.queue.specs.Queue.{QueueIn};
ghost use Rattle.outgoing.specs.Lent.{LentSuch};
ghost use Rattle.outgoing.specs.Sending.{own_head, PutsOwn};

use image::header::load;
use image::places::{Section, place_of};
use queue::history::green_length;
use record::State;
use record::events::StateHead;
use writer::records::write_state;

// The numbers of the State that a server with the numbers h and a green history of this length sends in this configuration.
fn own_head(h: State, green_length: u32, id: u32) -> StateHead
    ensures { result ≡ own_head h green_length id }
{
    let attempt = h.attempt;
    let last = h.last;
    let mark = h.mark;
    StateHead {
        sender: h.me,
        configuration: id,
        servers: h.servers,
        green_length,
        attempt,
        last,
        mark,
        yellow_status: h.yellow_status,
        yellow_count: h.yellow_count,
    }
}

// The same, from the state's buffer.
fn own_numbers(state: &[u8], id: u32) -> StateHead
    requires { QueueIn state.now }
    ensures { result ≡ own_head (header_in state.now) (length (greens_in state.now)) id }
{
    let h = load(state);
    own_head(h, green_length(state), id)
}

// The server's State, at the front of the outgoing buffer; how many bytes it has.
pub fn send_state(state: &[u8], out: &mut [u8], id: u32) -> u32
    requires { LentSuch (λ s. 0 ≤ 0) state.now out.old }
    ensures { PutsOwn id result state.now out.old out.new }
{
    let head = own_numbers(state, id);
    let at = place_of(state, Section::Yellow);
    let size = write_state(out, head, &state[State::SIZE..], &state[at..]);
    size.unwrap_or(0) as u32
}
