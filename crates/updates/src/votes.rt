// The mark, and the yellow list's status and count.
ghost use Rattle.std.specs.Prelude.{◌≡◌, ◌≤◌, length};
ghost use Rattle.replication.specs.Machine.Types.{Votes, Server, with_votes};
ghost use Rattle.replication.specs.Machine.Step.{unmarked, yellow_valid};
ghost use Rattle.image.specs.Header.{header_of};
ghost use Rattle.image.specs.Holding.{Becomes};
ghost use Rattle.updates.specs.Lists.{YellowRoom};
ghost use Rattle.updates.specs.Standing.{vote_numbers, BecomesVoted};
ghost use Rattle.image.specs.Layout.{header_size};

use crate::numbers::change;
use image::header::{load, save};
use image::places::{Section, place_of};
use octets::blocks::copy;
use record::{AttemptIndex, LastPrimary, Mark, PrimaryIndex, State};

// The numbers of votes; the yellow ids lie beside them.
#[derive(Clone, Copy)]
pub struct VoteNumbers {
    pub last: LastPrimary,
    pub attempt: AttemptIndex,
    pub mark: Mark,
    pub yellow_status: u8,
    pub yellow_count: u16,
}

// "clears the mark"
pub fn clear_mark(state: &mut [u8])
    requires { header_size ≤ length state.old }
    ensures { Becomes (λ s. with_votes (unmarked s.votes) s) state.old state.new }
{
    let none = Mark {
        status: 0,
        index: PrimaryIndex(0),
        attempt: AttemptIndex(0),
        set: 0,
        bits: 0,
    };
    change(state, |h| State { mark: none, ..h });
}

// "makes yellow valid"
pub fn make_yellow_valid(state: &mut [u8])
    requires { header_size ≤ length state.old }
    ensures { Becomes (λ s. with_votes (yellow_valid s.votes) s) state.old state.new }
{
    change(
        state,
        |h| State {
            yellow_status: 1,
            ..h
        },
    );
}

fn with_votes(h: State, v: VoteNumbers) -> State
    ensures { (s : Server) (w : Votes) → h ≡ header_of s → v ≡ vote_numbers w → result ≡ header_of (with_votes w s) }
{
    State {
        last: v.last,
        attempt: v.attempt,
        mark: v.mark,
        yellow_status: v.yellow_status,
        yellow_count: v.yellow_count,
        ..h
    }
}

// Other votes: their numbers, and the bytes of the yellow ids.
// Stays: (d) written by load and save, since the yellow ids change too, of which `change` says nothing.
pub fn take_votes(state: &mut [u8], v: VoteNumbers, ids: &[u8])
    requires { YellowRoom ids.now state.old }
    ensures { BecomesVoted v ids.now state.old state.new }
{
    let h = load(state);
    let t = with_votes(h, v);
    let at = place_of(state, Section::Yellow);
    copy(state, at, ids);
    save(state, t);
}
