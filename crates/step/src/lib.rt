// One event at one server, over the lent buffers.
#![tactic(auto)]

ghost use Rattle.std.specs.Prelude.{◌≡◌};
ghost use Rattle.image.specs.Outcome.{step_on};
ghost use Rattle.step.specs.Answers.{answered, answer_of, taken_answer, quietly, stored_first, sent_only};

pub mod colours; // colours.rt: actions that a state colours
pub mod requests; // requests.rt: requests numbered, and sent
pub mod joining; // joining.rt: regular configurations
pub mod installing; // installing.rt: Install
pub mod exchanging; // exchanging.rt: States and retransmissions, and the end of an exchange
pub mod sieve; // sieve.rt: what is taken before an action is entered
pub mod events; // events.rt: each kind of event
pub mod taking; // taking.rt: an event as it comes, and the raise behind it
pub mod meeting; // meeting.rt: what an action meets in Un

use refusals::Refusal;
use state_check::check_buffers;
use taking::step;

// What C is answered: the number returned, the store word (1: store first), and how many bytes of records the outgoing buffer begins with.
#[repr(C)]
#[derive(Clone, Copy)]
pub struct Answer {
    pub number: u32,
    pub store: u32,
    pub sent: u32,
}

impl Answer {
    // 0 where the event is taken, and otherwise "all as before".
    pub fn of(outcome: Result<Taken, Refusal>) -> Answer
        ensures { result ≡ answer_of outcome }
    {
        match outcome {
            Ok(taken) => Answer {
                number: 0,
                store: u32::from(taken.store),
                sent: taken.sent,
            },
            Err(refusal) => Answer {
                number: u32::from(refusal),
                store: 0,
                sent: 0,
            },
        }
    }
}

// An event that is taken: whether the state is stored first, and how many bytes of records the outgoing buffer begins with.
#[derive(Clone, Copy)]
pub struct Taken {
    pub store: bool,
    pub sent: u32,
}

impl Taken {
    // Nothing stored, nothing sent.
    pub fn quiet() -> Taken
        ensures { taken_answer result ≡ quietly }
    {
        Taken {
            store: false,
            sent: 0,
        }
    }

    // "stored first"
    pub fn stored(sent: u32) -> Taken
        ensures { taken_answer result ≡ stored_first sent }
    {
        Taken { store: true, sent }
    }

    // Sent with nothing stored.
    pub fn sent(sent: u32) -> Taken
        ensures { taken_answer result ≡ sent_only sent }
    {
        Taken { store: false, sent }
    }
}

// An event that is taken, and whether the raise of the white length is due behind it.
#[derive(Clone, Copy)]
pub struct Act {
    pub taken: Taken,
    pub raises: bool,
}

// The buffers are checked first, and then the event.
fn checked_step(state: &mut [u8], event: &[u8], out: &mut [u8]) -> Result<Taken, Refusal>
    ensures { answered (answer_of result) state.new out.new ≡ step_on state.old event.now out.old }
{
    check_buffers(state, out)?;
    step(state, event, out)
}

// One event at one server: the state's own number first, then the event.
pub fn step_on(state: &mut [u8], event: &[u8], out: &mut [u8]) -> Answer
    ensures { answered result state.new out.new ≡ step_on state.old event.now out.old }
{
    Answer::of(checked_step(state, event, out))
}
