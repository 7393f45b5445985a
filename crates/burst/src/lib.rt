// Events one behind another in one slice, over the lent buffers: the state is checked once.
#![tactic(auto)]

ghost use Rattle.std.specs.Prelude.{◌≡◌};
ghost use Rattle.base.specs.Tests.{◌and◌, ◌=?◌};
ghost use Rattle.image.specs.Outcome.{state_number};
ghost use Rattle.step.specs.Answers.{taken_answer};
ghost use Rattle.burst.specs.Burst.{burst_all, burst_on, stopped_behind, left};
ghost use Rattle.burst.specs.Steps.{BurstIsSteps};
ghost use Rattle.burst.specs.Claim.{BurstsFollow, BurstsAgree};

pub mod slices; // slices.rt: what comes next in a slice

use slices::next_in;
use state_check::check_buffers;
use step::Taken;
use step::taking::step;

// The number of the event that the burst stopped at (0: none was refused), the store word of the last event taken and how many bytes of its records
// the outgoing buffer begins with, and how many events and bytes were taken.
#[repr(C)]
#[derive(Clone, Copy)]
pub struct BurstAnswer {
    pub number: u32,
    pub store: u32,
    pub sent: u32,
    pub events: usize,
    pub bytes: usize,
}

impl BurstAnswer {
    // Stopped at an event of this number, or with 0, behind so many events and bytes that have stored and put out nothing.
    fn stopped(number: u32, events: usize, bytes: usize) -> BurstAnswer
        ensures { result ≡ stopped_behind number events bytes }
    {
        BurstAnswer {
            number,
            store: 0,
            sent: 0,
            events,
            bytes,
        }
    }
}

// Stored nothing and put out nothing.
fn is_silent(t: Taken) -> bool
    ensures { result ≡ ((taken_answer t).store =? 0 and (taken_answer t).sent =? 0) }
{
    !t.store && t.sent == 0
}

// Over buffers whose number is 0: they stay such, so that no step checks them anew.
pub fn take_events(state: &mut [u8], events: &[u8], out: &mut [u8]) -> BurstAnswer
    requires { state_number state.old out.old ≡ 0 }
    ensures { left result state.new out.new ≡ burst_all state.old events.now out.old }
{
    let mut taken = 0;
    let mut at = 0;
    loop {
        let size = match next_in(&events[at..], taken == 0) {
            Ok(Some(size)) => size,
            Ok(None) => return BurstAnswer::stopped(0, taken, at),
            Err(refusal) => return BurstAnswer::stopped(u32::from(refusal), taken, at),
        };
        let end = at + size;
        let t = match step(state, &events[at..end], out) {
            Ok(t) => t,
            Err(refusal) => return BurstAnswer::stopped(u32::from(refusal), taken, at),
        };
        taken += 1;
        at = end;
        if !is_silent(t) {
            return BurstAnswer {
                number: 0,
                store: t.store as u32,
                sent: t.sent,
                events: taken,
                bytes: at,
            };
        }
    }
}

// Many events at one server: the state's own number first, then the events in their order.
pub fn burst(state: &mut [u8], events: &[u8], out: &mut [u8]) -> BurstAnswer
    ensures { left result state.new out.new ≡ burst_on state.old events.now out.old }
{
    match check_buffers(state, out) {
        Ok(()) => take_events(state, events, out),
        Err(refusal) => BurstAnswer::stopped(u32::from(refusal), 0, 0),
    }
}

// A burst is its single steps one after another. It does nothing: its contract is the theorem.
pub fn burst_is_steps()
    ensures { BurstIsSteps }
{}

// Daemons that take several waiting events by one burst keep, before every call, what daemons keep that take each event of the same run by the step.
pub fn bursts_follow()
    ensures { BurstsFollow }
{}

// So in every allowed run the green lists, white part included, and the primaries read from their buffers agree, and what they send is what the run
// says.
pub fn bursts_agree()
    ensures { BurstsAgree }
{}
