// Events at one server that keeps a register, over the lent buffers: the engine's step, and every action that it turns green applied in order.
#![tactic(auto)]

ghost use Rattle.std.specs.Prelude.{◌≡◌, ◌≤◌, length, IfOk};
ghost use Rattle.register_runs.specs.Joint.{joint_number};
ghost use Rattle.refusals.specs.Numbers.{outcome_number};
ghost use Rattle.register_step.specs.Answers.{refused_with, answer_of, AnswersJointly, AllRead};
ghost use Rattle.register_step.specs.Burst.{refused_burst, CanFollow, followed, is_last, AnswersFirst, AnswersNext, AnswersAll};
ghost use Rattle.register_step.specs.Claim.{JointBurstsFollow, JointBurstsAgree};

pub mod carrying; // carrying.rt: green actions applied to the register

use burst::slices::next_in;
use carrying::{carry, carry_met};
use queue::history::green_length;
use refusals::Refusal;
use register_check::checking::register_reads;
use register_check::layout::REGISTER_LENGTH;
use state_check::check_buffers;
use step::taking::{act, raise};

// The number returned, the store word (1: state and register are stored first, as one), how many bytes of records the outgoing buffer begins with,
// how many actions turned green, and how many operations of them were refused.
// Stays: numbers in place of a Result and a flag, since it is the C struct of guzbytor_register_step.
#[repr(C)]
#[derive(Clone, Copy)]
pub struct RegisterAnswer {
    pub number: u32,
    pub store: u32,
    pub sent: u32,
    pub greened: u32,
    pub refused: u32,
}

impl RegisterAnswer {
    // "no refusal changes anything lent"
    fn refused(number: u32) -> RegisterAnswer
        ensures { result ≡ refused_with number }
    {
        RegisterAnswer {
            number,
            store: 0,
            sent: 0,
            greened: 0,
            refused: 0,
        }
    }
}

// 7 where one of the buffers is too short, then 8 where one does not read.
fn check_joint(state: &[u8], register: &[u8], out: &[u8]) -> Result<(), Refusal>
    ensures { outcome_number result ≡ joint_number state.now register.now out.now }
{
    if register.len() < REGISTER_LENGTH {
        return Err(Refusal::ShortBuffer);
    }
    check_buffers(state, out)?;
    if register_reads(register) {
        Ok(())
    } else {
        Err(Refusal::BadState)
    }
}

// Over buffers whose number is 0: the engine's step, and what it turns green before that can be white.
fn take_event(
    state: &mut [u8],
    register: &mut [u8],
    event: &[u8],
    out: &mut [u8],
) -> Result<RegisterAnswer, Refusal>
    requires { AllRead state register out }
    ensures joint { AnswersJointly (answer_of result) state register event.now out }
    ensures taken { IfOk result (λ a. a.number ≡ 0) }
{
    let first = carry_met(state, register, event);
    let from = green_length(state);
    let a = act(state, event, out)?;
    let rest = carry(state, register, from);
    raise(state, a.raises);
    Ok(RegisterAnswer {
        number: 0,
        store: u32::from(a.taken.store),
        sent: a.taken.sent,
        greened: first.greened + rest.greened,
        refused: first.refused + rest.refused,
    })
}

fn try_step(
    state: &mut [u8],
    register: &mut [u8],
    event: &[u8],
    out: &mut [u8],
) -> Result<RegisterAnswer, Refusal>
    ensures { AnswersJointly (answer_of result) state register event.now out }
{
    check_joint(state, register, out)?;
    take_event(state, register, event, out)
}

// One event at one server with its register: the buffers' own number first, then the event.
pub fn joint_step(
    state: &mut [u8],
    register: &mut [u8],
    event: &[u8],
    out: &mut [u8],
) -> RegisterAnswer
    ensures { AnswersJointly result state register event.now out }
{
    match try_step(state, register, event, out) {
        Ok(answer) => answer,
        Err(refusal) => RegisterAnswer::refused(u32::from(refusal)),
    }
}

// As a burst's answer, with how many actions all its events turned green, and how many operations of these were refused.
// Stays: numbers in place of a Result and a flag, since it is the C struct of guzbytor_register_burst.
#[repr(C)]
#[derive(Clone, Copy)]
pub struct RegisterBurst {
    pub number: u32,
    pub store: u32,
    pub sent: u32,
    pub greened: u32,
    pub refused: u32,
    pub events: usize,
    pub bytes: usize,
}

impl RegisterBurst {
    // Nothing is taken.
    fn stopped(number: u32) -> RegisterBurst
        ensures { result ≡ refused_burst number }
    {
        RegisterBurst {
            number,
            store: 0,
            sent: 0,
            greened: 0,
            refused: 0,
            events: 0,
            bytes: 0,
        }
    }

    // The next burst behind this one, which has stored and put out nothing.
    fn then(self, next: RegisterBurst) -> RegisterBurst
        requires { CanFollow self next }
        ensures { result ≡ followed self next }
    {
        RegisterBurst {
            number: next.number,
            store: next.store,
            sent: next.sent,
            greened: self.greened + next.greened,
            refused: self.refused + next.refused,
            events: self.events + next.events,
            bytes: self.bytes + next.bytes,
        }
    }

    // Of a burst of one event: no event may follow it.
    fn is_last(self) -> bool
        ensures { result ≡ is_last self }
    {
        if self.events == 0 {
            return true;
        }
        self.store != 0 || self.sent != 0
    }
}

// Over buffers whose number is 0: the first of these events, as a burst of one; whether it would stand first.
fn take_first(
    state: &mut [u8],
    register: &mut [u8],
    events: &[u8],
    first: bool,
    out: &mut [u8],
) -> RegisterBurst
    requires { AllRead state register out }
    ensures { AnswersFirst result first state register events.now out }
{
    let size = match next_in(events, first) {
        Ok(Some(size)) => size,
        Ok(None) => return RegisterBurst::stopped(0),
        Err(refusal) => return RegisterBurst::stopped(u32::from(refusal)),
    };
    match take_event(state, register, &events[..size], out) {
        Ok(a) => RegisterBurst {
            number: 0,
            store: a.store,
            sent: a.sent,
            greened: a.greened,
            refused: a.refused,
            events: 1,
            bytes: size,
        },
        Err(refusal) => RegisterBurst::stopped(u32::from(refusal)),
    }
}

// What comes behind the events of `all`, as a burst of one.
fn take_next(
    all: RegisterBurst,
    state: &mut [u8],
    register: &mut [u8],
    events: &[u8],
    out: &mut [u8],
) -> RegisterBurst
    requires { AllRead state register out × (all.bytes ≤ length events.now) }
    ensures { AnswersNext result all state register events.now out }
{
    let at = all.bytes;
    take_first(state, register, &events[at..], all.events == 0, out)
}

// Over buffers whose number is 0: they stay such, so that no event checks them anew. What an event turned green is applied before the next is taken.
fn take_burst(state: &mut [u8], register: &mut [u8], events: &[u8], out: &mut [u8]) -> RegisterBurst
    requires { AllRead state register out }
    ensures { AnswersAll result state register events.now out }
{
    let mut all = RegisterBurst::stopped(0);
    loop {
        let next = take_next(all, state, register, events, out);
        all = all.then(next);
        if next.is_last() {
            return all;
        }
    }
}

// Many events at one server with its register: each buffer is checked once.
pub fn joint_burst(
    state: &mut [u8],
    register: &mut [u8],
    events: &[u8],
    out: &mut [u8],
) -> RegisterBurst
    ensures { AnswersAll result state register events.now out }
{
    if let Err(refusal) = check_joint(state, register, out) {
        return RegisterBurst::stopped(u32::from(refusal));
    }
    take_burst(state, register, events, out)
}

// Daemons that keep registers and take several waiting events by one burst keep, before every call, what daemons keep that take each event of the
// same run by the joint step. It does nothing: its contract is the theorem.
pub fn joint_bursts_follow()
    ensures { JointBurstsFollow }
{}

// So in every allowed run their registers agree, byte for byte in use, where the green lists are equally long.
pub fn joint_bursts_agree()
    ensures { JointBurstsAgree }
{}
