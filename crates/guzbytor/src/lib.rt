// Every function that a daemon calls, in one archive: each is a function of the crate below that proves it, under
// its C name and with its equation. No other crate exports a C name.
#![tactic(auto)]

ghost use Rattle.std.specs.Prelude.{◌≡◌};
ghost use Rattle.image.specs.Outcome.{lengths_of, started, start_on, state_number, step_on};
ghost use Rattle.step.specs.Answers.{answered};
ghost use Rattle.burst.specs.Burst.{burst_on, left};
ghost use Rattle.queries.specs.Queries.{summary_on, entries_on, listed};
ghost use Rattle.pegs.specs.Image.{register_length};
ghost use Rattle.pegs.specs.Outcome.{changed, empty_on, apply_on, find_on};
ghost use Rattle.pegs.specs.Queries.{nearest_on};
ghost use Rattle.register_check.specs.Answers.{located};
ghost use Rattle.register_queries.specs.Arguments.{rectangle, disc, point, AnswersRegion};
ghost use Rattle.register_step.specs.Answers.{AnswersJointly};
ghost use Rattle.register_step.specs.Burst.{AnswersAll};

use burst::BurstAnswer;
use image::Lengths;
use queries::{GreenEntries, Summary};
use refusals::outcome_number;
use register_check::RegisterFind;
use register_check::refusing::answer_number;
use register_step::{RegisterAnswer, RegisterBurst};
use step::Answer;

#[unsafe(no_mangle)]
pub extern "C" fn guzbytor_lengths(servers: u32, quota: u32) -> Lengths
    ensures { result ≡ lengths_of servers quota }
{
    image::lengths_of(servers, quota)
}

#[unsafe(no_mangle)]
pub extern "C" fn guzbytor_start(state: &mut [u8], servers: u32, quota: u32, me: u32) -> u32
    ensures { started result state.new ≡ start_on servers quota me state.old }
{
    outcome_number(image::start(state, servers, quota, me))
}

#[unsafe(no_mangle)]
pub extern "C" fn guzbytor_state_check(state: &[u8], out: &[u8]) -> u32
    ensures { result ≡ state_number state.now out.now }
{
    outcome_number(state_check::check_buffers(state, out))
}

#[unsafe(no_mangle)]
pub extern "C" fn guzbytor_step(state: &mut [u8], event: &[u8], out: &mut [u8]) -> Answer
    ensures { answered result state.new out.new ≡ step_on state.old event.now out.old }
{
    step::step_on(state, event, out)
}

#[unsafe(no_mangle)]
pub extern "C" fn guzbytor_burst(state: &mut [u8], events: &[u8], out: &mut [u8]) -> BurstAnswer
    ensures { left result state.new out.new ≡ burst_on state.old events.now out.old }
{
    burst::burst(state, events, out)
}

#[unsafe(no_mangle)]
pub extern "C" fn guzbytor_summary(state: &[u8]) -> Summary
    ensures { result ≡ summary_on state.now }
{
    queries::summary_on(state)
}

#[unsafe(no_mangle)]
pub extern "C" fn guzbytor_green_entries(
    state: &[u8],
    from: u32,
    entries: &mut [u8],
) -> GreenEntries
    ensures { listed result entries.new ≡ entries_on state.now from entries.old }
{
    queries::green_entries(state, from, entries)
}

#[unsafe(no_mangle)]
pub extern "C" fn guzbytor_register_length() -> u32
    ensures { result ≡ register_length }
{
    register_check::register_length()
}

#[unsafe(no_mangle)]
pub extern "C" fn guzbytor_register_start(register: &mut [u8]) -> u32
    ensures { changed result register.new ≡ empty_on register.old }
{
    outcome_number(register::start(register))
}

#[unsafe(no_mangle)]
pub extern "C" fn guzbytor_register_apply(register: &mut [u8], payload: &[u8]) -> u32
    ensures { changed result register.new ≡ apply_on register.old payload.now }
{
    answer_number(register::apply_on(register, payload))
}

#[unsafe(no_mangle)]
pub extern "C" fn guzbytor_register_find(register: &[u8], name: &[u8]) -> RegisterFind
    ensures { located result ≡ find_on register.now name.now }
{
    register_check::find(register, name)
}

#[unsafe(no_mangle)]
pub extern "C" fn guzbytor_register_rectangle(
    register: &[u8],
    west: i32,
    south: i32,
    east: i32,
    north: i32,
    answer: &mut [u8],
) -> u32
    ensures { AnswersRegion result (rectangle west south east north) register.now answer }
{
    let asked = register_queries::in_rectangle(register, west, south, east, north, answer);
    answer_number(asked)
}

#[unsafe(no_mangle)]
pub extern "C" fn guzbytor_register_radius(
    register: &[u8],
    easting: i32,
    northing: i32,
    radius: u32,
    answer: &mut [u8],
) -> u32
    ensures { AnswersRegion result (disc easting northing radius) register.now answer }
{
    let asked = register_queries::in_radius(register, easting, northing, radius, answer);
    answer_number(asked)
}

#[unsafe(no_mangle)]
pub extern "C" fn guzbytor_register_nearest(
    register: &[u8],
    easting: i32,
    northing: i32,
) -> RegisterFind
    ensures { located result ≡ nearest_on register.now (point easting northing) }
{
    register_queries::nearest_on(register, easting, northing)
}

#[unsafe(no_mangle)]
pub extern "C" fn guzbytor_register_step(
    state: &mut [u8],
    register: &mut [u8],
    event: &[u8],
    out: &mut [u8],
) -> RegisterAnswer
    ensures { AnswersJointly result state register event.now out }
{
    register_step::joint_step(state, register, event, out)
}

#[unsafe(no_mangle)]
pub extern "C" fn guzbytor_register_burst(
    state: &mut [u8],
    register: &mut [u8],
    events: &[u8],
    out: &mut [u8],
) -> RegisterBurst
    ensures { AnswersAll result state register events.now out }
{
    register_step::joint_burst(state, register, events, out)
}
