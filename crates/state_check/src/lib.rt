// The state's own part of a step: whether the buffers are long enough, and whether the state's buffer holds a well-formed state.
#![tactic(auto)]

ghost use Rattle.std.specs.Prelude.{◌≡◌, ◌≤◌, length, false};
ghost use Rattle.base.specs.Bytes.{Bytes};
ghost use Rattle.base.specs.Tests.{pick};
ghost use Rattle.format.specs.Limits.{fewest_servers_limit, least_quota_limit};
ghost use Rattle.image.specs.Decode.{servers_in, quota_in, reads};
ghost use Rattle.image.specs.Layout.{header_size, state_length};
ghost use Rattle.image.specs.Outcome.{state_short, out_short, state_number, image_number};
ghost use Rattle.record.specs.Context.{context_of};
ghost use Rattle.refusals.specs.Numbers.{outcome_number};
ghost use Rattle.state_check.specs.Checks.{sizes_in_range, exchange_ok, mode_ok, checks_of};

pub mod numbers; // numbers.rt: the numbers of the state
pub mod collected; // collected.rt: the collected States
pub mod sections; // sections.rt: the sections of the buffer
pub mod slots; // slots.rt: entries of one size
pub mod tally; // tally.rt: how many actions each server has in the queue

use exchange::states::States;
use image::header::load;
use image::sizes::Sizes;
use numbers::numbers_ok;
use octets::numbers::{num8, num16};
use record::range::{context_ok, sizes_ok};
use record::sets::inside;
use record::{Context, Mode, State};
use refusals::Refusal;
use sections::Image;

// Every member's State is in, and not all planned retransmissions have come.
fn exchange_ok(image: &Image) -> bool
    ensures { result ≡ exchange_ok (context_of image.now.context) image.now.numbers image.now.bytes.now }
{
    let c = image.context;
    let h = image.numbers;
    let states = States::collected(c.servers, c.quota, h.states, image.bytes);
    inside(h.configuration_set, h.states) && (h.come as u64) < states.planned()
}

// Whether the numbers and lists are such as the state needs.
fn mode_ok(image: &Image) -> bool
    ensures { result ≡ mode_ok (context_of image.now.context) image.now.numbers image.now.bytes.now }
{
    let h = image.numbers;
    let configured = h.configuration_status == 1;
    let Ok(mode) = Mode::try_from(h.mode) else {
        return false;
    };
    match mode {
        Mode::NonPrim => true,
        Mode::RegPrim | Mode::TransPrim | Mode::ExchangeStates => configured,
        Mode::ExchangeActions => configured && exchange_ok(image),
        Mode::Construct | Mode::No | Mode::Un => configured && h.last.index.0 < State::MOST_INDEX,
    }
}

// Whether the buffer, long enough, holds the image of a well-formed state: h are its numbers.
#[tactic(auto, using(record::proofs::Chains::chain), unfolding(crate::specs::Checks::checks_of, record::specs::Context::context_of))]
fn checks_ok(c: Context, h: State, b: &[u8]) -> bool
    requires { Bytes b.now × (state_length c.servers c.quota ≤ length b.now) }
    ensures { result ≡ checks_of (context_of c) h b.now }
{
    if !context_ok(c) {
        return false;
    }
    let image = Image {
        context: c,
        numbers: h,
        bytes: b,
    };
    numbers_ok(c, h) && image.lists_ok() && image.states_ok() && mode_ok(&image)
}

// The numbers of servers and the quota by which the buffers are measured: the state's own, or the least ones where one is out of range.
#[tactic(auto, using(crate::proofs::NumberAnswer::own_servers, crate::proofs::NumberAnswer::own_quota, crate::proofs::NumberAnswer::own_sizes, crate::proofs::NumberAnswer::least_servers, crate::proofs::NumberAnswer::least_quota))]
fn measured(state: &[u8]) -> Sizes
    requires { header_size ≤ length state.now }
    ensures servers { result.servers ≡ pick (sizes_in_range state.now) (servers_in state.now) fewest_servers_limit }
    ensures quota { result.quota ≡ pick (sizes_in_range state.now) (quota_in state.now) least_quota_limit }
{
    let servers = num8(state, State::AT_SERVERS) as u32;
    let quota = num16(state, State::AT_QUOTA) as u32;
    if sizes_ok(servers, quota) {
        Sizes { servers, quota }
    } else {
        Sizes {
            servers: State::FEWEST_SERVERS as u32,
            quota: State::LEAST_QUOTA as u32,
        }
    }
}

// Whether the state's buffer is shorter than its formula ..
fn state_short(state: &[u8]) -> bool
    ensures { result ≡ state_short state.now }
{
    if state.len() < State::SIZE {
        return true;
    }
    let sizes = measured(state);
    state.len() < sizes.state_length() as usize
}

// .. and the outgoing one than its own, by the sizes in the state.
fn out_short(state: &[u8], out: &[u8]) -> bool
    requires { header_size ≤ length state.now }
    ensures { result ≡ out_short state.now out.now }
{
    let sizes = measured(state);
    out.len() < sizes.out_length() as usize
}

// Whether the buffer, not too short, holds a well-formed state.
fn reads(state: &[u8]) -> bool
    requires { state_short state.now ≡ false }
    ensures { result ≡ reads state.now }
{
    let h = load(state);
    sizes_ok(h.servers as u32, h.quota as u32) && checks_ok(h.context(), h, state)
}

// Refused: a state's buffer that is too short, and then one that holds no well-formed state.
pub fn check_image(state: &[u8]) -> Result<(), Refusal>
    ensures { outcome_number result ≡ image_number state.now }
{
    if state_short(state) {
        return Err(Refusal::ShortBuffer);
    }
    if !reads(state) {
        return Err(Refusal::BadState);
    }
    Ok(())
}

// The state's own part of 7 and 8: refused are a buffer that is too short, and then a state's buffer that holds no well-formed state.
pub fn check_buffers(state: &[u8], out: &[u8]) -> Result<(), Refusal>
    ensures { outcome_number result ≡ state_number state.now out.now }
{
    if state_short(state) || out_short(state, out) {
        return Err(Refusal::ShortBuffer);
    }
    if !reads(state) {
        return Err(Refusal::BadState);
    }
    Ok(())
}
