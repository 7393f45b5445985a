// Vectors for the exchange's decisions: servers (1 byte), quota (2), the configuration's set (1), the set of those whose CPC is in (1), and
// the collected States as records. Written are whether all States and CPCs are in, how many retransmissions are planned, the quorum, the
// taken primary, the attempt, the yellow list, who resends what, and each member's mark as judged; or the number of the state check where
// it is not 0.
ghost use Rattle.image.specs.Holding.{HoldsSome};

use crate::building::{build, number_of, put, senders};
use exchange::decided::{
    all_cpcs_in, all_states_in, planned_now, quorum_here, resends_green, resends_red, taken_votes,
    taken_yellow,
};
use exchange::plan::Share;
use octets::numbers::num8;
use record::events::StateHead;
use record::sets::has;
use record::{LastPrimary, Mark, State};
use state_check::check_buffers;
use std::io::{Result, Write};
use vector_tools::output::Hex;

const SERVERS: usize = State::MOST_SERVERS as usize;

const STATES: usize = SERVERS * (StateHead::SIZE + State::CUT * SERVERS + State::IDS);

const SLOTS: usize = State::SLOT * (State::MOST_QUOTA as usize + State::MOST_IDS);

// Both buffers at the largest sizes, by the formulas of docs/LAYOUT.md.
const STATE_ROOM: usize = State::SIZE
    + State::CUT_AND_NOTED * SERVERS
    + STATES
    + State::IDS
    + SLOTS;

const OUT_ROOM: usize = 2 * State::RETRANSMISSION * State::MOST_IDS;

fn votes<W: Write>(out: &mut W, state: &[u8]) -> Result<()>
    requires { HoldsSome state.now }
{
    let v = taken_votes(state);
    let p = v.last;
    write!(out, " primary {} {} {}", p.index.0, p.attempt.0, p.set)?;
    write!(out, " attempt {} yellow {}", v.attempt.0, v.yellow_status)
}

fn yellow_ids<W: Write>(out: &mut W, state: &[u8]) -> Result<()>
    requires { HoldsSome state.now }
{
    let mut list: [u8; State::IDS] = [0; State::IDS];
    let n = taken_yellow(state, &mut list);
    write!(out, " ids {n}")?;
    if n <= State::IDS / State::ID {
        write!(out, " {}", Hex(&list[..State::ID * n]))?;
    }
    Ok(())
}

fn answers<W: Write>(out: &mut W, state: &[u8]) -> Result<()>
    requires { HoldsSome state.now }
{
    write!(out, "states {}", u8::from(all_states_in(state)))?;
    write!(out, " cpcs {}", u8::from(all_cpcs_in(state)))?;
    write!(out, " planned {}", planned_now(state))?;
    write!(out, " quorum {}", u8::from(quorum_here(state)))?;
    votes(out, state)?;
    yellow_ids(out, state)
}

// Who resends of those that the server c made, or by position where there is no such server.
fn part(state: &[u8], c: u8) -> Share
    requires { HoldsSome state.now }
{
    if c < num8(state, State::AT_SERVERS) {
        resends_red(state, usize::from(c))
    } else {
        resends_green(state)
    }
}

// The part of server k, if it is that one's own: it resends those above `low` up to `high`. A server outside the configuration has no state.
fn own_part<W: Write>(out: &mut W, state: &mut [u8], outgoing: &[u8], k: u8, c: u8) -> Result<()> {
    put(state, State::AT_ME, k);
    if check_buffers(state, outgoing).is_ok()
        && let Share::Own(p) = part(state, c)
    {
        write!(out, " {k}:{}-{}", p.low, p.high)?;
    }
    Ok(())
}

// Of each server's part, the one that is its own.
fn resender<W: Write>(out: &mut W, state: &mut [u8], outgoing: &[u8], c: u8) -> Result<()> {
    for k in 0..number_of(state) {
        own_part(out, state, outgoing, k, c)?;
    }
    Ok(())
}

fn plan<W: Write>(out: &mut W, state: &mut [u8], outgoing: &[u8]) -> Result<()> {
    write!(out, " green")?;
    resender(out, state, outgoing, State::MOST_SERVERS)?;
    write!(out, " red")?;
    for c in 0..number_of(state) {
        resender(out, state, outgoing, c)?;
    }
    Ok(())
}

// The mark of server k as it judges it.
fn own_mark<W: Write>(out: &mut W, state: &mut [u8], outgoing: &[u8], k: u8) -> Result<()> {
    put(state, State::AT_ME, k);
    if check_buffers(state, outgoing).is_ok() {
        let m = taken_votes(state).mark;
        write!(out, " {k}:{} {} {}", m.status, m.index.0, m.attempt.0)?;
        write!(out, " {} {};", m.set, m.bits)?;
    }
    Ok(())
}

// The marks of those whose State is in.
fn marks<W: Write>(out: &mut W, state: &mut [u8], outgoing: &[u8]) -> Result<()> {
    write!(out, " marks")?;
    let set = senders(state);
    for k in 0..number_of(state) {
        if has(set, usize::from(k)) {
            own_mark(out, state, outgoing, k)?;
        }
    }
    Ok(())
}

fn decide<W: Write>(out: &mut W, state: &mut [u8], outgoing: &[u8]) -> Result<()> {
    if let Err(refusal) = check_buffers(state, outgoing) {
        return write!(out, "state check {}", u32::from(refusal));
    }
    answers(out, state)?;
    plan(out, state, outgoing)?;
    marks(out, state, outgoing)
}

pub fn vector<W: Write>(out: &mut W, e: &[u8]) -> Result<()> {
    let mut state: [u8; STATE_ROOM] = [0; STATE_ROOM];
    let outgoing: [u8; OUT_ROOM] = [0; OUT_ROOM];
    if build(&mut state, e) {
        decide(out, &mut state, &outgoing)?;
    }
    Ok(())
}
