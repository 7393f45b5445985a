// Reading a state's buffer: its numbers, and its green entries. The state is checked once a call.
#![tactic(auto)]

ghost use Rattle.std.specs.Prelude.{◌≡◌, ◌^◌, ◌≤◌, ◌<◌, true, length};
ghost use Rattle.replication.specs.Machine.Types.{Server};
ghost use Rattle.replication.specs.Machine.WellFormed.{well_formed};
ghost use Rattle.image.specs.Header.{header_of};
ghost use Rattle.queries.specs.Queries.{resent_planned_of, summary_of, no_summary, summary_on, entries_on, listed};
ghost use Rattle.queries.specs.Queries.{refused_entries, put_entries, entries_of};
ghost use Rattle.queries.specs.Reading.{ReadingsGiveAll, NewlyGreen};

pub mod meeting; // meeting.rt: how far a meeting is
pub mod entries; // entries.rt: entries put one behind another

use entries::{MOST_ENTRY, put_entries};
use image::header::{load, unsent};
use meeting::{cpcs_in, resent_in, resent_planned, states_in};
use queue::history::{green_length, white_length};
use record::State;
use refusals::Refusal;
use state_check::check_image;

// What a state says: 0 and its numbers, or what its buffer is refused with and zeros.
#[repr(C)]
#[derive(Clone, Copy)]
pub struct Summary {
    pub number: u32,
    pub servers: u32,
    pub quota: u32,
    pub me: u32,
    pub state: u32,
    pub configured: u32,
    pub configuration_id: u32,
    pub configuration_set: u32,
    pub transitional: u32,
    pub transitional_set: u32,
    pub green: u32,
    pub white: u32,
    pub red: u32,
    pub numbered: u32,
    pub on_own_list: u32,
    pub unsent: u32,
    pub primary_index: u32,
    pub primary_attempt: u32,
    pub primary_set: u32,
    pub attempt: u32,
    pub marked: u32,
    pub states_in: u32,
    pub resent_in: u32,
    pub resent_planned: u32,
    pub cpcs_in: u32,
}

impl Summary {
    fn refused(number: u32) -> Summary
        ensures { result ≡ no_summary number }
    {
        Summary {
            number,
            servers: 0,
            quota: 0,
            me: 0,
            state: 0,
            configured: 0,
            configuration_id: 0,
            configuration_set: 0,
            transitional: 0,
            transitional_set: 0,
            green: 0,
            white: 0,
            red: 0,
            numbered: 0,
            on_own_list: 0,
            unsent: 0,
            primary_index: 0,
            primary_attempt: 0,
            primary_set: 0,
            attempt: 0,
            marked: 0,
            states_in: 0,
            resent_in: 0,
            resent_planned: 0,
            cpcs_in: 0,
        }
    }

    // Of a state with these numbers, a green history of this length, so many of it white, and so many retransmissions planned.
    fn of(h: State, history: u32, white: u32, planned: u32) -> Summary
        requires { (h.green_count ≤ h.queue_length) × (h.sent ≤ h.numbered) }
        ensures { (s : Server) → well_formed s ≡ true → h ≡ header_of s → history ≡ length s.log.green → white ≡ s.white
            → planned ≡ resent_planned_of s → result ≡ summary_of s }
    {
        Summary {
            number: 0,
            servers: h.servers as u32,
            quota: h.quota as u32,
            me: h.me as u32,
            state: h.mode as u32,
            configured: h.configuration_status as u32,
            configuration_id: h.configuration_id,
            configuration_set: h.configuration_set as u32,
            transitional: h.transitional_status as u32,
            transitional_set: h.transitional_set as u32,
            green: history,
            white,
            red: h.queue_length - h.green_count,
            numbered: h.numbered as u32,
            on_own_list: h.own_count as u32,
            unsent: unsent(h) as u32,
            primary_index: h.last.index.0,
            primary_attempt: h.last.attempt.0,
            primary_set: h.last.set as u32,
            attempt: h.attempt.0,
            marked: h.mark.status as u32,
            states_in: states_in(h),
            resent_in: resent_in(h),
            resent_planned: planned,
            cpcs_in: cpcs_in(h),
        }
    }
}

pub fn summary_on(state: &[u8]) -> Summary
    ensures { result ≡ summary_on state.now }
{
    match check_image(state) {
        Ok(()) => {
            let planned = resent_planned(state);
            Summary::of(
                load(state),
                green_length(state),
                white_length(state),
                planned,
            )
        }
        Err(refusal) => Summary::refused(u32::from(refusal)),
    }
}

// 0, how many entries are green in all, how many of these are white, and how many were put in how many bytes; or the number of a refusal
// and zeros.
#[repr(C)]
#[derive(Clone, Copy)]
pub struct GreenEntries {
    pub number: u32,
    pub green: u32,
    pub white: u32,
    pub entries: u32,
    pub bytes: u32,
}

impl GreenEntries {
    // "all as before"
    fn refused(number: u32) -> GreenEntries
        ensures { result ≡ refused_entries number }
    {
        GreenEntries {
            number,
            green: 0,
            white: 0,
            entries: 0,
            bytes: 0,
        }
    }

    // So many entries in so many bytes, out of so many that are green, the first of which are white.
    fn put(green: u32, white: u32, entries: u32, bytes: usize) -> GreenEntries
        requires { bytes < 2 ^ 32 }
        ensures { result ≡ put_entries green white entries bytes }
    {
        GreenEntries {
            number: 0,
            green,
            white,
            entries,
            bytes: bytes as u32,
        }
    }
}

// The green entries behind the first `from`, as many as fit whole. 7 where a buffer is too short, then 8 where the state's holds no
// well-formed state, then 2 where there are not so many, or where the next one is white: it is not there, and a later one must not be
// taken for it.
fn read_entries(state: &[u8], from: u32, entries: &mut [u8]) -> Result<GreenEntries, Refusal>
    ensures { listed (entries_of result) entries.new ≡ entries_on state.now from entries.old }
{
    if entries.len() < MOST_ENTRY {
        return Err(Refusal::ShortBuffer);
    }
    check_image(state)?;
    let white = white_length(state);
    if from < white {
        return Err(Refusal::OutOfRange);
    }
    let green = green_length(state);
    if green < from {
        return Err(Refusal::OutOfRange);
    }
    Ok(put_entries(state, from, white, green, entries))
}

// The same as C is answered.
pub fn green_entries(state: &[u8], from: u32, entries: &mut [u8]) -> GreenEntries
    ensures { listed result entries.new ≡ entries_on state.now from entries.old }
{
    match read_entries(state, from, entries) {
        Ok(read) => read,
        Err(refusal) => GreenEntries::refused(u32::from(refusal)),
    }
}

// Readings one behind another give all green entries that are not white; green lengths before and after an event tell what turned green.
// They do nothing: their contracts are the theorems.
pub fn readings_give_all()
    ensures { ReadingsGiveAll }
{}

pub fn newly_green_is_behind()
    ensures { NewlyGreen }
{}
