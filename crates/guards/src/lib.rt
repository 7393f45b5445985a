// The conditions of rows 5, 6 and 3 of document 01's 'Returned numbers', from the state's numbers; row 3 also from a count of own actions.
#![tactic(auto)]

ghost use Rattle.std.specs.Prelude.{◌≡◌};
ghost use Rattle.format.specs.Types.{Action};
ghost use Rattle.record.specs.Values.{the_id};
ghost use Rattle.replication.specs.Machine.Types.{Mode as MachineMode, Server};
ghost use Rattle.replication.specs.Machine.Colours.{unwhite};
ghost use Rattle.replication.specs.Machine.Requests.{sends_now, quota_left};
ghost use Rattle.replication.specs.Machine.Rules.{numbered_own, regular_due, transitional_due, member_of, is_of, state_in, cpc_in};
ghost use Rattle.image.specs.Header.{header_of, mode_number};
ghost use Rattle.guards.specs.Modes.{mode_after};

use record::sets::has;
use record::{ActionId, Mode, State};

// "an action or retransmission of this server's own action above those it has numbered" does not apply.
pub fn numbered_own(h: State, id: ActionId) -> bool
    ensures { (s : Server) (a : Action) → h ≡ header_of s → a.id ≡ the_id id → result ≡ numbered_own s a }
{
    id.creator != h.me || id.index <= h.numbered
}

// "A regular configuration needs a transitional since the last one, or none yet since start or recovery."
pub fn regular_due(h: State) -> bool
    ensures { (s : Server) → h ≡ header_of s → result ≡ regular_due s.membership }
{
    h.transitional_status == 1 || h.configuration_status != 1
}

// "a second transitional cannot come"
pub fn transitional_due(h: State) -> bool
    ensures { (s : Server) → h ≡ header_of s → result ≡ transitional_due s.membership }
{
    h.transitional_status != 1
}

// The state that a transitional configuration leads to, if it can come.
pub fn after_transitional(mode: u8) -> Option<Mode>
    ensures { (m : MachineMode) → mode ≡ mode_number m → result ≡ mode_after m }
{
    let Ok(mode) = Mode::try_from(mode) else {
        return None;
    };
    match mode {
        Mode::NonPrim | Mode::ExchangeStates | Mode::ExchangeActions => Some(Mode::NonPrim),
        Mode::RegPrim => Some(Mode::TransPrim),
        Mode::Construct => Some(Mode::No),
        Mode::TransPrim | Mode::No | Mode::Un => None,
    }
}

// Whether server k is in the last regular set.
pub fn is_member(h: State, k: u8) -> bool
    ensures { (s : Server) → h ≡ header_of s → result ≡ member_of s.membership.configuration k }
{
    h.configuration_status == 1 && has(h.configuration_set, usize::from(k))
}

// Whether the last regular configuration has this id.
pub fn is_of(h: State, id: u32) -> bool
    ensures { (s : Server) → h ≡ header_of s → result ≡ is_of s.membership.configuration id }
{
    h.configuration_status == 1 && id == h.configuration_id
}

// Whether server k's State is in.
pub fn state_in(h: State, k: u8) -> bool
    ensures { (s : Server) → h ≡ header_of s → result ≡ state_in s.membership k }
{
    has(h.states, usize::from(k))
}

// Whether server k's CPC is in.
pub fn cpc_in(h: State, k: u8) -> bool
    ensures { (s : Server) → h ≡ header_of s → result ≡ cpc_in s.membership k }
{
    has(h.cpcs, usize::from(k))
}

// "sent in Reg_prim, and in Non_prim if the latest configuration since start or recovery is regular"
pub fn sends_now(h: State) -> bool
    ensures { (s : Server) → h ≡ header_of s → result ≡ sends_now s.membership }
{
    h.mode == u8::from(Mode::RegPrim)
        || h.mode == u8::from(Mode::NonPrim)
            && h.configuration_status == 1
            && h.transitional_status != 1
}

// "Quota now bounds a creator's actions that are not white in its own state": `own` is how many of them have a slot, and the own list
// holds the others. "Number 3 is given when either bound is reached, not before."
pub fn quota_left(h: State, own: u32) -> bool
    ensures { (s : Server) → h ≡ header_of s → own ≡ unwhite s.me s.white s.log → result ≡ quota_left s }
{
    let q = u32::from(h.quota);
    own < q && u32::from(h.own_count) < q - own && h.numbered < State::MOST_NUMBER
}
