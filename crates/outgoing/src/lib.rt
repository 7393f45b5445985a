// The records that an event puts out, in the outgoing buffer.
#![tactic(auto)]

ghost use Rattle.std.specs.Prelude.{◌≡◌};
ghost use Rattle.base.specs.Bytes.{part_at};
ghost use Rattle.outgoing.specs.Resending.{PayloadInside};

pub mod sending; // sending.rt: what waits on the own list, as records
pub mod resending; // resending.rt: one's part of the plan
pub mod states; // states.rt: the State that a server sends

use record::events::ActionAt;

// The payload of an action that lies in the state.
fn payload(state: &[u8], a: ActionAt) -> &[u8]
    requires { PayloadInside a state.now }
    ensures { result.now ≡ part_at a.payload_length state.now a.payload_at }
{
    let start = a.payload_at;
    let end = start + a.payload_length;
    &state[start..end]
}
