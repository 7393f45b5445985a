// The record format: definitions and laws, no running code.
#![tactic(auto)]

ghost use Rattle.format.specs.RoundTrip.{RoundTrip};

// Demand 2: each record written reads back the same, and each record read writes back the same bytes. It does nothing: its contract is the theorem.
pub fn round_trip()
    ensures { RoundTrip }
{}
