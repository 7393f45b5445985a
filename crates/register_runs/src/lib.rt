// Registers over runs: definitions and a theorem, no running code. The function here does nothing: its contract is the theorem.
#![tactic(auto)]

ghost use Rattle.register_runs.specs.Claim.{RegistersClaim};

// Daemons that keep a register beside each server's state and call the joint step: at every moment each register is the fold of that server's green
// list, white part included, in memory and in store, and over every allowed run registers agree as the green lists do.
pub fn registers_agree()
    ensures { RegistersClaim }
{}
