// Recorded runs: the worked example, a run through all eight states, runs that the audit accepts and refuses, configurations that settle and
// that do not. No code.
#![tactic(auto)]
