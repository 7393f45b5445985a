// The bytes that `replay` reads and prints: its input, and its lines.
#![tactic(auto)]

pub mod input; // input.rt: the set-up record, and what comes next
pub mod line; // line.rt: lines, each put behind a text
pub mod setup; // setup.rt: what the set-up record says
