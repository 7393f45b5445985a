// What is written into a lent slice: ids and actions, and the records that the engine sends.
#![tactic(auto)]

pub mod parts; // parts.rt: ids and actions
pub mod records; // records.rt: writers of what the engine sends
