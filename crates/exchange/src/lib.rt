// What the collected States decide: the plan of retransmissions, and the end of the exchange. All is read where the States lie.
#![tactic(auto)]

pub mod slots; // slots.rt: where the collected States lie
pub mod states; // states.rt: the States in their slots
pub mod plan; // plan.rt: who resends what
pub mod primary; // primary.rt: the primary component and its group
pub mod judging; // judging.rt: the States whose marks are judged
pub mod marks; // marks.rt: marks judged, and the quorum
pub mod yellow; // yellow.rt: the yellow list
pub mod first_list; // first_list.rt: the list whose ids are sought in the others
pub mod table; // table.rt: the ids that every list has
pub mod common; // common.rt: the ids common to the yellow lists
pub mod decided; // decided.rt: the decisions, from a buffer that holds a state
