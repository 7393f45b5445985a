// Install in a state's buffer. A pass over the actions makes a table of their places; then a pass over the yellow list, and one over each
// creator's red actions by their indexes, turn the actions green, each by one swap. The cost is linear where a creator's indexes follow one
// another; a gap before one of them costs a pass over the red actions.
#![tactic(auto)]

pub mod swapping; // swapping.rt: an action turns green by a swap
pub mod table; // table.rt: the places of the red actions
pub mod passes; // passes.rt: the ids in Install's order
pub mod installing; // installing.rt: Install
