// Actions in a state's buffer: the queue and the own list, changed in place.
#![tactic(auto)]

pub mod slots; // slots.rt: one slot written, and slots moved
pub mod finding; // finding.rt: an action by its id
pub mod entering; // entering.rt: an action is entered
pub mod greening; // greening.rt: an action turns green
pub mod history; // history.rt: how long the green history is, and the slots of its positions
pub mod shifting; // shifting.rt: actions turn white and leave the queue
pub mod counting; // counting.rt: how many places a creator's actions have
