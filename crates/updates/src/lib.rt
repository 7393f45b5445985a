// The lists of a state in its buffer, changed in place.
#![tactic(auto)]

pub mod numbers; // numbers.rt: numbers alone
pub mod yellow; // yellow.rt: the yellow list
pub mod membership; // membership.rt: state and configurations
pub mod votes; // votes.rt: mark, yellow status, and all votes at once
pub mod requests; // requests.rt: requests numbered, and sent
pub mod notes; // notes.rt: noted lengths
pub mod states; // states.rt: collected States
pub mod exchanges; // exchanges.rt: retransmissions come, the end of an exchange
pub mod recovery; // recovery.rt: recovery
pub mod white; // white.rt: white lengths taken, actions turned white
