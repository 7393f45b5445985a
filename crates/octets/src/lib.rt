// Bytes in a lent slice: numbers read and written, blocks stored, and bytes moved.
#![tactic(auto)]

pub mod numbers; // numbers.rt: numbers in bytes
pub mod blocks; // blocks.rt: blocks of bytes
pub mod moves; // moves.rt: bytes moved
