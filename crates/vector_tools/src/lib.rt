// What programs that run vectors share.
#![tactic(auto)]

pub mod output; // output.rt: numbers and bytes as they are written, and what they are written to
pub mod patch; // patch.rt: bytes laid over a buffer
pub mod text; // text.rt: lines and hexadecimal digits, read
