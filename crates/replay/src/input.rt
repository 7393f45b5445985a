// What is there of the input.
ghost use Rattle.io.specs.Counts.{IsPrefixLen};

// More than a server byte and an event, which are at most 65,538 bytes.
pub const INPUT_ROOM: usize = 131072;

// Bytes that are read and not yet taken; whether the input has ended with them.
#[derive(Clone, Copy, Drop)]
pub struct Input {
    pub bytes: [u8; INPUT_ROOM],
    pub count: usize,
    pub ended: bool,
    ghost counts: { IsPrefixLen count bytes },
}
