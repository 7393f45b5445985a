// Where the collected States lie.

// The slot of server k begins at `at` + k × `size`; `here` is the set of those whose State is meant.
#[derive(Clone, Copy)]
pub struct Slots {
    pub servers: usize,
    pub size: usize,
    pub at: usize,
    pub here: u8,
}
