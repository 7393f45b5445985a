// Changed bytes of a buffer.

// Changes the bytes from `at` on to those of src, if there is room.
pub fn patch(buffer: &mut [u8], at: usize, src: &[u8]) {
    if src.len() <= buffer.len() && at <= buffer.len() - src.len() {
        buffer[at..at + src.len()].copy_from_slice(src);
    }
}
