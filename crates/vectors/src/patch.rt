// Changed bytes of a state.
use vector_tools::patch::patch;

// Patches one after another: each is a place (2 bytes), a count (1) and so many bytes.
pub fn patches(state: &mut [u8], e: &[u8]) {
    let mut rest = e;
    while let [high, low, count, behind @ ..] = rest {
        let Some((bytes, next)) = behind.split_at_checked(usize::from(*count)) else {
            return;
        };
        patch(state, usize::from(u16::from_be_bytes([*high, *low])), bytes);
        rest = next;
    }
}
