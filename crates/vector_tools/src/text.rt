// Lines and hexadecimal digits.
ghost use Rattle.std.specs.Prelude.{◌≡◌, ◌<◌, ◌≤◌, ◌⊎◌, ⊤, [], ◌∷◌, ◌++◌, length, MatchOption};

// A line without its end, as `split_inclusive` cuts it.
pub fn without_end(line: &[u8]) -> &[u8]
    ensures { (result.now ≡ line.now) ⊎ (result.now ++ 10 ∷ [] ≡ line.now) }
{
    line.strip_suffix(b"\n").unwrap_or(line)
}

// A line's digits, and its label from '#' on.
pub fn split_label(line: &[u8]) -> (&[u8], &[u8])
    ensures { result.0.now ++ result.1.now ≡ line.now }
{
    let end = line.iter().position(|b| *b == b'#').unwrap_or(line.len());
    line.split_at(end)
}

// The value of a hexadecimal digit; a capital letter is none.
fn digit(b: u8) -> Option<u8>
    ensures { MatchOption result ⊤ (λ d. d < 16) }
{
    match b {
        b'0'..=b'9' => Some(b - b'0'),
        b'a'..=b'f' => Some(b - b'a' + 10),
        _ => None,
    }
}

// The byte that two digits make.
fn byte(high: u8, low: u8) -> Option<u8> {
    Some(digit(high)? * 16 + digit(low)?)
}

// The bytes that pairs of digits make, put into e from its start, as far as it goes; what is no pair is passed over.
pub fn decode<'a>(s: &[u8], e: &'a mut [u8]) -> &'a [u8]
    ensures { length result.now ≤ length e.old }
{
    let mut rest = s;
    let mut n = 0;
    while let [high, low, ..] = rest {
        let Some(b) = byte(*high, *low) else {
            rest = &rest[1..];
            continue;
        };
        if n == e.len() {
            break;
        }
        e[n] = b;
        n += 1;
        rest = &rest[2..];
    }
    &e[..n]
}
