// Whether a lent buffer holds a register: one look at each slot in use, many bytes at once.
ghost use Rattle.std.specs.Prelude.{◌≡◌, ◌+◌, ◌*◌, ◌-◌, ◌≤◌, ◌<◌, length, MatchResult};
ghost use Rattle.base.specs.Bytes.{Bytes, number_at, zero_at};
ghost use Rattle.base.specs.Lists.{every_at};
ghost use Rattle.pegs.specs.Names.{before};
ghost use Rattle.pegs.specs.Operations.{most_name};
ghost use Rattle.pegs.specs.Image.{count_size, peg_size, register_length, peg_at, register_reads};
ghost use Rattle.pegs.specs.Outcome.{register_number};
ghost use Rattle.refusals.specs.Numbers.{refusal_number, outcome_number};
ghost use Rattle.register_check.specs.Slots.{long_size, slot_reads, next_reads, slots_read, Tested};

use super::contents::Register;
use super::layout::{
    AT_SLOT_NAME, COUNT_SIZE, MOST_NAME, MOST_PEGS, PEG_SIZE, REGISTER_LENGTH, name_fits,
};
use octets::numbers::{num8, num16, num32};
use refusals::Refusal;

// Names are compared by words of four bytes; so many are a name with its filling.
pub const WORD: usize = 4;

const WORDS: usize = MOST_NAME / WORD;

// Fillings are tested by two words at once.
const LONG: usize = 2 * WORD;

const LAST_LONG: usize = MOST_NAME - LONG;

// The number in the eight bytes from `at` on.
fn long(b: &[u8], at: usize) -> u64
    requires { at + long_size ≤ length b.now }
    ensures { result ≡ number_at long_size b.now at }
{
    u64::from(num32(b, at)) * 4294967296 + u64::from(num32(b, at + WORD))
}

// Whether zeros stand behind a name of k bytes, which begins at `at`, where less than two words are left: by the first and the last bytes of the
// filling, as many at once as it has, so that they may overlap.
fn end_filled(b: &[u8], at: usize, k: usize) -> bool
    requires { (k ≤ most_name) × (most_name < k + long_size) × (at + most_name ≤ length b.now) }
    ensures { result ≡ every_at (zero_at b.now) 1 (most_name - k) (at + k) }
{
    if k + WORD <= MOST_NAME {
        return num32(b, at + k) == 0 && num32(b, at + (MOST_NAME - WORD)) == 0;
    }
    if k + 2 <= MOST_NAME {
        return num16(b, at + k) == 0 && num16(b, at + (MOST_NAME - 2)) == 0;
    }
    MOST_NAME <= k || num8(b, at + k) == 0
}

// The same of any name: by two words at once.
fn filled(b: &[u8], at: usize, k: usize) -> bool
    requires { (k ≤ most_name) × (at + most_name ≤ length b.now) }
    ensures { result ≡ every_at (zero_at b.now) 1 (most_name - k) (at + k) }
{
    if MOST_NAME < k + LONG {
        return end_filled(b, at, k);
    }
    if long(b, at + k) != 0 {
        return false;
    }
    if MOST_NAME < k + 2 * LONG {
        return long(b, at + LAST_LONG) == 0;
    }
    long(b, at + LAST_LONG) == 0 && long(b, at + k + LONG) == 0
}

// The slot at `at`: a name of 1 to 24 bytes, and its filling.
fn slot_reads(b: &[u8], at: usize) -> bool
    requires { at + peg_size ≤ length b.now }
    ensures { result ≡ slot_reads b.now at }
{
    let k = usize::from(num8(b, at));
    name_fits(k) && filled(b, at + AT_SLOT_NAME, k)
}

// The name in the slot at `at` stands before the one in the slot at `next`: filled up, they are compared word by word, then by their lengths.
fn rises(b: &[u8], at: usize, next: usize) -> bool
    requires { Tested b.now at × Tested b.now next }
    ensures { result ≡ before (peg_at b.now at).name (peg_at b.now next).name }
{
    for j in 0..WORDS {
        let x = num32(b, at + AT_SLOT_NAME + WORD * j);
        let y = num32(b, next + AT_SLOT_NAME + WORD * j);
        if x != y {
            return x < y;
        }
    }
    num8(b, at) < num8(b, next)
}

// The slot behind the one at `at`, and whether their names are in order.
fn next_reads(b: &[u8], at: usize) -> bool
    requires { Tested b.now at × (at + peg_size + peg_size ≤ length b.now) }
    ensures { result ≡ next_reads b.now at }
{
    slot_reads(b, at + PEG_SIZE) && rises(b, at, at + PEG_SIZE)
}

// The slots of so many pegs.
fn slots_read(b: &[u8], count: usize) -> bool
    requires { Bytes b.now × (count_size + peg_size * count ≤ length b.now) }
    ensures { result ≡ slots_read b.now count count_size }
{
    if count == 0 {
        return true;
    }
    if !slot_reads(b, COUNT_SIZE) {
        return false;
    }
    for i in 0..count - 1 {
        if !next_reads(b, COUNT_SIZE + PEG_SIZE * i) {
            return false;
        }
    }
    true
}

// Whether a buffer that is long enough holds the image of a register.
pub fn register_reads(register: &[u8]) -> bool
    requires { register_length ≤ length register.now }
    ensures { result ≡ register_reads register.now }
{
    let count = usize::from(num16(register, 0));
    count <= MOST_PEGS && slots_read(register, count)
}

// 7 where the buffer is too short, then 8 where it holds no register.
pub fn check_register(register: &[u8]) -> Result<(), Refusal>
    ensures { outcome_number result ≡ register_number register.now }
{
    if register.len() < REGISTER_LENGTH {
        return Err(Refusal::ShortBuffer);
    }
    if !register_reads(register) {
        return Err(Refusal::BadState);
    }
    Ok(())
}

impl<'a> Register<'a> {
    // The register that the bytes hold.
    pub fn read(bytes: &'a [u8]) -> Result<Register<'a>, Refusal>
        ensures { MatchResult result (λ it. it.bytes.now ≡ bytes.now) (λ refusal. refusal_number refusal ≡ register_number bytes.now) }
    {
        check_register(bytes)?;
        Ok(Register::of(bytes))
    }
}
