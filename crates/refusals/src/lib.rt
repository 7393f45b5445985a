// Document 01's 'Returned numbers', by the words of include/guzbytor.h: why an event, a state or a buffer is refused. `register_check` has the
// register's own.
#![tactic(auto)]

ghost use Rattle.std.specs.Prelude.{◌≡◌};
ghost use Rattle.refusals.specs.Numbers.{refusal_number, outcome_number};

// In the order of their numbers; 4 never occurs.
#[derive(Clone, Copy, Debug, PartialEq, Eq)]
pub enum Refusal {
    BadRecord,
    OutOfRange,
    QuotaUsed,
    NotNow,
    NotFromHere,
    ShortBuffer,
    BadState,
}

impl From<Refusal> for u32 {
    ghost from_gives = { λ refusal number. number ≡ refusal_number refusal };

    fn from(refusal: Refusal) -> u32 {
        match refusal {
            Refusal::BadRecord => 1,
            Refusal::OutOfRange => 2,
            Refusal::QuotaUsed => 3,
            Refusal::NotNow => 5,
            Refusal::NotFromHere => 6,
            Refusal::ShortBuffer => 7,
            Refusal::BadState => 8,
        }
    }
}

// What C is returned: 0, or the number of the refusal.
pub fn outcome_number(outcome: Result<(), Refusal>) -> u32
    ensures { result ≡ outcome_number outcome }
{
    match outcome {
        Ok(()) => 0,
        Err(refusal) => u32::from(refusal),
    }
}
