// Why an operation on the register, or a question, is refused, by the words of include/guzbytor.h.
ghost use Rattle.register_check.specs.Numbers.{refused_number, answer_number};
ghost use Rattle.std.specs.Prelude.{◌≡◌};
ghost use Rattle.register_check.specs.declared.refusing.RegisterRefusal.TheVariants.{Buffer};

use refusals::Refusal;

#[derive(Clone, Copy, Debug, PartialEq, Eq)]
pub enum RegisterRefusal {
    // 7 and 8: the buffer holds no register.
    Buffer(Refusal),
    PegThere,
    PegNotThere,
    NoOperation,
    BadRectangle,
    RegisterFull,
}

impl From<Refusal> for RegisterRefusal {
    ghost from_gives = { λ refusal it. it ≡ Buffer refusal };

    fn from(refusal: Refusal) -> RegisterRefusal {
        RegisterRefusal::Buffer(refusal)
    }
}

impl From<RegisterRefusal> for u32 {
    ghost from_gives = { λ refusal number. number ≡ refused_number refusal };

    fn from(refusal: RegisterRefusal) -> u32 {
        match refusal {
            RegisterRefusal::Buffer(refusal) => u32::from(refusal),
            RegisterRefusal::PegThere => 9,
            RegisterRefusal::PegNotThere => 10,
            RegisterRefusal::NoOperation => 11,
            RegisterRefusal::BadRectangle => 12,
            RegisterRefusal::RegisterFull => 13,
        }
    }
}

// What C is returned: 0, or the number of the refusal.
pub fn answer_number(answer: Result<(), RegisterRefusal>) -> u32
    ensures { result ≡ answer_number answer }
{
    match answer {
        Ok(()) => 0,
        Err(refusal) => u32::from(refusal),
    }
}
