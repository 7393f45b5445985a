// The eight states of the algorithm, and the byte that each has in a server's image. A byte of an image that came from outside may name none.
ghost use Rattle.std.specs.Prelude.{◌≡◌};
ghost use Rattle.record.specs.Codes.{mode_code, ModeWith};

#[derive(Clone, Copy, Debug, PartialEq, Eq)]
pub enum Mode {
    NonPrim,
    RegPrim,
    TransPrim,
    ExchangeStates,
    ExchangeActions,
    Construct,
    No,
    Un,
}

// A byte that no state has.
#[derive(Clone, Copy, Debug, PartialEq, Eq)]
pub struct UnknownMode(pub u8);

impl From<Mode> for u8 {
    ghost from_gives = { λ mode byte. byte ≡ mode_code mode };

    fn from(mode: Mode) -> u8 {
        match mode {
            Mode::NonPrim => 0,
            Mode::RegPrim => 1,
            Mode::TransPrim => 2,
            Mode::ExchangeStates => 3,
            Mode::ExchangeActions => 4,
            Mode::Construct => 5,
            Mode::No => 6,
            Mode::Un => 7,
        }
    }
}

impl TryFrom<u8> for Mode {
    type Error = UnknownMode;

    ghost try_from_gives = { ModeWith };

    fn try_from(byte: u8) -> Result<Mode, UnknownMode> {
        match byte {
            0 => Ok(Mode::NonPrim),
            1 => Ok(Mode::RegPrim),
            2 => Ok(Mode::TransPrim),
            3 => Ok(Mode::ExchangeStates),
            4 => Ok(Mode::ExchangeActions),
            5 => Ok(Mode::Construct),
            6 => Ok(Mode::No),
            7 => Ok(Mode::Un),
            _ => Err(UnknownMode(byte)),
        }
    }
}
