// The kinds of records, and the byte that each has in a record's head. A record that came from outside may name none.
ghost use Rattle.std.specs.Prelude.{◌≡◌};
ghost use Rattle.format.specs.Types.{kind_number};
ghost use Rattle.record.specs.Codes.{the_kind, KindWith};

#[derive(Clone, Copy, Debug, PartialEq, Eq)]
pub enum Kind {
    Action,
    Retransmission,
    State,
    Cpc,
    Regular,
    Transitional,
    Request,
    Recovery,
}

// A byte that no kind has.
#[derive(Clone, Copy, Debug, PartialEq, Eq)]
pub struct UnknownKind(pub u8);

impl From<Kind> for u8 {
    ghost from_gives = { λ kind byte. byte ≡ kind_number (the_kind kind) };

    #[tactic(auto, unfolding(format::specs::Types::kind_number))]
    fn from(kind: Kind) -> u8 {
        match kind {
            Kind::Action => 1,
            Kind::Retransmission => 2,
            Kind::State => 3,
            Kind::Cpc => 4,
            Kind::Regular => 5,
            Kind::Transitional => 6,
            Kind::Request => 7,
            Kind::Recovery => 8,
        }
    }
}

impl TryFrom<u8> for Kind {
    type Error = UnknownKind;

    ghost try_from_gives = { KindWith };

    #[tactic(auto, using(crate::proofs::Codes::unnamed), unfolding(format::specs::Types::kind_number))]
    fn try_from(byte: u8) -> Result<Kind, UnknownKind> {
        match byte {
            1 => Ok(Kind::Action),
            2 => Ok(Kind::Retransmission),
            3 => Ok(Kind::State),
            4 => Ok(Kind::Cpc),
            5 => Ok(Kind::Regular),
            6 => Ok(Kind::Transitional),
            7 => Ok(Kind::Request),
            8 => Ok(Kind::Recovery),
            _ => Err(UnknownKind(byte)),
        }
    }
}
