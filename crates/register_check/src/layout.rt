// Where the parts of a register lie in its buffer (docs/LAYOUT.md).
ghost use Rattle.std.specs.Prelude.{◌≡◌};
ghost use Rattle.pegs.specs.Operations.{name_fits};

pub const MOST_PEGS: usize = 4096;

pub const MOST_NAME: usize = 24;

// How many pegs there are; then a slot for each.
pub const COUNT_SIZE: usize = 2;

// In a slot: the name's length, the name filled up with zeros, easting, northing.
pub const AT_SLOT_NAME: usize = 1;

pub const AT_PLACE: usize = AT_SLOT_NAME + MOST_NAME;

pub const COORDINATE_SIZE: usize = 4;

pub const PLACE_SIZE: usize = 2 * COORDINATE_SIZE;

pub const PEG_SIZE: usize = AT_PLACE + PLACE_SIZE;

pub const REGISTER_LENGTH: usize = COUNT_SIZE + PEG_SIZE * MOST_PEGS;

// A name has 1 to 24 bytes.
pub fn name_fits(size: usize) -> bool
    ensures { result ≡ name_fits size }
{
    1 <= size && size <= MOST_NAME
}
