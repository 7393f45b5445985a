// The register that a lent buffer holds: how many pegs there are, and each one's name and place.
ghost use Rattle.std.specs.Prelude.{◌≡◌, ◌<◌, length};
ghost use Rattle.base.specs.Bytes.{part_at};
ghost use Rattle.pegs.specs.Image.{peg_count, peg_size, peg_at};
ghost use Rattle.pegs.specs.Outcome.{register_number};
ghost use Rattle.pegs.specs.Regions.{point_of};
ghost use Rattle.register_check.specs.Slots.{slot_at};

use super::coordinates::point_at;
use super::layout::{AT_SLOT_NAME, COUNT_SIZE, PEG_SIZE};
use octets::numbers::{num8, num16};
use plane::Point;

#[derive(Clone, Copy)]
pub struct Register<'a> {
    bytes: &'a [u8],
    pub ghost reads: { register_number bytes.now ≡ 0 },
}

impl<'a> Register<'a> {
    // Of bytes that are known to hold one.
    pub fn of(bytes: &'a [u8]) -> Register<'a>
        requires { register_number bytes.now ≡ 0 }
        ensures { result.bytes.now ≡ bytes.now }
    {
        Register { bytes }
    }

    // The bytes that hold it.
    pub fn bytes(self) -> &'a [u8]
        ensures { result.now ≡ self.entry.bytes.now }
    {
        self.bytes
    }

    pub fn count(self) -> usize
        ensures { result ≡ peg_count self.entry.bytes.now }
    {
        usize::from(num16(self.bytes, 0))
    }

    // The bytes of the slot of this index.
    pub fn slot(self, index: usize) -> &'a [u8]
        requires { index < peg_count self.bytes.now }
        ensures { result.now ≡ part_at peg_size self.entry.bytes.now (slot_at index) }
    {
        let at = COUNT_SIZE + PEG_SIZE * index;
        &self.bytes[at..at + PEG_SIZE]
    }

    pub fn name(self, index: usize) -> &'a [u8]
        requires { index < peg_count self.bytes.now }
        ensures { result.now ≡ (peg_at self.entry.bytes.now (slot_at index)).name }
    {
        let at = COUNT_SIZE + PEG_SIZE * index;
        let from = at + AT_SLOT_NAME;
        let to = from + usize::from(num8(self.bytes, at));
        &self.bytes[from..to]
    }

    pub fn place(self, index: usize) -> Point
        requires { index < peg_count self.bytes.now }
        ensures { result ≡ point_of (peg_at self.entry.bytes.now (slot_at index)).place }
    {
        point_at(self.bytes, COUNT_SIZE + PEG_SIZE * index)
    }
}
