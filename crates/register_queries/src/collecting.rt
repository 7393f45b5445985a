// The pegs of a region, in their order: one loop for rectangles and radii.
ghost use Rattle.std.specs.Prelude.{◌≡◌, ◌≤◌, length};
ghost use Rattle.pegs.specs.Image.{register_length, register_image, pegs_in};
ghost use Rattle.pegs.specs.Regions.{pegs_inside};

use octets::blocks::copy;
use octets::numbers::put16;
use plane::Region;
use register_check::contents::Register;
use register_check::layout::{COUNT_SIZE, PEG_SIZE};

// Each slot of the region is copied behind those before it, and their number is put in front.
pub fn collect(register: Register, region: Region, answer: &mut [u8])
    requires { register_length ≤ length answer.old }
    ensures { answer.new ≡ register_image (pegs_inside region (pegs_in register.entry.bytes.now)) answer.old }
{
    let mut found: u16 = 0;
    for index in 0..register.count() {
        if region.contains(register.place(index)) {
            let to = COUNT_SIZE + PEG_SIZE * usize::from(found);
            copy(answer, to, register.slot(index));
            found += 1;
        }
    }
    put16(answer, 0, found);
}
