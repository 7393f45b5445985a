// The nearest peg: each is compared with the nearest of those in front of it.
ghost use Rattle.std.specs.Prelude.{◌≡◌};
ghost use Rattle.pegs.specs.Image.{pegs_in};
ghost use Rattle.pegs.specs.Regions.{nearest};
ghost use Rattle.register_queries.specs.Arguments.{maybe};

use plane::Point;
use register_check::contents::Register;

// Which of the pegs it is; the empty register has none. Only a nearer one takes the place of one in front of it, so that of equally near ones the
// first stays.
pub fn nearest(register: Register, p: Point) -> Option<usize>
    ensures { maybe result ≡ nearest p (pegs_in register.entry.bytes.now) }
{
    if register.count() == 0 {
        return None;
    }
    let mut best = 0;
    let mut least = p.squared_distance(register.place(0));
    for index in 1..register.count() {
        let distance = p.squared_distance(register.place(index));
        if distance < least {
            best = index;
            least = distance;
        }
    }
    Some(best)
}
