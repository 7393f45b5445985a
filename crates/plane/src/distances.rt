// Squared distances. Coordinates differ by less than 2^32, so a square fits 64 bits, and the sum of two may not.
ghost use Rattle.std.specs.Prelude.{◌≡◌, ◌*◌};
ghost use Rattle.plane.specs.Plane.{within_radius, squared_distance};

use crate::Point;

fn squared(d: u32) -> u64
    ensures { result ≡ d * d }
{
    u64::from(d) * u64::from(d)
}

impl Point {
    pub fn squared_distance(self, other: Point) -> u128
        ensures { result ≡ squared_distance self other }
    {
        let a = squared(self.easting.abs_diff(other.easting));
        let b = squared(self.northing.abs_diff(other.northing));
        u128::from(a) + u128::from(b)
    }

    // The edge included.
    pub fn is_within(self, radius: u32, other: Point) -> bool
        ensures { result ≡ within_radius radius self other }
    {
        self.squared_distance(other) <= u128::from(squared(radius))
    }
}
