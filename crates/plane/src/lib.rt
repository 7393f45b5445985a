// Points in whole millimetres: whether one lies in a region, and how far apart two are. Numbers are exact, and none wraps. Document 02, K5.
#![tactic(auto)]

ghost use Rattle.std.specs.Prelude.{◌≡◌};
ghost use Rattle.plane.specs.Plane.{between as between_of, in_rectangle, sides_rise, in_region};

pub mod distances; // distances.rt: squared distances

// In millimetres.
#[derive(Clone, Copy)]
pub struct Point {
    pub easting: i32,
    pub northing: i32,
}

// Its sides.
#[derive(Clone, Copy)]
pub struct Rectangle {
    pub west: i32,
    pub south: i32,
    pub east: i32,
    pub north: i32,
}

#[derive(Clone, Copy)]
pub enum Region {
    Inside(Rectangle),
    Within { centre: Point, radius: u32 },
}

fn between(low: i32, high: i32, z: i32) -> bool
    ensures { result ≡ between_of low high z }
{
    low <= z && z <= high
}

impl Rectangle {
    // Edges included.
    fn contains(self, p: Point) -> bool
        ensures { result ≡ in_rectangle self p }
    {
        between(self.west, self.east, p.easting) && between(self.south, self.north, p.northing)
    }

    // Neither low side exceeds its high side.
    pub fn sides_rise(self) -> bool
        ensures { result ≡ sides_rise self }
    {
        self.west <= self.east && self.south <= self.north
    }
}

impl Region {
    pub fn contains(self, p: Point) -> bool
        ensures { result ≡ in_region self p }
    {
        match self {
            Region::Inside(sides) => sides.contains(p),
            Region::Within { centre, radius } => centre.is_within(radius, p),
        }
    }
}
