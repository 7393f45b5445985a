// A peg searched by its name, by halving: a register is in byte order of name.
ghost use Rattle.std.specs.Prelude.{◌≡◌};
ghost use Rattle.pegs.specs.Image.{pegs_in};
ghost use Rattle.pegs.specs.Outcome.{position as position_of};
ghost use Rattle.register_check.specs.Search.{search_in};

use super::contents::Register;

impl Register<'_> {
    // How many pegs stand before this name.
    // Stays: halving by hand, since std's binary_search_by over `as_chunks` is no plainer: its closure serves any 33 bytes, so each name is cut anew.
    fn position(self, name: &[u8]) -> usize
        ensures { result ≡ position_of name.now (pegs_in self.entry.bytes.now) }
    {
        let mut low = 0;
        let mut high = self.count();
        while low < high {
            let mid = low + (high - low) / 2;
            if self.name(mid) < name {
                low = mid + 1;
            } else {
                high = mid;
            }
        }
        low
    }

    // Where the name stands, or, as an error, where it belongs.
    pub fn search(self, name: &[u8]) -> Result<usize, usize>
        ensures { result ≡ search_in name.now (pegs_in self.entry.bytes.now) }
    {
        let index = self.position(name);
        if index < self.count() && self.name(index) == name {
            Ok(index)
        } else {
            Err(index)
        }
    }
}
