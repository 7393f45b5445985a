// The numbers of a state written anew, where its lists stay or become shorter.
ghost use Rattle.std.specs.Prelude.{◌≤◌, length};
ghost use Rattle.updates.specs.Lists.{ChangedBy};
ghost use Rattle.image.specs.Header.{header_in};
ghost use Rattle.image.specs.Layout.{header_size};

use image::header::{load, save};
use record::State;

// Writes the numbers that `f` makes of the state's.
pub fn change<F: FnOnce(State) -> State>(state: &mut [u8], f: F)
    requires room { header_size ≤ length state.old }
    requires callable { F.pre f (header_in state.old) }
    ensures { ChangedBy (F.post f) state.old state.new }
{
    let h = load(state);
    let t = f(h);
    save(state, t);
}
