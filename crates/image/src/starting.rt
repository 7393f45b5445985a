// The start in its buffer.
ghost use Rattle.std.specs.Prelude.{◌≡◌};
ghost use Rattle.replication.specs.Machine.Types.{start};
ghost use Rattle.image.specs.Layout.{StartRoom};
ghost use Rattle.image.specs.Image.{image};

use crate::header::save;
use octets::blocks::clear;
use record::State;

// Makes the start: its numbers, and zeros for the cuts and noted lengths.
pub fn begin(state: &mut [u8], servers: u8, quota: u16, me: u8)
    requires { StartRoom servers quota state.old }
    ensures { state.new ≡ image (start servers quota me) state.old }
{
    let h = State::start(servers, quota, me);
    save(state, h);
    clear(state, State::SIZE, State::CUT_AND_NOTED * servers as usize);
}
