// Every whole event of a part of the input, as far as the room for their lines goes.
ghost use Rattle.std.specs.Prelude.{◌≡◌, ◌-◌, length};
ghost use Rattle.replay_turns.specs.Passes.{Passed, pass_of};

use crate::{Going, Replay, Turn};
use arrayvec::ArrayString;
use replay_lines::line::LINE_ROOM;

impl Replay {
    // The lines are put behind the text; `On` where there is no room for another one.
    pub fn pass<const N: usize>(
        &mut self,
        input: &[u8],
        ended: bool,
        out: &mut ArrayString<N>,
    ) -> Turn
        ensures passed { Passed (pass_of self.old.table self.old.servers self.old.event input.now ended (N - length out.old.bytes))
            self.new.table self.new.event result out.old.bytes out.new.bytes }
        ensures servers { self.new.servers ≡ self.old.servers }
    {
        let mut taken = 0;
        while LINE_ROOM <= out.remaining_capacity() {
            let turn = self.take_turn(&input[taken..], ended, out);
            taken += turn.taken;
            match turn.going {
                Going::On => self.event = self.event.wrapping_add(1),
                _ => {
                    return Turn {
                        taken,
                        going: turn.going,
                    };
                }
            }
        }
        Turn {
            taken,
            going: Going::On,
        }
    }
}
