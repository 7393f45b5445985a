// Recovery: the own list entered red, and what was collected dropped.
ghost use Rattle.std.specs.Prelude.{◌≡◌, ◌+◌, ◌≤◌, length};
ghost use Rattle.base.specs.Bytes.{bytes_of};
ghost use Rattle.base.specs.Patched.{patched};
ghost use Rattle.replication.specs.Machine.Types.{with_log};
ghost use Rattle.replication.specs.Machine.Colours.{reds};
ghost use Rattle.replication.specs.Machine.Requests.{recovered};
ghost use Rattle.replication.specs.Machine.White.{highest_white};
ghost use Rattle.image.specs.Holding.{HoldsSome, Becomes, Computes};
ghost use Rattle.updates.specs.Standing.{EnterRoom, dropped};
ghost use Rattle.image.specs.Layout.{header_size};
ghost use Rattle.updates.specs.Lists.{queue_counts};

use crate::numbers::change;
use image::places::{Section, place_of};
use octets::blocks::copy_up;
use octets::numbers::{num8, num16, num32, put16, put32};
use record::{ActionHead, Mode, State};

// The highest white length on the own list: a recovery enters that list, and takes it before.
pub fn highest_white(state: &[u8]) -> u32
    requires { HoldsSome state.now }
    ensures { Computes (λ s. highest_white s.log.own) state.now result }
{
    let at = place_of(state, Section::Own);
    let own = num16(state, State::AT_OWN_COUNT) as usize;
    let mut high: u32 = 0;
    for k in 0..own {
        let length = num32(state, at + State::SLOT * k + ActionHead::WHITE_LENGTH);
        high = high.max(length);
    }
    high
}

fn put_queue(state: &mut [u8], queue: u32)
    requires { header_size ≤ length state.old }
    ensures { state.new ≡ queue_counts queue state.old }
{
    put32(state, State::AT_QUEUE_LENGTH, queue);
    put16(state, State::AT_OWN_COUNT, 0);
}

// The counts of the queue and of the own list, which is empty, and the cut at `at`.
fn put_entered(state: &mut [u8], queue: u32, at: usize, cut: u16)
    requires { (header_size ≤ length state.old) × (at + 2 ≤ length state.old) }
    ensures { state.new ≡ patched at (bytes_of 2 cut) (queue_counts queue state.old) }
{
    put_queue(state, queue);
    put16(state, at, cut);
}

// "own-list actions above the own cut entered red": all of them, behind the queue. The own cut is then the last numbered one.
fn enter_own(state: &mut [u8])
    requires { EnterRoom state.old }
    ensures { Becomes (λ s. with_log (reds s.log.own s.log) s) state.old state.new }
{
    let own = num16(state, State::AT_OWN_COUNT);
    let queue = num32(state, State::AT_QUEUE_LENGTH);
    let from = place_of(state, Section::Own);
    let to = place_of(state, Section::Queue);
    let at = State::SIZE + State::CUT * num8(state, State::AT_ME) as usize;
    let numbered = num16(state, State::AT_NUMBERED);
    copy_up(
        state,
        from,
        to + State::SLOT * queue as usize,
        State::SLOT * own as usize,
    );
    put_entered(state, queue + own as u32, at, numbered);
}

// "Non_prim, no configuration, .. States dropped"
fn drop_membership(state: &mut [u8])
    requires { header_size ≤ length state.old }
    ensures { Becomes dropped state.old state.new }
{
    change(
        state,
        |h| State {
            mode: u8::from(Mode::NonPrim),
            configuration_status: 0,
            configuration_id: 0,
            configuration_set: 0,
            transitional_status: 0,
            transitional_set: 0,
            states: 0,
            ..h
        },
    );
}

// "Recovery, from the stored image"
pub fn recover(state: &mut [u8])
    requires { HoldsSome state.old }
    ensures { Becomes recovered state.old state.new }
{
    enter_own(state);
    drop_membership(state);
}
