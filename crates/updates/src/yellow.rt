// The yellow list in a state's buffer.
ghost use Rattle.std.specs.Prelude.{◌≡◌, true, ◌+◌, ◌*◌, ◌≤◌, ◌<◌, length};
ghost use Rattle.format.specs.Limits.{most_ids};
ghost use Rattle.format.specs.Places.{id_size};
ghost use Rattle.format.specs.Range.{has_id};
ghost use Rattle.format.specs.Read.{ids_at};
ghost use Rattle.record.specs.Values.{the_id};
ghost use Rattle.image.specs.Layout.{header_size};
ghost use Rattle.image.specs.Counts.{yellow_count, most_actions, CountsIn};
ghost use Rattle.updates.specs.Lists.{id_added, BecomesYellow};

use image::places::{Section, place_of};
use octets::numbers::{num8, num16, put16};
use record::range::product;
use record::{ActionId, State};
use writer::parts::put_id;

// Whether this id is one of the `count` ids from `at` on.
fn has_id(e: &[u8], at: usize, count: usize, id: ActionId) -> bool
    requires { at + id_size * count ≤ length e.now }
    ensures { result ≡ has_id (the_id id) (ids_at count e.now at) }
{
    for k in 0..count {
        if id.is_at(e, at + State::ID * k) {
            return true;
        }
    }
    false
}

// An id at `at`, and the count.
fn add_id(state: &mut [u8], at: usize, count: u16, id: ActionId)
    requires { (header_size ≤ length state.old) × (at + id_size ≤ length state.old) × (count ≤ most_ids) }
    ensures { state.new ≡ id_added at (count + 1) (the_id id) state.old }
{
    put_id(state, at, id);
    put16(state, State::AT_YELLOW_COUNT, count + 1);
}

// "its id joins the yellow list", in which there is room: one that is already there has joined.
fn join_with_room(state: &mut [u8], id: ActionId)
    requires { CountsIn state.old × (yellow_count state.old < most_actions state.old) }
    ensures { BecomesYellow (the_id id) state.old state.new }
{
    let at = place_of(state, Section::Yellow);
    let count = num16(state, State::AT_YELLOW_COUNT);
    if has_id(state, at, count as usize, id) {
        return;
    }
    add_id(state, at + State::ID * count as usize, count, id);
}

// K6: "A yellow list has at most n × q ids".
fn most_ids(state: &[u8]) -> u32
    requires { CountsIn state.now }
    ensures { result ≡ most_actions state.now }
{
    let n = num8(state, State::AT_SERVERS) as u32;
    let q = num16(state, State::AT_QUOTA) as u32;
    product(n, q)
}

// "its id joins the yellow list"; K6: "none joins a full one".
pub fn join_yellow(state: &mut [u8], id: ActionId)
    requires { CountsIn state.old }
    ensures { BecomesYellow (the_id id) state.old state.new }
{
    if most_ids(state) <= num16(state, State::AT_YELLOW_COUNT) as u32 {
        return;
    }
    join_with_room(state, id);
}
