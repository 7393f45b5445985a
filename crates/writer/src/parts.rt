// Ids, actions, primary components and marks, written at a place.
ghost use Rattle.std.specs.Prelude.{◌≡◌, ◌+◌, ◌≤◌, length};
ghost use Rattle.base.specs.Patched.{patched};
ghost use Rattle.format.specs.Places.{id_size, action_payload_at, action_head_size, primary_size, mark_size, yellow_head_size};
ghost use Rattle.format.specs.Write.{id_bytes, action_bytes, primary_bytes, mark_bytes};
ghost use Rattle.record.specs.Values.{the_id, primary_of, mark_of, action_of};
ghost use Rattle.writer.specs.Blocks.{head_bytes, yellow_head_bytes};

use octets::blocks::put_counted;
use octets::numbers::{put8, put16, put32};
use record::events::StateHead;
use record::{ActionHead, ActionId, LastPrimary, Mark};

pub fn put_id(out: &mut [u8], at: usize, id: ActionId)
    requires { at + id_size ≤ length out.old }
    ensures { out.new ≡ patched at (id_bytes (the_id id)) out.old }
{
    put8(out, at, id.creator);
    put16(out, at + ActionHead::INDEX, id.index);
}

// An action's id and its creator's green and white length.
pub fn put_head(out: &mut [u8], at: usize, head: ActionHead)
    requires { at + action_payload_at ≤ length out.old }
    ensures { out.new ≡ patched at (head_bytes head) out.old }
{
    put_id(out, at, head.id());
    put32(out, at + ActionHead::GREEN_LENGTH, head.green_length);
    put32(out, at + ActionHead::WHITE_LENGTH, head.white_length);
}

// An action, as actions and retransmissions have it.
pub fn put_body(out: &mut [u8], at: usize, head: ActionHead, payload: &[u8])
    requires { at + (action_head_size + length payload.now) ≤ length out.old }
    ensures { out.new ≡ patched at (action_bytes (action_of head payload.now)) out.old }
{
    put_head(out, at, head);
    put_counted(out, at + ActionHead::PAYLOAD, payload);
}

pub fn put_primary(out: &mut [u8], at: usize, last: LastPrimary)
    requires { at + primary_size ≤ length out.old }
    ensures { out.new ≡ patched at (primary_bytes (primary_of last)) out.old }
{
    put32(out, at, last.index.0);
    put32(out, at + LastPrimary::ATTEMPT, last.attempt.0);
    put8(out, at + LastPrimary::SET, last.set);
}

pub fn put_mark(out: &mut [u8], at: usize, mark: Mark)
    requires { at + mark_size ≤ length out.old }
    ensures { out.new ≡ patched at (mark_bytes (mark_of mark)) out.old }
{
    put8(out, at, mark.status);
    put32(out, at + Mark::INDEX, mark.index.0);
    put32(out, at + Mark::ATTEMPT, mark.attempt.0);
    put8(out, at + Mark::SET, mark.set);
    put8(out, at + Mark::BITS, mark.bits);
}

// Where the count of a yellow list lies, behind its status.
const YELLOW_COUNT: usize = StateHead::YELLOW_COUNT - StateHead::YELLOW;

// The status and the count of a yellow list.
pub fn put_yellow_head(out: &mut [u8], at: usize, status: u8, count: u16)
    requires { at + yellow_head_size ≤ length out.old }
    ensures { out.new ≡ patched at (yellow_head_bytes status count) out.old }
{
    put8(out, at, status);
    put16(out, at + YELLOW_COUNT, count);
}
