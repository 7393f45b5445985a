// The ids common to all the yellow lists that count.
ghost use Rattle.std.specs.Prelude.{◌≡◌, ◌+◌, ◌*◌, ◌≤◌, ◌<◌, length};
ghost use Rattle.base.specs.Patched.{patched};
ghost use Rattle.format.specs.Places.{id_size};
ghost use Rattle.format.specs.Read.{id_at};
ghost use Rattle.format.specs.Write.{id_bytes};
ghost use Rattle.record.specs.Context.{ContextIn};
ghost use Rattle.exchange.specs.Slots.{states_left};
ghost use Rattle.exchange.specs.Folds.{FirstAt};
ghost use Rattle.exchange.specs.States.{Fits, sent};
ghost use Rattle.exchange.specs.Hints.{sought_in, Sought};
ghost use Rattle.exchange.specs.Table.{KeepsAt, kept_of, kept_ids, common_from, Listed, SlotsInside};
ghost use Rattle.replication.specs.Machine.Exchange.{taken_yellow};

use crate::first_list::FirstList;
use crate::states::States;
use crate::table::hints;
use record::events::StateHead;
use record::parts::id_at as id_read;
use record::{Context, State};
use writer::parts::put_id;

// Writes the id from `at` on as the id number `count` of the list.
fn put_kept(e: &[u8], at: usize, out: &mut [u8], count: usize)
    requires { (at + id_size ≤ length e.now) × (id_size * count + id_size ≤ length out.old) }
    ensures { out.new ≡ patched (id_size * count) (id_bytes (id_at e.now at)) out.old }
{
    put_id(out, State::ID * count, id_read(e, at));
}

impl<'a> FirstList<'a> {
    // Writes the id number `j` if its place tells `round`: how many ids there are then.
    fn keep_at(
        &self,
        j: usize,
        round: u8,
        table: &[u8; State::MOST_IDS],
        out: &mut [u8],
        count: usize,
    ) -> usize
        requires { (j < self.now.count) × (id_size * count + id_size ≤ length out.old) }
        ensures { KeepsAt self.now.count round j self.now.bytes.now table.now count result out.old out.new }
    {
        if table[j] != round {
            return count;
        }
        put_kept(self.bytes, State::ID * j, out, count);
        count + 1
    }

    // Writes the ids whose places tell `round`: how many there are.
    pub fn keep(&self, round: u8, table: &[u8; State::MOST_IDS], out: &mut [u8]) -> usize
        requires { id_size * self.now.count ≤ length out.old }
        ensures { Listed result out.new (kept_of self.now.count round self.now.bytes.now table.now) }
    {
        let mut kept = 0;
        for j in 0..self.count {
            kept = self.keep_at(j, round, table, out, kept);
        }
        kept
    }
}

// The ids of the first list that the list of every slot from `start` on has, too: how many there are.
fn common_of(
    c: Context,
    first: &[u8],
    ids: usize,
    states: &States<'_>,
    start: usize,
    out: &mut [u8],
) -> usize
    requires { ContextIn c × Sought ids first.now × SlotsInside states.now.slots states.now.bytes.now start × (id_size * ids ≤ length out.old) }
    ensures { Listed result out.new (kept_ids (sought_in ids first.now) (states_left states.now.slots states.now.bytes.now start)) }
{
    let hints = hints(c, first, ids);
    let list = FirstList {
        context: c,
        bytes: first,
        count: ids,
        hints: &hints,
    };
    let mut table: [u8; State::MOST_IDS] = [0; State::MOST_IDS];
    let round = list.raise_lists(states, start, &mut table);
    list.keep(round, &table, out)
}

// The ids of the list in the slot `start` that every list behind it has, too: how many there are.
fn common(c: Context, states: &States<'_>, start: usize, out: &mut [u8]) -> usize
    requires { ContextIn c × FirstAt states.now.slots states.now.bytes.now start × Fits states.now out.old }
    ensures { Listed result out.new (common_from states.now.slots states.now.bytes.now start) }
{
    let x = states.head(start);
    let at = states.place(start) + (StateHead::SIZE + State::CUT * states.slots.servers);
    common_of(
        c,
        &states.bytes[at..],
        x.yellow_count as usize,
        states,
        start + 1,
        out,
    )
}

// "the ids common to all those valid lists, in the order of the lowest-numbered such sender's list; else it is invalid and
// empty": how many; their bytes are in `out`.
pub fn taken_ids(c: Context, states: &States<'_>, out: &mut [u8]) -> usize
    requires { ContextIn c × Fits states.now out.old }
    ensures { Listed result out.new (taken_yellow (sent states.now)).ids }
{
    let voters = states.yellow_voters();
    match voters.first() {
        Some(start) => common(c, &voters, start, out),
        None => 0,
    }
}
