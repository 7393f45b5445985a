// The table by which the ids common to several yellow lists are found: after r lists the place of an id of the first list holds r exactly if each of
// them has it. Lists of one primary are mostly alike, so an id is looked for at its own place first, then by a hint.
ghost use Rattle.std.specs.Prelude.{◌≡◌, ◌+◌, ◌*◌, ◌≤◌, ◌<◌, length};
ghost use Rattle.base.specs.Tests.{◌and◌, ◌<?◌};
ghost use Rattle.format.specs.Limits.{most_servers_limit, most_ids};
ghost use Rattle.format.specs.Places.{id_size};
ghost use Rattle.format.specs.Range.{same_id};
ghost use Rattle.format.specs.Read.{id_at, ids_at};
ghost use Rattle.record.specs.Context.{context_of, ContextIn};
ghost use Rattle.record.specs.Values.{the_id};
ghost use Rattle.exchange.specs.Slots.{states_left};
ghost use Rattle.exchange.specs.Hints.{sought_in, Sought, hinted, Hinted};
ghost use Rattle.exchange.specs.Table.{Stands, raised, raised_in, RaisedAt, RaisedFrom, ids_in, SlotInside, SlotsInside};
ghost use Rattle.exchange.specs.First.{the_list};

use crate::first_list::FirstList;
use crate::states::States;
use record::events::StateHead;
use record::parts::id_at as id_read;
use record::sets::has;
use record::{ActionId, Context, State};

// The id at the place k leaves a hint to it: one more than k, since 0 stands where no id has left one.
fn leave_hint(c: Context, first: &[u8], k: usize, t: &mut [u16; State::MOST_IDS])
    requires { ContextIn c × (id_size * k + id_size ≤ length first.now) × (k < most_ids) }
    ensures { t.new ≡ hinted (context_of c) k (id_at first.now (id_size * k)) t.old }
{
    let Some(p) = id_read(first, State::ID * k).place(c) else {
        return;
    };
    t[p] = (k + 1) as u16;
}

// The hints of the `ids` ids of the first list. What they say is tested, but for 0.
pub fn hints(c: Context, first: &[u8], ids: usize) -> [u16; State::MOST_IDS]
    requires { ContextIn c × Sought ids first.now }
    ensures { Hinted (context_of c) (sought_in ids first.now) result }
{
    let mut t: [u16; State::MOST_IDS] = [0; State::MOST_IDS];
    for k in 0..ids {
        leave_hint(c, first, k, &mut t);
    }
    t
}

impl<'a> FirstList<'a> {
    // Where this id stands in the list.
    fn search(&self, id: ActionId) -> Option<usize>
        ensures { Stands (the_id id) self.now.count self.now.bytes.now result }
    {
        for k in 0..self.count {
            if id.is_at(self.bytes, State::ID * k) {
                return Some(k);
            }
        }
        None
    }

    // Whether this id stands at the place k.
    fn is_there(&self, k: usize, id: ActionId) -> bool
        ensures { result ≡ (k <? self.now.count and same_id (the_id id) (id_at self.now.bytes.now (id_size * k))) }
    {
        if self.count <= k {
            return false;
        }
        id.is_at(self.bytes, State::ID * k)
    }

    // Where it stands, at once where the hint k is right.
    fn search_from(&self, k: usize, id: ActionId) -> Option<usize>
        ensures { Stands (the_id id) self.now.count self.now.bytes.now result }
    {
        if self.is_there(k, id) {
            return Some(k);
        }
        self.search(id)
    }

    // Where the id from `at` on stands in the list, by its hint.
    // Stays: the bytes with a place (d): record's `id_at` takes the same two.
    fn place_hinted(&self, e: &[u8], at: usize) -> Option<usize>
        requires { at + id_size ≤ length e.now }
        ensures { Stands (id_at e.now at) self.now.count self.now.bytes.now result }
    {
        let id = id_read(e, at);
        let Some(p) = id.place(self.context) else {
            return self.search(id);
        };
        let k = usize::from(self.hints[p]);
        if k < 1 {
            return None;
        }
        self.search_from(k - 1, id)
    }

    // The same, at once where it stands at the place `j`.
    fn place_among(&self, e: &[u8], at: usize, j: usize) -> Option<usize>
        requires { at + id_size ≤ length e.now }
        ensures { Stands (id_at e.now at) self.now.count self.now.bytes.now result }
    {
        if self.is_there(j, id_read(e, at)) {
            return Some(j);
        }
        self.place_hinted(e, at)
    }

    // The id number `j` of the list after `round` others.
    fn raise_at(&self, e: &[u8], at: usize, j: usize, round: u8, table: &mut [u8; State::MOST_IDS])
        requires { (at + id_size ≤ length e.now) × (round < most_servers_limit) }
        ensures { table.new ≡ raised (the_list self.now) round table.old (id_at e.now at) }
    {
        match self.place_among(e, at, j) {
            Some(p) => {
                if table[p] == round {
                    table[p] = round + 1;
                }
            }
            None => {}
        }
    }

    // The `count` ids from `at` on.
    fn raise_list(
        &self,
        e: &[u8],
        at: usize,
        count: usize,
        round: u8,
        table: &mut [u8; State::MOST_IDS],
    )
        requires { (at + id_size * count ≤ length e.now) × (round < most_servers_limit) }
        ensures { table.new ≡ raised_in self.now.count self.now.bytes.now round table.old (ids_at count e.now at) }
    {
        for j in 0..count {
            self.raise_at(e, at + State::ID * j, j, round, table);
        }
    }

    // The yellow list in the slot k.
    fn raise_slot(
        &self,
        states: &States<'_>,
        k: usize,
        round: u8,
        table: &mut [u8; State::MOST_IDS],
    )
        requires { SlotInside states.now.slots states.now.bytes.now k × (round < most_servers_limit) }
        ensures { table.new ≡ raised_in self.now.count self.now.bytes.now round table.old (ids_in states.now.slots states.now.bytes.now k) }
    {
        let x = states.head(k);
        let at = states.place(k);
        self.raise_list(
            &states.bytes[at..],
            StateHead::SIZE + State::CUT * states.slots.servers,
            x.yellow_count as usize,
            round,
            table,
        );
    }

    // The list in the slot k, if it is meant; how many lists there were then.
    fn raise_turn(
        &self,
        states: &States<'_>,
        k: usize,
        round: u8,
        table: &mut [u8; State::MOST_IDS],
    ) -> u8
        requires { SlotsInside states.now.slots states.now.bytes.now k × (k < states.now.slots.servers) × (round < most_servers_limit) }
        ensures { RaisedAt (the_list self.now) states.now.slots states.now.bytes.now k round result table.old table.new }
    {
        if !has(states.slots.here, k) {
            return round;
        }
        self.raise_slot(states, k, round, table);
        round + 1
    }

    // The lists in the slots from `start` on, of the senders that are meant: how many there are.
    pub fn raise_lists(
        &self,
        states: &States<'_>,
        start: usize,
        table: &mut [u8; State::MOST_IDS],
    ) -> u8
        requires { SlotsInside states.now.slots states.now.bytes.now start }
        ensures { RaisedFrom self.now.count self.now.bytes.now (states_left states.now.slots states.now.bytes.now start) result table.old table.new }
    {
        let mut round = 0;
        for k in start..states.slots.servers {
            round = self.raise_turn(states, k, round, table);
        }
        round
    }
}
