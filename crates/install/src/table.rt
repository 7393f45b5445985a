// The table of places: at the place of an id, a hint to where in the queue its action stands, or 0 where no action of the queue has an id with
// this place. A hint is tested, and where it is wrong the queue is searched.
ghost use Rattle.std.specs.Prelude.{◌≡◌, [], ◌∷◌, ◌+◌, ◌≤◌, ◌<◌, set, IfSome};
ghost use Rattle.format.specs.Limits.{most_servers_limit, most_ids, most_number_limit};
ghost use Rattle.format.specs.Range.{same_id};
ghost use Rattle.record.specs.Values.{the_id, slot};
ghost use Rattle.image.specs.Holding.{HoldsSome};
ghost use Rattle.install.specs.Table.{place_from, IndexedFrom, Indexed, Turned, id_in, NextFrom, Nearer};
ghost use Rattle.image.specs.Counts.{queue_count, green_count, CountsIn};

use crate::swapping::green_at;
use image::places::{Section, place_of};
use octets::numbers::num32;
use queue::finding::find;
use record::parts::id_at;
use record::{ActionId, State};

// The place of an id in the table, which is one of the table's.
pub fn entry(id: ActionId) -> usize
    requires { id.creator < most_servers_limit }
    ensures { (result ≡ slot (the_id id)) × (result < most_ids) }
{
    id.slot()
}

// The id of the action at the place k of the queue.
fn queue_id(state: &[u8], k: usize) -> ActionId
    requires { CountsIn state.now × (k < queue_count state.now) }
    ensures { the_id result ≡ id_in state.now k }
{
    id_at(state, place_of(state, Section::Queue) + State::SLOT * k)
}

// Its index.
pub fn index_at(state: &[u8], k: usize) -> u16
    requires { CountsIn state.now × (k < queue_count state.now) }
    ensures { result ≡ (id_in state.now k).index }
{
    queue_id(state, k).index
}

// The place of its id in the table.
pub fn entry_at(state: &[u8], k: usize) -> usize
    requires { HoldsSome state.now × CountsIn state.now × (k < queue_count state.now) }
    ensures { (result ≡ slot (id_in state.now k)) × (result < most_ids) }
{
    entry(queue_id(state, k))
}

// A hint to the place k of the queue, for the id whose place in the table is p: one more than k.
// Stays: (a) 0 is no hint, since a table of Option<u16> is twice as long, and memory is fixed.
fn hint(places: &mut [u16; State::MOST_IDS], p: usize, k: usize)
    requires { (p < most_ids) × (k < most_ids) }
    ensures { places.new ≡ set places.old p (k + 1) }
{
    places[p] = (k + 1) as u16;
}

// The table of all actions.
pub fn table(state: &[u8]) -> [u16; State::MOST_IDS]
    requires { HoldsSome state.now }
    ensures { IndexedFrom 0 result state.now }
{
    let mut places: [u16; State::MOST_IDS] = [0; State::MOST_IDS];
    let count = num32(state, State::AT_QUEUE_LENGTH) as usize;
    for k in 0..count {
        hint(&mut places, entry_at(state, k), k);
    }
    places
}

// Actions of a state's queue, from the place `first` on, looked up by the table.
// Stays: (c) `IndexedFrom` is a clause and no ghost field, which has to be a proposition: nothing proves `IsProp` of it, since it holds a state.
#[derive(Clone, Copy)]
pub struct Lookup<'a> {
    pub state: &'a [u8],
    pub places: &'a [u16; State::MOST_IDS],
    pub first: usize,
}

impl Lookup<'_> {
    // How many actions the queue has.
    fn count(&self) -> usize
        requires { IndexedFrom self.now.first self.now.places.now self.now.state.now }
        ensures { result ≡ queue_count self.now.state.now }
    {
        num32(self.state, State::AT_QUEUE_LENGTH) as usize
    }

    // Whether the action at the place k has this id.
    fn is_at(&self, k: usize, id: ActionId) -> bool
        requires { IndexedFrom self.now.first self.now.places.now self.now.state.now × (k < queue_count self.now.state.now) }
        ensures { result ≡ same_id (the_id id) (id_in self.now.state.now k) }
    {
        id.is_at(
            self.state,
            place_of(self.state, Section::Queue) + State::SLOT * k,
        )
    }

    // The place of the action with this id, by a search.
    fn searched(&self, id: ActionId) -> Option<usize>
        requires { IndexedFrom self.now.first self.now.places.now self.now.state.now }
        ensures { result ≡ place_from self.now.first (the_id id) self.now.state.now }
    {
        let at = place_of(self.state, Section::Queue) + State::SLOT * self.first;
        let k = find(self.state, at, self.count() - self.first, id)?;
        Some(self.first + k)
    }

    // The same, at once where the hint k names the action.
    fn find_by(&self, k: usize, id: ActionId) -> Option<usize>
        requires { IndexedFrom self.now.first self.now.places.now self.now.state.now }
        ensures { result ≡ place_from self.now.first (the_id id) self.now.state.now }
    {
        if !(k < self.count() && self.is_at(k, id)) {
            return self.searched(id);
        }
        if k < self.first {
            return None;
        }
        Some(k)
    }

    // The same by the table.
    pub fn find(&self, id: ActionId) -> Option<usize>
        requires { IndexedFrom self.now.first self.now.places.now self.now.state.now × (id.creator < most_servers_limit) }
        ensures { result ≡ place_from self.now.first (the_id id) self.now.state.now }
    {
        let hint = self.places[entry(id)] as usize;
        if hint == 0 {
            return None;
        }
        self.find_by(hint - 1, id)
    }

    // Of the place `found`, which is the next one's before k, and k: the next one's before k + 1.
    fn nearer(&self, found: Option<usize>, k: usize, creator: u8, above: u16) -> Option<usize>
        requires indexed { IndexedFrom self.now.first self.now.places.now self.now.state.now }
        requires found { IfSome found (λ p. p < queue_count self.now.state.now) }
        requires inside { k < queue_count self.now.state.now }
        ensures { Nearer k creator above found result self.now.state.now }
    {
        let id = queue_id(self.state, k);
        if id.creator != creator || id.index <= above {
            return found;
        }
        match found {
            Some(p) if index_at(self.state, p) <= id.index => found,
            _ => Some(k),
        }
    }

    // The place of this creator's action with the least index over `above`, by a pass.
    fn next_passed(&self, creator: u8, above: u16) -> Option<usize>
        requires { IndexedFrom self.now.first self.now.places.now self.now.state.now }
        ensures { NextFrom self.now.first creator above result self.now.state.now }
    {
        let mut found = None;
        for k in self.first..self.count() {
            found = self.nearer(found, k, creator, above);
        }
        found
    }

    // The same, at once where the hint, one more than a place, names the action with the next index.
    fn next_hinted(&self, hint: usize, creator: u8, above: u16) -> Option<usize>
        requires { IndexedFrom self.now.first self.now.places.now self.now.state.now × (above < most_number_limit) }
        ensures { NextFrom self.now.first creator above result self.now.state.now }
    {
        let id = ActionId {
            creator,
            index: above + 1,
        };
        if self.first < hint && hint <= self.count() && self.is_at(hint - 1, id) {
            return Some(hint - 1);
        }
        self.next_passed(creator, above)
    }

    // The same by the table. Past the highest index there is none to look up.
    pub fn next(&self, creator: u8, above: u16) -> Option<usize>
        requires { IndexedFrom self.now.first self.now.places.now self.now.state.now × (creator < most_servers_limit) }
        ensures { NextFrom self.now.first creator above result self.now.state.now }
    {
        if above == State::MOST_NUMBER {
            return self.next_passed(creator, above);
        }
        let id = ActionId {
            creator,
            index: above + 1,
        };
        let hint = self.places[entry(id)] as usize;
        self.next_hinted(hint, creator, above)
    }
}

// The red actions, looked up by the table.
pub fn reds<'a>(state: &'a [u8], places: &'a [u16; State::MOST_IDS]) -> Lookup<'a>
    requires { Indexed places.now state.now }
    ensures indexed { IndexedFrom result.first result.places.now result.state.now }
    ensures state { result.state.now ≡ state.now }
    ensures first { result.first ≡ green_count state.now }
{
    Lookup {
        state,
        places,
        first: num32(state, State::AT_GREEN_COUNT) as usize,
    }
}

// The red action at the place k of the queue turns green: the lowest red one takes its place.
// Stays: (d) state and table are lent side by side here and in passes.rt: a struct that holds the `&mut` would have each contract say that it still
// holds the same buffer.
pub fn turn_at_place(state: &mut [u8], places: &mut [u16; State::MOST_IDS], k: usize)
    requires { Indexed places.old state.old × (green_count state.old ≤ k) × (k < queue_count state.old) }
    ensures { Turned (id_in state.old k ∷ []) state.old places.new state.new }
{
    let green = num32(state, State::AT_GREEN_COUNT) as usize;
    let lowest = entry_at(state, green);
    let turned = entry_at(state, k);
    green_at(state, k);
    hint(places, lowest, k);
    hint(places, turned, green);
}

// The action with this id turns green if it is red.
pub fn turn_green(state: &mut [u8], places: &mut [u16; State::MOST_IDS], id: ActionId)
    requires { Indexed places.old state.old × (id.creator < most_servers_limit) }
    ensures { Turned (the_id id ∷ []) state.old places.new state.new }
{
    if let Some(k) = reds(state, places).find(id) {
        turn_at_place(state, places, k);
    }
}
