// Lists of ids in bytes: whether they are in range and differ.
ghost use Rattle.std.specs.Prelude.{◌≡◌, ◌+◌, ◌*◌, ◌≤◌, length};
ghost use Rattle.format.specs.Limits.{most_quota_limit, most_ids};
ghost use Rattle.format.specs.Places.{id_size};
ghost use Rattle.format.specs.Range.{has_id, ids_ok};
ghost use Rattle.format.specs.Read.{id_at, ids_at};
ghost use Rattle.record.specs.Context.{context_of, ContextIn};
ghost use Rattle.record.specs.Values.{the_id, slot, table_place, ids_by, IdsInside, HasPlaces, NextId, MetAt};

use crate::parts::id_at;
use crate::range::id_ok;
use crate::{ActionId, Context, State};

const QUOTA: usize = State::MOST_QUOTA as usize;

impl ActionId {
    // Its place in a table that has State::MOST_QUOTA places for each creator.
    pub fn slot(self) -> usize
        ensures { result ≡ slot (the_id self) }
    {
        usize::from(self.creator) * QUOTA + usize::from(self.index) % QUOTA
    }

    // The same of an id in range; none of any other.
    pub fn place(self, c: Context) -> Option<usize>
        requires { ContextIn c }
        ensures { result ≡ table_place (context_of c) (the_id self) }
    {
        if id_ok(c, self) {
            Some(self.slot())
        } else {
            None
        }
    }
}

// Ids in lent bytes, each at the front of `step` bytes from `at` on.
#[derive(Clone, Copy)]
pub struct Ids<'a> {
    pub bytes: &'a [u8],
    pub at: usize,
    pub step: usize,
    pub count: usize,
    pub ghost inside: { IdsInside step count bytes.now at },
}

impl<'a> Ids<'a> {
    // Whether one of them is this one.
    fn has(&self, id: ActionId) -> bool
        ensures { result ≡ has_id (the_id id) (ids_by self.now.step self.now.count self.now.bytes.now self.now.at) }
    {
        for k in 0..self.count {
            if id.is_at(self.bytes, self.at + self.step * k) {
                return true;
            }
        }
        false
    }

    // Whether the id at `here` is in range and none of these, which have set their places in the table `met`: it sets its own. Only where its place
    // was set already, they are read again.
    pub fn is_new(&self, c: Context, here: usize, met: &mut [u8]) -> bool
        requires { ContextIn c × NextId self.now.step self.now.count self.now.bytes.now self.now.at here c.servers met.old }
        ensures { MetAt (context_of c) self.now.step self.now.count self.now.bytes.now self.now.at here result met.old met.new }
    {
        let id = id_at(self.bytes, here);
        let Some(p) = id.place(c) else {
            return false;
        };
        if 0 < met[p] {
            return !self.has(id);
        }
        met[p] = 1;
        true
    }

    // Whether they are in range and differ: one pass. What stands in the table does not matter, but zeros spare the pass to read ids again.
    fn differ_by(&self, c: Context, met: &mut [u8]) -> bool
        requires { ContextIn c × HasPlaces c.servers met.old }
        ensures { result ≡ ids_ok (context_of c) (ids_by self.now.step self.now.count self.now.bytes.now self.now.at) }
    {
        for k in 0..self.count {
            let before = Ids {
                bytes: self.bytes,
                at: self.at,
                step: self.step,
                count: k,
            };
            if !before.is_new(c, self.at + self.step * k, met) {
                return false;
            }
        }
        true
    }

    fn differ_with<const N: usize>(&self, c: Context) -> bool
        requires { ContextIn c × (c.servers * most_quota_limit ≤ N) × (N ≤ most_ids) }
        ensures { result ≡ ids_ok (context_of c) (ids_by self.now.step self.now.count self.now.bytes.now self.now.at) }
    {
        let mut met: [u8; N] = [0; N];
        self.differ_by(c, &mut met)
    }

    // Whether they are in range and differ. A table for few servers is short.
    pub fn differ(&self, c: Context) -> bool
        requires { ContextIn c }
        ensures { result ≡ ids_ok (context_of c) (ids_by self.now.step self.now.count self.now.bytes.now self.now.at) }
    {
        match c.servers {
            0..=2 => self.differ_with::<{ State::IDS_OF_2 }>(c),
            3 => self.differ_with::<{ State::IDS_OF_3 }>(c),
            4 => self.differ_with::<{ State::IDS_OF_4 }>(c),
            _ => self.differ_with::<{ State::MOST_IDS }>(c),
        }
    }
}

// Whether the `count` ids from `at` on are in range and differ.
pub fn ids_ok(c: Context, e: &[u8], at: usize, count: usize) -> bool
    requires { ContextIn c × (at + id_size * count ≤ length e.now) }
    ensures { result ≡ ids_ok (context_of c) (ids_at count e.now at) }
{
    let ids = Ids {
        bytes: e,
        at,
        step: State::ID,
        count,
    };
    ids.differ(c)
}
