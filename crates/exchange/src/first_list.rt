// The list whose ids are sought in the others.
ghost use Rattle.record.specs.Context.{context_of, ContextIn};
ghost use Rattle.exchange.specs.Hints.{sought_in, Sought, Hinted, hinted_prop};

use record::{Context, State};

// Its `count` ids lie in `bytes`. The places of `hints` are those of record's tables of ids: each tells one more than where the id stands that
// left it, and 0 that none did.
// Stays: 0 for "no hint" (a): fixed memory, a table of options takes twice the room.
#[derive(Clone, Copy)]
pub struct FirstList<'a> {
    pub context: Context,
    pub bytes: &'a [u8],
    pub count: usize,
    pub hints: &'a [u16; State::MOST_IDS],
    pub ghost context_in: { ContextIn context },
    pub ghost sought: { Sought count bytes.now },
    pub ghost hinted: { Hinted (context_of context) (sought_in count bytes.now) hints.now } by { hinted_prop (context_of context) (sought_in count bytes.now) hints.now },
}
