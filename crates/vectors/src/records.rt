// Vectors for the reader and the writers: the context (servers 1 byte, quota 2, own number 1, configured 1, set 1) and the event.
use crate::writing;
use record::Context;
use record::range::Limits;
use std::io::{Result, Write};
use vector_tools::output::Numbers;

// The context, and the event's bytes behind it.
fn split(e: &[u8]) -> Option<(Context, &[u8])> {
    match e {
        [servers, high, low, me, configured, set, event @ ..] => {
            let context = Context {
                servers: *servers,
                quota: u16::from_be_bytes([*high, *low]),
                me: *me,
                configured: *configured,
                set: *set,
            };
            Some((context, event))
        }
        _ => None,
    }
}

// What the event says.
pub fn read<W: Write>(out: &mut W, e: &[u8]) -> Result<()> {
    match split(e) {
        Some((context, event)) => writing::say(out, context, event),
        None => Ok(()),
    }
}

// The event written again.
pub fn write<W: Write>(out: &mut W, e: &[u8]) -> Result<()> {
    match split(e) {
        Some((context, event)) => writing::write(out, context, event),
        None => Ok(()),
    }
}

fn limit_numbers(l: Limits) -> [u64; 8] {
    [
        u64::from(l.fewest_servers),
        u64::from(l.most_servers),
        u64::from(l.least_quota),
        u64::from(l.most_quota),
        l.most_payload as u64,
        u64::from(l.most_index),
        u64::from(l.most_number),
        u64::from(l.most_length),
    ]
}

pub fn limits<W: Write>(out: &mut W) -> Result<()> {
    let numbers = limit_numbers(Limits::all());
    writeln!(out, "limits{}", Numbers(&numbers))
}
