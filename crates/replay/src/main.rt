// Replays events at a table of servers: the set-up record and the events come on standard input, a line for each event goes to
// standard output.
#![tactic(auto)]

ghost use Rattle.std.specs.Prelude.{◌≡◌, ◌≤◌, ◌<◌, length};
ghost use Rattle.replay.specs.Parts.{part_of, Printed, PrintsReplay};
ghost use Rattle.replay.specs.Reading.{input_room, lines_room, Fed, Refilled};
ghost use Rattle.replay.specs.Advancing.{Advanced, Served, ServesReplay};

mod input; // input.rt: what is there of the input

use arrayvec::ArrayString;
use input::{INPUT_ROOM, Input};
use octets::blocks::copy;
use replay_lines::line::{header, push_setup_line};
use replay_lines::setup::Setup;
use replay_turns::{Going, Replay};
use std::io::{Read, Stdin};

// Lines that are written at once.
const LINES_ROOM: usize = 16384;

// The `setup` line.
const HEAD_ROOM: usize = 64;

// Every whole event of the input: one write for each pass. How many bytes were taken, where there may be more.
fn print_part(replay: &mut Replay, input: &[u8], ended: bool) -> Option<usize>
    ensures printed { Printed (part_of lines_room replay.old.table replay.old.servers replay.old.event input.now ended)
        replay.new.table replay.new.event result }
    ensures servers { replay.new.servers ≡ replay.old.servers }
    ensures fed { Fed result input.now }
{
    let mut lines = ArrayString::<LINES_ROOM>::new();
    let mut taken = 0;
    loop {
        lines.clear();
        let turn = replay.pass(&input[taken..], ended, &mut lines);
        io::write_all(1, lines.as_str().as_bytes());
        taken += turn.taken;
        match turn.going {
            Going::On => {}
            Going::Read => return Some(taken),
            Going::Stop => return None,
        }
    }
}

// What is read at once; a read that fails ends the input.
fn read_some(mut stdin: Stdin, room: &mut [u8]) -> usize
    ensures { result ≤ length room.new }
{
    stdin.read(room).unwrap_or(0)
}

impl Input {
    // These bytes, and behind them what is read at once.
    fn refill(stdin: Stdin, old: &[u8]) -> Input
        requires { length old.now < input_room }
        ensures { Refilled old.now result }
    {
        let mut bytes: [u8; INPUT_ROOM] = [0; INPUT_ROOM];
        let m = old.len();
        copy(&mut bytes, 0, old);
        let n = read_some(stdin, &mut bytes[m..]);
        Input {
            bytes,
            count: m + n,
            ended: n == 0,
        }
    }
}

// Where the program stands between two reads: the servers, and what is there of the input.
#[derive(Clone, Copy, Drop)]
struct Standing {
    replay: Replay,
    input: Input,
}

impl Standing {
    // The events that are there, and then what is read at once; whether there may be more.
    fn advance(&mut self, stdin: Stdin) -> bool
        ensures { Advanced self.old self.new result }
    {
        let input = &self.input;
        let there = &input.bytes[..input.count];
        match print_part(&mut self.replay, there, input.ended) {
            Some(taken) => {
                self.input = Input::refill(stdin, &there[taken..]);
                true
            }
            None => false,
        }
    }
}

// Events from the input's start on, until it ends or is wrong: where the program stands then, and whether there may be more.
fn serve(stdin: Stdin, setup: Setup) -> (Standing, bool)
    ensures { Served setup.servers setup.quota result.0 result.1 }
{
    let mut standing = Standing {
        replay: Replay::new(setup),
        input: Input::refill(stdin, b""),
    };
    // Bounds how often is read: every input ends before that.
    for _left in 0..u64::MAX {
        if !standing.advance(stdin) {
            return (standing, false);
        }
    }
    (standing, true)
}

// However the input is cut into parts, what is printed of them is what document 01 says.
fn prints_replay()
    ensures { PrintsReplay }
{}

// So is what `serve` has printed where it ends, behind the header.
fn serves_replay()
    ensures { ServesReplay }
{}

fn main(rt: HostRuntime) {
    prints_replay();
    serves_replay();
    let mut head: [u8; Setup::SIZE] = [0; Setup::SIZE];
    let n = io::read_full(0, &mut head);
    match Setup::read(&head[..n]) {
        Ok(setup) => {
            io::write_all(1, header().as_bytes());
            serve(rt.stdin(), setup);
        }
        Err(refusal) => {
            let mut line = ArrayString::<HEAD_ROOM>::new();
            push_setup_line(&mut line, u32::from(refusal));
            io::write_all(1, line.as_str().as_bytes());
        }
    }
}
