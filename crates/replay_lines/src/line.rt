// Lines, each put behind a text in memory of a fixed size.
ghost use Rattle.std.specs.Prelude.{◌≡◌, ◌+◌, ◌≤◌, ◌++◌, [], ◌∷◌, length};
ghost use Rattle.base.specs.Text.{decimal as decimal_of};
ghost use Rattle.replication.specs.Replay.{mode_name, header, line, setup_line};
ghost use Rattle.image.specs.Decode.{mode_named};
ghost use Rattle.replay_lines.specs.Lines.{Put, line_room, spaced, ended, pair_text, shown_line};

use arrayvec::ArrayString;
use itoa::Buffer;
use record::State;

// The most bytes that a line takes.
pub const LINE_ROOM: usize = 164;

fn push_number<const N: usize>(out: &mut ArrayString<N>, v: u64)
    requires { length out.old.bytes + 20 ≤ N }
    ensures { Put (decimal_of v) 20 out.old.bytes out.new.bytes }
{
    let mut digits = Buffer::new();
    out.push_str(digits.format(v));
}

// A number and a space.
fn push_spaced<const N: usize>(out: &mut ArrayString<N>, v: u64)
    requires { length out.old.bytes + 21 ≤ N }
    ensures { Put (spaced (decimal_of v)) 21 out.old.bytes out.new.bytes }
{
    push_number(out, v);
    out.push_str(" ");
}

// A number, and the line's end.
fn push_last<const N: usize>(out: &mut ArrayString<N>, v: u64)
    requires { length out.old.bytes + 21 ≤ N }
    ensures { Put (ended (decimal_of v)) 21 out.old.bytes out.new.bytes }
{
    push_number(out, v);
    out.push_str("\n");
}

fn push_pair<const N: usize>(out: &mut ArrayString<N>, v: u64, w: u64)
    requires { length out.old.bytes + 42 ≤ N }
    ensures { Put (pair_text v w) 42 out.old.bytes out.new.bytes }
{
    push_spaced(out, v);
    push_spaced(out, w);
}

// The name of the state that has this byte; Non_prim's of a byte that no state has.
fn name_of(mode: u8) -> &'static str
    ensures text { result.now ≡ mode_name (mode_named mode) }
    ensures fits { length result.now ≤ 16 }
{
    match mode {
        State::REG_PRIM => "Reg_prim",
        State::TRANS_PRIM => "Trans_prim",
        State::EXCHANGE_STATES => "Exchange_states",
        State::EXCHANGE_ACTIONS => "Exchange_actions",
        State::CONSTRUCT => "Construct",
        State::NO => "No",
        State::UN => "Un",
        _ => "Non_prim",
    }
}

// The state's name and a space.
fn push_mode<const N: usize>(out: &mut ArrayString<N>, mode: u8)
    requires { length out.old.bytes + 17 ≤ N }
    ensures { Put (spaced (mode_name (mode_named mode))) 17 out.old.bytes out.new.bytes }
{
    out.push_str(name_of(mode));
    out.push_str(" ");
}

// What an event's line shows.
#[derive(Clone, Copy)]
pub struct Shown {
    pub number: u64,
    pub server: u64,
    pub returned: u64,
    pub mode: u8,
    pub red: u64,
    pub green: u64,
    pub prim: u64,
    pub sent: u64,
}

impl Shown {
    // The event's line.
    pub fn push_line<const N: usize>(&self, out: &mut ArrayString<N>)
        requires { length out.old.bytes + line_room ≤ N }
        ensures { Put (shown_line self.now) line_room out.old.bytes out.new.bytes }
    {
        push_pair(out, self.number, self.server);
        push_spaced(out, self.returned);
        push_mode(out, self.mode);
        push_pair(out, self.red, self.green);
        push_spaced(out, self.prim);
        push_last(out, self.sent);
    }
}

// The line above the events' lines.
pub fn header() -> &'static str
    ensures { result.now ≡ header }
{
    "event server returned state red green prim sent\n"
}

// A word and a number: "prints `input` and 2 or 1".
pub fn push_refusal<const N: usize>(out: &mut ArrayString<N>, word: &str, number: u32)
    requires { length out.old.bytes + (length word.now + 22) ≤ N }
    ensures { Put (line (word.now ∷ decimal_of number ∷ [])) (length word.now + 22) out.old.bytes out.new.bytes }
{
    out.push_str(word);
    out.push_str(" ");
    push_last(out, u64::from(number));
}

// "prints `setup` and its number (1 or 2)"
pub fn push_setup_line<const N: usize>(out: &mut ArrayString<N>, number: u32)
    requires { length out.old.bytes + 27 ≤ N }
    ensures { Put (setup_line number) 27 out.old.bytes out.new.bytes }
{
    push_refusal(out, "setup", number);
}
