// The replay program: the lines of a script are described parts, calls on one card and the guest's
// writes to the memory lent; each call is answered by a line of standard output. A line leaves its text
// in a buffer, which `session` writes out.
#![tactic(auto)]

ghost use Rattle.std.specs.Prelude.{◌≡◌, ◌≤◌, min, length};
ghost use Rattle.card.specs.Rules.{powered_of};
ghost use Rattle.decimal.specs.Write.{Put};
ghost use Rattle.lines.specs.Lines.{lines_of};
ghost use Rattle.meaning.specs.Fit.{Fit};
ghost use Rattle.replay_text.specs.Text.{answer_bytes};
ghost use Rattle.replay_run.specs.Session.{world_of, first_world, powered_world, called_world, called_text};
ghost use Rattle.replay_run.specs.Session.{step_world, step_text, session_world, Steps};

use card::Card;
use description::Description;
use replay_line::{Call, Line, MAX_RAM};
use std::io::{Read, Write};

// The answer to a line that can't be read, and to a call with no card.
const UNREADABLE: u8 = 99;

// The longest script.
const MAX_SCRIPT: usize = 1_048_576;

// Lines so far, bytes lent, whether the last power-up was answered 0, what is described for the next
// one, and the card.
#[derive(Clone, Copy)]
struct State {
    line: u64,
    len: usize,
    powered: bool,
    described: Description,
    card: Card,
}

fn script_buffer() -> [u8; 1048577] {
    [0; 1048577]
}

fn ram_buffer() -> [u8; 1048576] {
    [0; 1048576]
}

// Room for the longest text of a line: a number, 65,536 bytes in HEX, a line feed.
fn text_buffer() -> [u8; 131096]
    ensures { 131096 ≡ length result }
{
    [0; 131096]
}

// `LINE ANSWER`, written to the start of `out`. The place behind it.
fn answer(line: u64, answer: u8, out: &mut [u8]) -> usize
    requires { 131096 ≤ length out.old }
    ensures { Put (answer_bytes line answer) out.old 0 out.new result × (result ≤ 147) }
{
    let text = replay_text::answer_text(line, answer);
    replay_text::lay(text.as_slice(), out)
}

impl State {
    // Before the first line: no card, and no memory lent.
    fn first(ram: &[u8]) -> State
        ensures { (world_of result ram.now ≡ first_world ram.now) × Fit result.card }
    {
        State {
            line: 0,
            len: 0,
            powered: false,
            described: description::nothing(),
            card: calls::power_up(description::nothing(), 0).card,
        }
    }

    // Power-up with the description so far and `n` bytes of RAM, all zero. The place behind the line's text.
    fn power(&mut self, n: usize, ram: &mut [u8], out: &mut [u8]) -> usize
        requires { 131096 ≤ length out.old }
        ensures { Steps (powered_world (min n (length ram.old)) (world_of self.old ram.old))
            (answer_bytes self.old.line (powered_of self.old.described (min n (length ram.old))).answer)
            out.old ram.new out.new self.new result }
    {
        let len = replay_memory::within(n, ram);
        replay_memory::fill(ram, 0, MAX_RAM, 0);
        let powered = calls::power_up(self.described, len);
        self.len = len;
        self.powered = powered.answer == 0;
        self.described = description::nothing();
        self.card = powered.card;
        answer(self.line, powered.answer, out)
    }

    // A call with no card can't be made. The place behind the line's text.
    fn call_line(&mut self, call: Call, s: &[u8], ram: &mut [u8], out: &mut [u8]) -> usize
        requires { Fit self.old.card × (131096 ≤ length out.old) }
        ensures { Steps (called_world call s.now (world_of self.old ram.old))
            (called_text call s.now (world_of self.old ram.old))
            out.old ram.new out.new self.new result }
    {
        if !self.powered {
            return answer(self.line, UNREADABLE, out);
        }
        let lent = replay_memory::within(self.len, ram);
        let shown = replay_call::call(self.card, self.line, call, s, &mut ram[..lent]);
        self.card = shown.card;
        replay_text::lay(shown.text.as_slice(), out)
    }

    // One line of the script, whose text goes to the start of `out`. The place behind it.
    fn step(&mut self, s: &[u8], ram: &mut [u8], out: &mut [u8]) -> usize
        requires { Fit self.old.card × (131096 ≤ length out.old) }
        ensures { Steps (step_world (world_of self.old ram.old) s.now)
            (step_text (world_of self.old ram.old) s.now)
            out.old ram.new out.new self.new result }
    {
        self.line = self.line.wrapping_add(1);
        match replay_line::read_line(s) {
            None => answer(self.line, UNREADABLE, out),
            Some(Line::Skipped) => 0,
            Some(Line::Described(part)) => {
                self.described = replay_description::with_part(self.described, part, s);
                0
            }
            Some(Line::Power(n)) => self.power(n, ram, out),
            Some(Line::Called(call)) => self.call_line(call, s, ram, out),
            Some(Line::Lent(guest)) => {
                let touched = replay_memory::touch(guest, self.line, s, ram, self.len, out);
                self.len = touched.len;
                touched.end
            }
        }
    }
}

// The lines of a script, one after the other, on the memory that is lent: each is done, and what it
// left in `out` is written out. The last state.
fn session<W: Write>(output: &mut W, s: &[u8], ram: &mut [u8], out: &mut [u8]) -> State
    requires { 131096 ≤ length out.old }
    ensures { (world_of result ram.new ≡ session_world (first_world ram.old) (lines_of s.now))
        × Fit result.card }
{
    let mut state = State::first(ram);
    let mut at = 0;
    while at < s.len() {
        let line_end = lines::line_end(s, at);
        let end = state.step(&s[at..line_end], ram, out);
        streams::write_all(output, &out[..end]);
        at = lines::behind(s, line_end);
    }
    state
}

// The whole program: a script longer than the limit prints one line and nothing else.
pub fn run<R: Read, W: Write>(input: &mut R, output: &mut W) {
    let mut script = script_buffer();
    let mut ram = ram_buffer();
    let mut out = text_buffer();
    let count = streams::read_full(input, &mut script);
    if MAX_SCRIPT < count {
        let end = answer(0, UNREADABLE, &mut out);
        streams::write_all(output, &out[..end]);
        return;
    }
    session(output, &script[..count], &mut ram, &mut out);
}
