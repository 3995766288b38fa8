// The access program of 01: the lines of standard input are register reads and writes on one card;
// each is answered by a line of standard output. The input is taken in blocks; what a block says is done
// on the card's small state, and its answers are left in a buffer, which `run` writes out.
#![tactic(auto)]

ghost use Rattle.std.specs.Prelude.{◌≡◌, ◌+◌, ◌*◌, ◌≤◌, List, ℕ, true, length, take};
ghost use Rattle.std.specs.Io.KnownBytes.{Appends, Consumes};
ghost use mathlib.Core.List.{foldl};
ghost use Rattle.live.specs.Live.{FitLive};
ghost use Rattle.decimal.specs.Write.{Put};
ghost use Rattle.access_run.specs.Answers.{panel, act_of, answer_text, printed};
ghost use Rattle.access_run.specs.Session.{first_session, acted, line_ended, line_text, fed, fed_text, block_text};
ghost use Rattle.access_run.specs.Session.{rest_text, taken_text, Takes};

use access_line::{Access, Collected};
use description::{Description, StreamInfo};
use live::Live;
use std::io::{Read, Write};

// The answer to a line that can't be read.
const UNREADABLE: u8 = 99;

// The bytes of the card's RAM.
const RAM_LENGTH: usize = 65536;

// More blocks than any input has: the loop over them ends here, whatever is read.
const BLOCKS: u64 = u64::MAX;

// What a line did: the small state after it, and what is printed.
#[derive(Clone, Copy)]
struct Acted {
    live: Live,
    answer: u8,
    value: u32,
}

// The card's small state, the line that is being collected, and how many lines came before it.
#[derive(Drop)]
struct Session {
    live: Live,
    line: Collected,
    lines: u64,
}

// What a read of the input brought: how many bytes, and the place behind the text that they left. None is
// the input's end.
#[derive(Clone, Copy)]
struct Taken {
    count: usize,
    end: usize,
}

// Room for the answers to a block of 4,096 bytes.
fn text_buffer() -> [u8; 262144]
    ensures { 262144 ≡ length result }
{
    [0; 262144]
}

// Stream 0 only: an output of 16-bit samples at 48,000 a second, mono or stereo.
fn description() -> Description
    ensures { result ≡ panel }
{
    let output = StreamInfo {
        nid: 0,
        features: 0,
        formats: 32,
        rates: 128,
        channels_min: 1,
        channels_max: 2,
    };
    let mut panel = description::nothing();
    panel.output_count = 1;
    panel.streams[0] = output;
    panel
}

// One line, done on the card.
fn act(live: Live, line: Option<Access>) -> Acted
    requires { FitLive live }
    ensures { (result ≡ act_of live line) × FitLive result.live }
{
    match line {
        Some(Access::Read { offset, width }) => {
            let read = live::read(live, offset, width);
            Acted {
                live: read.live,
                answer: read.answer,
                value: read.value,
            }
        }
        Some(
            Access::Write {
                offset,
                width,
                value,
            },
        ) => {
            let written = live::write(live, offset, width, value);
            Acted {
                live: written.live,
                answer: written.answer,
                value: 0,
            }
        }
        None => Acted {
            live,
            answer: UNREADABLE,
            value: 0,
        },
    }
}

// The line that is printed, "line number, answer, value", written to `out` from `at` on. The place
// behind it.
fn put_answer(out: &mut [u8], at: usize, number: u64, answer: u8, value: u32) -> usize
    requires { at + 63 ≤ length out.old }
    ensures { Put (answer_text number answer value) out.old at out.new result × (result ≤ at + 63) }
{
    let numbered = decimal::put(out, at, number, b' ');
    let answered = decimal::put(out, numbered, answer as u64, b' ');
    decimal::put(out, answered, value as u64, b'\n')
}

impl Session {
    // The card at power-up, and no line yet.
    fn first() -> Session
        ensures { (result ≡ first_session) × FitLive result.live }
    {
        Session {
            live: live::power_up(description(), RAM_LENGTH).board.live,
            line: Collected::new(),
            lines: 0,
        }
    }

    // What the line collected does.
    fn acted(&self) -> Acted
        requires { FitLive self.now.live }
        ensures { (result ≡ acted self.now) × FitLive result.live }
    {
        act(self.live, access_line::read_line(self.line.as_slice()))
    }

    // The line collected is whole: it is done and answered. The place behind the answer.
    fn end_line(&mut self, out: &mut [u8], at: usize) -> usize
        requires { FitLive self.old.live × (at + 63 ≤ length out.old) }
        ensures { Takes (line_ended self.old) (line_text self.old) out.old at out.new self.new result × (result ≤ at + 63) }
    {
        let acted = self.acted();
        self.live = acted.live;
        self.line = Collected::new();
        self.lines = self.lines.wrapping_add(1);
        put_answer(out, at, self.lines, acted.answer, acted.value)
    }

    // One byte of the input: a line feed ends a line. The place behind what it left.
    fn feed(&mut self, b: u8, out: &mut [u8], at: usize) -> usize
        requires { FitLive self.old.live × (at + 63 ≤ length out.old) }
        ensures { Takes (fed self.old b) (fed_text self.old b) out.old at out.new self.new result × (result ≤ at + 63) }
    {
        if b == b'\n' {
            self.end_line(out, at)
        } else {
            self.line.push(b);
            at
        }
    }

    // A block of input, whose answers go to the start of `out`. The place behind them.
    fn feed_all(&mut self, bytes: &[u8], out: &mut [u8]) -> usize
        requires { FitLive self.old.live × (63 * length bytes.now ≤ length out.old) }
        ensures { Takes (foldl fed self.old bytes.now) (block_text self.old bytes.now) out.old 0 out.new self.new result
            × (result ≤ length out.new) }
    {
        let mut end = 0;
        for b in bytes {
            end = self.feed(*b, out, end);
        }
        end
    }

    // The input has ended: what follows the last line feed is a line if it is not empty. The place behind
    // its answer.
    fn finish(&self, out: &mut [u8]) -> usize
        requires { FitLive self.now.live × (63 ≤ length out.old) }
        ensures { Put (rest_text self.now) out.old 0 out.new result × (result ≤ 63) }
    {
        if self.line.is_empty() {
            return 0;
        }
        let acted = self.acted();
        put_answer(
            out,
            0,
            self.lines.wrapping_add(1),
            acted.answer,
            acted.value,
        )
    }

    // One read of the input into `block`, done and answered; nothing read is its end.
    fn take_block<R: Read>(&mut self, input: &mut R, block: &mut [u8], out: &mut [u8]) -> Taken
        requires { FitLive self.old.live × (63 + 63 * length block.old ≤ length out.old) }
        ensures told { Takes (foldl fed self.old (take result.count block.new)) (taken_text self.old result.count block.new)
            out.old 0 out.new self.new result.end
            × (result.end ≤ length out.new) }
        ensures read { Consumes (R.remaining input.old) (R.remaining input.new) (take result.count block.new) }
    {
        let count = streams::read_some(input, block);
        let end = if count == 0 {
            self.finish(out)
        } else {
            self.feed_all(&block[..count], out)
        };
        Taken { count, end }
    }
}

// The whole program: each block is taken, and what it left in `out` is written out. Answers whether all was: then what was written is what
// the bytes read are answered by.
pub fn run<R: Read, W: Write>(input: &mut R, output: &mut W) -> bool
    ensures { result ≡ true → (read : List ℕ) × Consumes (R.remaining input.old) (R.remaining input.new) read
        × Appends (W.contents output.old) (W.contents output.new) (printed read) }
{
    let mut session = Session::first();
    let mut block = io::buffer();
    let mut out = text_buffer();
    'reads: for _ in 0..BLOCKS {
        let taken = session.take_block(input, &mut block, &mut out);
        if !streams::write_all(output, &out[..taken.end]) {
            return false;
        }
        if taken.count == 0 {
            return true;
        }
    }
    false
}
