// The input, read block by block, and the report of it, written out.
ghost use Rattle.std.specs.Prelude.{◌≡◌, ◌≤◌, List, ℕ, length, take, OnOk};
ghost use Rattle.std.specs.Io.KnownBytes.{Appends, Consumes};
ghost use Rattle.latency_tally.specs.Tally.{opened, taken};
ghost use Rattle.latency.specs.Reading.{Bytes, Behind, Last, Reported, Handed};
ghost use Rattle.latency.specs.Report.{report_of};

use crate::{MOST, Report};
use latency_tally::Input;
use std::io::{Read, Result, Write};

// The bytes of a full block.
const BLOCK: usize = 65536;

// The input after a block, and how many bytes the block had.
#[derive(Clone, Copy)]
struct Turn {
    input: Input,
    count: usize,
}

// The first bytes: what the read left in the buffer.
fn read_head<R: Read>(from: &mut R, buffer: &mut [u8]) -> Turn
    ensures count_in_bounds { result.count ≤ length buffer.new }
    ensures bytes { Bytes buffer.new }
    ensures input_value { result.input ≡ opened (take result.count buffer.new) }
    ensures read { Consumes (R.remaining from.old) (R.remaining from.new) (take result.count buffer.new) }
{
    let count = streams::read_full(from, buffer);
    Turn {
        input: latency_tally::open(&buffer[..count]),
        count,
    }
}

// One block behind them.
fn read_block<R: Read>(from: &mut R, input: Input, buffer: &mut [u8]) -> Turn
    ensures count_in_bounds { result.count ≤ length buffer.new }
    ensures bytes { Bytes buffer.new }
    ensures input_value { result.input ≡ taken input (take result.count buffer.new) }
    ensures read { Consumes (R.remaining from.old) (R.remaining from.new) (take result.count buffer.new) }
{
    let count = streams::read_full(from, buffer);
    Turn {
        input: latency_tally::take_block(input, &buffer[..count]),
        count,
    }
}

// The records behind the mask, up to the last block. A block that is not full is the last, and so is
// the one that passes the limit.
fn read_records<R: Read>(from: &mut R, opened: Input) -> Turn
    requires { opened.bytes ≡ 8 }
    ensures behind { (b : Behind opened result.input) × Consumes (R.remaining from.old) (R.remaining from.new) b.read }
    ensures last { Last result.input result.count }
{
    let mut buffer = io::large_buffer();
    let mut input = opened;
    while input.bytes <= MOST {
        let turn = read_block(from, input, &mut buffer);
        if turn.count < BLOCK {
            return turn;
        }
        input = turn.input;
    }
    Turn {
        input,
        count: BLOCK,
    }
}

// The mask, and what stands behind it.
fn read_input<R: Read>(from: &mut R) -> Input
    ensures { (b : Reported result) × Consumes (R.remaining from.old) (R.remaining from.new) b.read }
{
    let mut head = [0u8; 8];
    let first = read_head(from, &mut head);
    if first.count < 8 {
        return first.input;
    }
    let last = read_records(from, first.input);
    last.input
}

// A text of any length, written out.
pub fn print<W: Write>(to: &mut W, text: &[u8]) -> Result<()>
    ensures { OnOk result (Appends (W.contents to.old) (W.contents to.new) text.now) }
{
    to.write_all(text)
}

// The report of what is read.
fn answer<R: Read>(from: &mut R) -> Report
    ensures { (h : Handed result) × Consumes (R.remaining from.old) (R.remaining from.new) h.read }
{
    crate::report(read_input(from))
}

// Writes a report, and nothing that is none.
fn hand_out<W: Write>(to: &mut W, s: &[u8]) -> Result<()>
    requires { Handed s.now }
    ensures { OnOk result (Appends (W.contents to.old) (W.contents to.new) s.now) }
{
    to.write_all(s)
}

// The whole program. Where all was written, it is the report of the bytes read.
pub fn run<R: Read, W: Write>(from: &mut R, to: &mut W) -> Result<()>
    ensures { OnOk result ((read : List ℕ) × Consumes (R.remaining from.old) (R.remaining from.new) read
        × Appends (W.contents to.old) (W.contents to.new) (report_of read)) }
{
    let text = answer(from);
    hand_out(to, text.as_slice())
}
