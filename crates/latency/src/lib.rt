// The latency report: from the input's bytes to the one or two lines that are printed.
#![tactic(auto)]

ghost use Rattle.std.specs.Prelude.{◌≡◌, ◌+◌, ◌≤◌, ◌++◌, length};
ghost use Rattle.latency.specs.Report.{three_text, counts_text, mean_text, latencies_text, mask_text, lines_text, refusal_text, input_text};

mod input;

pub use input::{print, run};
use latency_tally::{Input, Tally};

// The bytes of a mask, and of an input of 1,000,000 records.
const MASK: u64 = 8;

const MOST: u64 = 8000008;

// The refusals.
const NO_MASK: u64 = 50;

const TOO_MANY: u64 = 51;

const CUT: u64 = 52;

// The text that a report is put together in.
pub type Text = text::Text<256>;

// No report is longer than 231 bytes.
pub type Report = Text;

// Three numbers, a space behind each.
#[tactic(auto, unfolding(crate::specs::Report::three_text))]
fn push_three(text: &mut Report, a: u64, b: u64, c: u64)
    requires { length text.old + 63 ≤ 256 }
    ensures value { text.new ≡ text.old ++ three_text a b c }
    ensures longer { length text.new ≤ length text.old + 63 }
{
    text.push_number(a, b' ');
    text.push_number(b, b' ');
    text.push_number(c, b' ');
}

// How many records there are, and how many of each kind.
#[tactic(auto, unfolding(crate::specs::Report::counts_text))]
fn push_counts(text: &mut Report, records: u64, tally: Tally)
    requires { length text.old + 84 ≤ 256 }
    ensures value { text.new ≡ text.old ++ counts_text records tally }
    ensures longer { length text.new ≤ length text.old + 84 }
{
    text.push_number(records, b' ');
    push_three(
        text,
        u64::from(tally.ok),
        u64::from(tally.io_err),
        u64::from(tally.others),
    );
}

// A sum over a count, in lowest terms.
#[tactic(auto, unfolding(crate::specs::Report::mean_text))]
fn push_mean(text: &mut Report, sum: u64, count: u64)
    requires { length text.old + 42 ≤ 256 }
    ensures value { text.new ≡ text.old ++ mean_text sum count }
    ensures longer { length text.new ≤ length text.old + 42 }
{
    let mean = fraction::lowest_terms(sum, count);
    text.push_number(mean.above, b'/');
    text.push_number(mean.below, b'\n');
}

// Smallest, largest and summed latency, and the mean.
#[tactic(auto, unfolding(crate::specs::Report::latencies_text))]
fn push_latencies(text: &mut Report, tally: Tally)
    requires { length text.old + 105 ≤ 256 }
    ensures value { text.new ≡ text.old ++ latencies_text tally }
    ensures longer { length text.new ≤ length text.old + 105 }
{
    if tally.ok == 0 {
        text.push_bytes(b"- - - -\n");
        return;
    }
    push_three(
        text,
        u64::from(tally.smallest),
        u64::from(tally.largest),
        tally.sum,
    );
    push_mean(text, tally.sum, u64::from(tally.ok));
}

// The lowest bit of the mask, and how many are set.
#[tactic(auto, unfolding(crate::specs::Report::mask_text))]
fn push_mask(text: &mut Report, mask: u64)
    requires { length text.old + 42 ≤ 256 }
    ensures value { text.new ≡ text.old ++ mask_text mask }
    ensures longer { length text.new ≤ length text.old + 42 }
{
    if mask == 0 {
        text.push_bytes(b"- 0\n");
        return;
    }
    text.push_number(u64::from(format_mask::lowest(mask)), b' ');
    text.push_number(u64::from(format_mask::count(mask)), b'\n');
}

// Both lines.
#[tactic(auto, unfolding(crate::specs::Report::lines_text))]
fn lines(records: u64, tally: Tally, mask: u64) -> Report
    ensures value { result ≡ lines_text records tally mask }
    ensures most { length result ≤ 231 }
{
    let mut text = Report::new();
    push_counts(&mut text, records, tally);
    push_latencies(&mut text, tally);
    push_mask(&mut text, mask);
    text
}

// One line with the number.
#[tactic(auto, unfolding(crate::specs::Report::refusal_text))]
fn refusal(number: u64) -> Report
    ensures value { result ≡ refusal_text number }
    ensures most { length result ≤ 231 }
{
    let mut text = Report::new();
    text.push_number(number, b'\n');
    text
}

// The report of an input.
#[tactic(auto, unfolding(crate::specs::Report::input_text, crate::specs::Report::judged))]
pub fn report(input: Input) -> Report
    ensures value { result ≡ input_text input }
    ensures most { length result ≤ 231 }
{
    let bytes = input.bytes;
    if bytes < MASK {
        return refusal(NO_MASK);
    }
    if MOST < bytes {
        return refusal(TOO_MANY);
    }
    if bytes % 8 != 0 {
        return refusal(CUT);
    }
    lines((bytes - MASK) / 8, input.tally, input.mask)
}
