// A line of the access program, read from its bytes: "r OFF W" or "w OFF W VAL"; and the type of a line
// that is collected byte by byte, for a program that reads its input in blocks.
#![tactic(auto)]

ghost use Rattle.std.specs.Prelude.{◌≡◌, drop};
ghost use Rattle.access_line.specs.Line.{line_of, at_end, read_form, write_form};
ghost use Rattle.decimal.specs.Read.{field_at};

use decimal::{DIGITS, GREATEST};
use text::Text;

// A read or a write of a register.
#[derive(Clone, Copy)]
pub enum Access {
    Read { offset: u64, width: u64 },
    Write { offset: u64, width: u64, value: u64 },
}

// A space at `at`, the number behind it, and the place behind that.
fn field_at(s: &[u8], at: usize) -> Option<(u64, usize)>
    ensures { result ≡ field_at s.now at 10 9999999999 }
{
    decimal::field_at(s, at, DIGITS, GREATEST)
}

// The access that was read up to `end`, if nothing follows.
#[tactic(auto, using(crate::proofs::Laws::ended_at))]
fn at_end(s: &[u8], end: usize, access: Access) -> Option<Access>
    ensures { result ≡ at_end (drop end s.now) access }
{
    (s.len() <= end).then_some(access)
}

// What follows an `r`.
#[tactic(auto, using(crate::proofs::Laws::read_form_is))]
fn read_form(s: &[u8]) -> Option<Access>
    ensures { result ≡ read_form (drop 1 s.now) }
{
    let (offset, a) = field_at(s, 1)?;
    let (width, b) = field_at(s, a)?;
    at_end(s, b, Access::Read { offset, width })
}

// What follows a `w`.
#[tactic(auto, using(crate::proofs::Laws::write_form_is))]
fn write_form(s: &[u8]) -> Option<Access>
    ensures { result ≡ write_form (drop 1 s.now) }
{
    let (offset, a) = field_at(s, 1)?;
    let (width, b) = field_at(s, a)?;
    let (value, c) = field_at(s, b)?;
    at_end(
        s,
        c,
        Access::Write {
            offset,
            width,
            value,
        },
    )
}

// What the line whose bytes, without the line feed, are `s` asks for; none where it can't be read.
#[tactic(auto, using(crate::proofs::Laws::line_letter))]
pub fn read_line(s: &[u8]) -> Option<Access>
    ensures { result ≡ line_of s.now }
{
    match s {
        [b'r', ..] => read_form(s),
        [b'w', ..] => write_form(s),
        _ => None,
    }
}

// A line that is being collected. One longer than 40 bytes is cut there, and reads the same: no line of
// more than 34 bytes can be read.
pub type Collected = Text<40>;
