// A program's argument that is a number: 1 to 10 decimal digits and nothing else.
#![tactic(auto)]

ghost use Rattle.std.specs.Prelude.{◌≡◌};
ghost use Rattle.argument.specs.Number.{number_of};

use decimal::{DIGITS, GREATEST};

// The number that an argument is.
#[tactic(auto, using(crate::proofs::Laws::number_read))]
pub fn read_number(s: &[u8]) -> Option<u64>
    ensures { result ≡ number_of s.now }
{
    let (v, end) = decimal::number_at(s, 0, DIGITS, GREATEST)?;
    if end < s.len() { None } else { Some(v) }
}
