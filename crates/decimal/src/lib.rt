// Numbers in decimal: read from a line by their place in it, and written into a text.
#![tactic(auto)]

ghost use Rattle.std.specs.Prelude.{◌≡◌, ◌+◌, ◌≤◌, IfSome, length};
ghost use Rattle.decimal.specs.Read.{is_digit, number_at, field_at};
ghost use Rattle.decimal.specs.Write.{field_of, Put};

// The most digits of a number in a program's arguments and in a line of the access program, and the
// greatest number that they write.
pub const DIGITS: usize = 10;

pub const GREATEST: u64 = 9_999_999_999;

#[tactic(auto, unfolding(crate::specs::Read::is_digit))]
pub fn is_digit(b: u8) -> bool
    ensures { result ≡ is_digit b }
{
    b.is_ascii_digit()
}

// The number of at most `most` digits and at most `max` whose first digit stands at `at`, and the place
// behind its last digit.
pub fn number_at(s: &[u8], at: usize, most: usize, max: u64) -> Option<(u64, usize)>
    ensures value { result ≡ number_at s.now at most max }
    ensures most { IfSome result (λ n. n.0 ≤ max) }
{
    if s.len() <= at || !is_digit(s[at]) {
        return None;
    }
    let mut v: u64 = 0;
    for i in at..s.len() {
        let b = s[i];
        if !is_digit(b) {
            return Some((v, i));
        }
        // a digit too many
        if most <= i - at {
            return None;
        }
        v = v.checked_mul(10)?.checked_add(u64::from(b - b'0'))?;
        if max < v {
            return None;
        }
    }
    Some((v, s.len()))
}

// A space at `at`, and the number behind it.
#[tactic(auto, unfolding(crate::specs::Read::field_at))]
pub fn field_at(s: &[u8], at: usize, most: usize, max: u64) -> Option<(u64, usize)>
    ensures value { result ≡ field_at s.now at most max }
    ensures most { IfSome result (λ n. n.0 ≤ max) }
{
    if at < s.len() && s[at] == b' ' {
        number_at(s, at + 1, most, max)
    } else {
        None
    }
}

// These bytes, written to `out` from `at` on. The place behind them.
pub fn put_bytes(out: &mut [u8], at: usize, bytes: &[u8]) -> usize
    requires { at + length bytes.now ≤ length out.old }
    ensures { Put bytes.now out.old at out.new result }
{
    let end = at + bytes.len();
    out[at..end].copy_from_slice(bytes);
    end
}

// A number in decimal and the byte `end`, written to `out` from `at` on. The place behind them, which
// is at most 21 further on.
pub fn put(out: &mut [u8], at: usize, n: u64, end: u8) -> usize
    requires { at + 21 ≤ length out.old }
    ensures { Put (field_of n end) out.old at out.new result × (result ≤ at + 21) }
{
    let mut digits = [0u8; 20];
    let count = io::decimal(n, &mut digits);
    let behind = put_bytes(out, at, &digits[..count]);
    out[behind] = end;
    behind + 1
}
