// The words of a script line: numbers and HEX, found by their place in the line. A word of HEX stays in
// the line, and `pour_hex` writes its bytes.
#![tactic(auto)]

ghost use Rattle.std.specs.Prelude.{◌≡◌, ◌<◌, ◌≤◌, IfSome, drop};
ghost use Rattle.replay_field.specs.Number.{field_at, pair_at, size_at};
ghost use Rattle.replay_field.specs.Hex.{is_hex_digit, every_hex_digit, is_hex, hex_at, nibble, bytes_of_hex, poured};
ghost use Rattle.replay_field.specs.Word.{begins};

// "1 to 20 decimal digits"
const DIGITS: usize = 20;

// HEX that ends the line: the place of its first character, and how many bytes it is.
#[derive(Clone, Copy)]
pub struct Hex {
    pub place: usize,
    pub count: usize,
}

// A space at `at`, the number behind it, and the place behind that.
pub fn field_at(s: &[u8], at: usize, max: u64) -> Option<(u64, usize)>
    ensures value { result ≡ field_at s.now at max }
    ensures most { IfSome result (λ n. n.0 ≤ max) }
{
    decimal::field_at(s, at, DIGITS, max)
}

// Two fields, one behind the other, and the place behind them.
#[tactic(auto, unfolding(crate::specs::Number::pair_at))]
pub fn pair_at(s: &[u8], at: usize, max: u64) -> Option<(u64, u64, usize)>
    ensures value { result ≡ pair_at s.now at max }
    ensures most { IfSome result (λ n. (n.0 ≤ max) × (n.1 ≤ max)) }
{
    let (a, next) = field_at(s, at, max)?;
    let (b, end) = field_at(s, next, max)?;
    Some((a, b, end))
}

// A field that ends the line.
#[tactic(auto, unfolding(crate::specs::Number::size_at))]
pub fn size_at(s: &[u8], at: usize, max: u64) -> Option<usize>
    ensures { result ≡ size_at s.now at max }
{
    let (n, end) = field_at(s, at, max)?;
    if end < s.len() {
        None
    } else {
        Some(n as usize)
    }
}

#[tactic(auto, unfolding(crate::specs::Hex::is_hex_digit, decimal::specs::Read::is_digit))]
fn is_hex_digit(b: u8) -> bool
    ensures { result ≡ is_hex_digit b }
{
    matches!(b, b'0'..=b'9' | b'a'..=b'f')
}

#[tactic(auto, unfolding(crate::specs::Hex::every_hex_digit))]
fn every_hex_digit(t: &[u8]) -> bool
    ensures { result ≡ every_hex_digit t.now }
{
    t.iter().all(|b| is_hex_digit(*b))
}

// Whether all of `t` is one word of HEX.
#[tactic(auto, unfolding(crate::specs::Hex::is_hex))]
fn is_hex(t: &[u8]) -> bool
    ensures { result ≡ is_hex t.now }
{
    match t {
        [] => false,
        [b] => *b == b'-',
        _ => t.len() % 2 == 0 && every_hex_digit(t),
    }
}

// A space at `at`, and HEX behind it up to the line's end.
#[tactic(auto, using(std::proofs::lemmas::List::take_rest), unfolding(crate::specs::Hex::hex_at))]
pub fn hex_at(s: &[u8], at: usize) -> Option<Hex>
    ensures { result ≡ hex_at s.now at }
{
    if at < s.len() && s[at] == b' ' && is_hex(&s[at + 1..]) {
        Some(Hex {
            place: at + 1,
            count: (s.len() - (at + 1)) / 2,
        })
    } else {
        None
    }
}

// The value of a digit of HEX.
#[tactic(auto, unfolding(crate::specs::Hex::nibble))]
fn digit_value(b: u8) -> u8
    ensures { (result ≡ nibble b) × (result < 16) }
{
    match b {
        b'0'..=b'9' => b - b'0',
        b'a'..=b'f' => b - b'a' + 10,
        _ => 0,
    }
}

// The bytes that the rest of a line from `at` is in HEX, written to `m` at `to`; what lies past the
// end of `m` is dropped.
pub fn pour_hex(s: &[u8], at: usize, m: &mut [u8], to: usize)
    ensures { m.new ≡ poured (bytes_of_hex (drop at s.now)) m.old to }
{
    let mut rest = &s[at.min(s.len())..];
    for d in to..m.len() {
        let [high, low, tail @ ..] = rest else {
            return;
        };
        m[d] = 16 * digit_value(*high) + digit_value(*low);
        rest = tail;
    }
}

// Whether `s` begins with `word`.
#[tactic(auto, using(crate::proofs::Laws::begins_is))]
pub fn starts_with(s: &[u8], word: &[u8]) -> bool
    ensures { result ≡ begins word.now s.now }
{
    s.starts_with(word)
}
