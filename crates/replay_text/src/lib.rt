// What the replay program prints: the text of a line, bytes as HEX, and the Adler-32 checksum.
#![tactic(auto)]

ghost use Rattle.std.specs.Prelude.{◌≡◌, ◌<◌, ◌≤◌, ◌+◌, ◌*◌, ◌++◌, length, get_or};
ghost use Rattle.decimal.specs.Write.{Put};
ghost use Rattle.replay_text.specs.Text.{answer_bytes, start_bytes, queue_bytes, call_bytes, play_bytes, register_bytes};
ghost use Rattle.replay_text.specs.Adler.{step, adler};
ghost use Rattle.replay_text.specs.Hex.{glyph_of, behind_of, hex_bytes, hex_word};

// The text that a line is put together in. The longest has seven numbers of at most 20 digits, and a byte behind each.
pub type Text = text::Text<147>;

// A line that is written.
pub type LineText = Text;

// The two sums of a checksum.
#[derive(Clone, Copy)]
struct Sums {
    a: u32,
    b: u32,
}

// `LINE ANSWER`
pub fn answer_text(line: u64, answer: u8) -> LineText
    ensures { result ≡ answer_bytes line answer }
{
    let mut text = Text::new();
    text.push_number(line, b' ');
    text.push_number(u64::from(answer), b'\n');
    text
}

// `LINE ANSWER COUNT IRQ` and a space
fn call_start(line: u64, answer: u8, count: usize, irq: u8) -> LineText
    ensures value { result ≡ start_bytes line answer count irq }
    ensures most { length result ≤ 84 }
{
    let mut text = Text::new();
    text.push_number(line, b' ');
    text.push_number(u64::from(answer), b' ');
    text.push_number(count as u64, b' ');
    text.push_number(u64::from(irq), b' ');
    text
}

// The index of a queue, or `-` for none, and the byte `end` behind it
#[tactic(auto, unfolding(crate::specs::Text::queue_bytes))]
fn push_queue(text: &mut LineText, queue: u8, end: u8)
    requires { length text.old + 21 ≤ 147 }
    ensures value { text.new ≡ text.old ++ queue_bytes queue end }
    ensures longer { length text.new ≤ length text.old + 21 }
{
    if queue == 255 {
        text.push_bytes(&[b'-', end]);
    } else {
        text.push_number(u64::from(queue), end);
    }
}

// `LINE ANSWER COUNT IRQ SUM QUEUE`
pub fn call_text(line: u64, answer: u8, count: usize, irq: u8, sum: u32, queue: u8) -> LineText
    ensures { result ≡ call_bytes line answer count irq sum queue }
{
    let mut text = call_start(line, answer, count, irq);
    text.push_number(u64::from(sum), b' ');
    push_queue(&mut text, queue, b'\n');
    text
}

// `LINE ANSWER COUNT IRQ SUM HOST QUEUE`
pub fn play_text(
    line: u64,
    answer: u8,
    count: usize,
    irq: u8,
    sum: u32,
    host: u32,
    queue: u8,
) -> LineText
    ensures { result ≡ play_bytes line answer count irq sum host queue }
{
    let mut text = call_start(line, answer, count, irq);
    text.push_number(u64::from(sum), b' ');
    text.push_number(u64::from(host), b' ');
    push_queue(&mut text, queue, b'\n');
    text
}

// `LINE ANSWER VALUE RUNG IRQ`
pub fn register_text(line: u64, answer: u8, value: u32, rung: u8, irq: u8) -> LineText
    ensures { result ≡ register_bytes line answer value rung irq }
{
    let mut text = Text::new();
    text.push_number(line, b' ');
    text.push_number(u64::from(answer), b' ');
    text.push_number(u64::from(value), b' ');
    push_queue(&mut text, rung, b' ');
    text.push_number(u64::from(irq), b'\n');
    text
}

// The bytes of a text of any length, written to the start of `out`. The place behind them.
pub fn lay(text: &[u8], out: &mut [u8]) -> usize
    requires { length text.now ≤ length out.old }
    ensures { Put text.now out.old 0 out.new result }
{
    decimal::put_bytes(out, 0, text)
}

// The sums with one byte more.
#[tactic(auto, unfolding(crate::specs::Adler::step))]
fn summed(s: Sums, x: u8) -> Sums
    requires { (s.a < 65521) × (s.b < 65521) }
    ensures { (result ≡ step s x) × (result.a < 65521) × (result.b < 65521) }
{
    let a = (s.a + u32::from(x)) % 65521;
    Sums {
        a,
        b: (s.b + a) % 65521,
    }
}

// The Adler-32 checksum of `s` (RFC 1950).
pub fn adler32(s: &[u8]) -> u32
    ensures { result ≡ adler s.now }
{
    let mut sums = Sums { a: 1, b: 0 };
    for x in s {
        sums = summed(sums, *x);
    }
    sums.b * 65536 + sums.a
}

// A digit of HEX.
#[tactic(auto, unfolding(crate::specs::Hex::glyph_of))]
fn glyph(d: u8) -> u8
    requires { d < 16 }
    ensures { result ≡ glyph_of d }
{
    match d {
        0..=9 => b'0' + d,
        _ => b'a' + (d - 10),
    }
}

// The byte of `m` at `at`, 0 past its end.
fn byte_at(m: &[u8], at: usize) -> u8
    ensures { result ≡ get_or m.now at 0 }
{
    if at < m.len() { m[at] } else { 0 }
}

// The place behind `at`, or the end of `len` bytes.
fn behind(len: usize, at: usize) -> usize
    ensures { result ≡ behind_of len at }
{
    if len <= at { len } else { at + 1 }
}

// `n` bytes of `m` at `at` as HEX, written to `out` from `to` on; 0 past the end of `m`. The place behind
// them.
fn put_hex(m: &[u8], at: usize, n: usize, out: &mut [u8], to: usize) -> usize
    requires { to + 2 * n ≤ length out.old }
    ensures { Put (hex_bytes n m.now at) out.old to out.new result × (result ≡ to + 2 * n) }
{
    let mut from = at;
    for k in 0..n {
        let b = byte_at(m, from);
        out[to + 2 * k] = glyph(b / 16);
        out[to + 2 * k + 1] = glyph(b % 16);
        from = behind(m.len(), from);
    }
    to + 2 * n
}

// The same as one word: `-` stands for no bytes.
pub fn put_word(m: &[u8], at: usize, n: usize, out: &mut [u8], to: usize) -> usize
    requires { to + 2 * n + 1 ≤ length out.old }
    ensures { Put (hex_word n m.now at) out.old to out.new result × (result ≤ to + 2 * n + 1) }
{
    if n == 0 {
        decimal::put_bytes(out, to, b"-")
    } else {
        put_hex(m, at, n, out, to)
    }
}
