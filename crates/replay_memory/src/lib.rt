// The memory lent, as the guest's lines change and print it: the first bytes of an array that is 0
// past them.
#![tactic(auto)]

ghost use Rattle.std.specs.Prelude.{◌≡◌, ◌≤◌, min, length};
ghost use Rattle.io.specs.Counts.{IsPrefixLen};
ghost use Rattle.decimal.specs.Write.{Put};
ghost use Rattle.replay_memory.specs.Lent.{filled, dump_bytes, Touches};

use replay_line::{Guest, MAX_BYTES, MAX_RAM};

// The length lent after a line of the guest, and the place behind the text that the line left.
#[derive(Clone, Copy)]
pub struct Touched {
    pub len: usize,
    pub end: usize,
}

// `n`, or all of `buf` where it has no more.
pub fn within(n: usize, buf: &[u8]) -> usize
    ensures prefix_len { IsPrefixLen result buf.now }
    ensures value { result ≡ min n (length buf.now) }
{
    n.min(buf.len())
}

// `n` bytes set to `b`, from `at` on; what lies past the end is dropped.
pub fn fill(m: &mut [u8], at: usize, n: usize, b: u8)
    ensures { m.new ≡ filled n m.old at b }
{
    let start = at.min(m.len());
    let end = start + n.min(m.len() - start);
    m[start..end].fill(b);
}

// `LINE HEX`, written to the start of `out`. The place behind it.
fn dump(line: u64, m: &[u8], at: usize, n: usize, out: &mut [u8]) -> usize
    requires { 131096 ≤ length out.old }
    ensures { Put (dump_bytes line m.now at n) out.old 0 out.new result × (result ≤ 131096) }
{
    let count = n.min(MAX_BYTES);
    let to = decimal::put(out, 0, line, b' ');
    let end = replay_text::put_word(m, at, count, out, to);
    out[end] = b'\n';
    end + 1
}

// A line `s` on the memory lent, the first `len` bytes of `ram`. Its text goes to the start of `out`.
pub fn touch(
    guest: Guest,
    line: u64,
    s: &[u8],
    ram: &mut [u8],
    len: usize,
    out: &mut [u8],
) -> Touched
    requires { 131096 ≤ length out.old }
    ensures { Touches guest line s.now ram.old (min len (length ram.old)) out.old
        ram.new out.new result }
{
    let lent = within(len, ram);
    match guest {
        Guest::Store { address, place } => {
            let to = memory::place(lent, address, 0);
            replay_field::pour_hex(s, place, &mut ram[..lent], to);
            Touched { len: lent, end: 0 }
        }
        Guest::Fill {
            address,
            count,
            byte,
        } => {
            let to = memory::place(lent, address, 0);
            fill(&mut ram[..lent], to, count as usize, byte);
            Touched { len: lent, end: 0 }
        }
        Guest::Ram(n) => {
            fill(ram, n, MAX_RAM, 0);
            Touched { len: n, end: 0 }
        }
        Guest::Dump { address, count } => {
            let from = memory::place(lent, address, 0);
            let end = dump(line, &ram[..lent], from, count, out);
            Touched { len: lent, end }
        }
    }
}
