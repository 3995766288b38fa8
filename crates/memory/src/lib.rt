// Guest memory: a lent slice, address 0 first. Nothing here can be made to leave the slice: a byte
// past its end reads as 0, and a write there changes nothing.
#![tactic(auto)]

ghost use Rattle.std.specs.Prelude.{◌≡◌, ◌+◌, ◌≤◌, ◌<◌, ◌^◌, min, length, get_or};
ghost use Rattle.memory.specs.Bytes.{le, put, inside_of};

use counts::GuestAddress;

mod widths;

pub use widths::Number;

// Whether `n` bytes at `at` lie inside `len` bytes of memory; no byte at all does at any address.
pub fn inside(len: usize, at: GuestAddress, n: u64) -> bool
    ensures { result ≡ inside_of len at.0 n }
{
    let ram = len as u64;
    n == 0 || n <= ram && at.number() <= ram - n
}

// The place in memory of the byte `offset` behind `base`, or the end where it lies past it.
pub fn place(len: usize, base: GuestAddress, offset: u64) -> usize
    ensures { result ≡ min (base.0 + offset) len }
{
    let ram = len as u64;
    let start = base.number();
    if start < ram && offset < ram - start {
        (start + offset) as usize
    } else {
        len
    }
}

// The byte `i` behind `at`.
fn byte_behind(m: &[u8], at: usize, i: usize) -> u64
    ensures { (result ≡ get_or m.now (at + i) 0) × (result < 256) }
{
    if at < m.len() && i < m.len() - at {
        u64::from(m[at + i])
    } else {
        0
    }
}

// The number in `n` bytes at `at`, the lowest byte first, each byte with a test of its own.
fn get_each(m: &[u8], at: usize, n: usize) -> u64
    requires { n ≤ 8 }
    ensures { (result ≡ le n m.now at) × (result < 256 ^ n) }
{
    let mut number: u64 = 0;
    for i in (0..n).rev() {
        number = byte_behind(m, at, i) + 256 * number;
    }
    number
}

// The lowest `n` bytes of `v`, stored at `at`, the lowest byte first, each with a test of its own.
fn store_each(m: &mut [u8], at: usize, n: usize, v: u64)
    ensures { m.new ≡ put n m.old at v }
{
    let mut left = v;
    for i in at..usize::min(at.saturating_add(n), m.len()) {
        m[i] = (left % 256) as u8;
        left /= 256;
    }
}

// The number at `at` in a buffer: where all of its bytes are there, with one test.
pub fn number<N: Number>(s: &[u8], at: usize) -> N
    ensures { N.value result ≡ le N.bytes s.now at }
{
    if N::BYTES <= s.len() && at <= s.len() - N::BYTES {
        N::read(s, at)
    } else {
        N::narrow(get_each(s, at, N::BYTES))
    }
}

// A number stored there: where there is room for all of its bytes, with one test.
pub fn set<N: Number>(s: &mut [u8], at: usize, v: N)
    ensures { s.new ≡ put N.bytes s.old at (N.value v) }
{
    if N::BYTES <= s.len() && at <= s.len() - N::BYTES {
        v.write(s, at);
    } else {
        store_each(s, at, N::BYTES, v.widen());
    }
}

// The number at `offset` behind `base`.
pub fn get<N: Number>(m: &[u8], base: GuestAddress, offset: u64) -> N
    ensures { N.value result ≡ le N.bytes m.now (base.0 + offset) }
{
    number(m, place(m.len(), base, offset))
}

// A number stored there.
pub fn put<N: Number>(m: &mut [u8], base: GuestAddress, offset: u64, v: N)
    ensures { m.new ≡ put N.bytes m.old (base.0 + offset) (N.value v) }
{
    let at = place(m.len(), base, offset);
    set(m, at, v);
}
