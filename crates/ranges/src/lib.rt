// The ranges of a message: what its descriptors name of guest memory, one side at a time. The bytes
// of a side are those of its ranges, one after the other; descriptor borders mean nothing. The ranges
// stand in a list of words that the caller lends.
#![tactic(auto)]

ghost use Rattle.std.specs.Prelude.{◌≡◌, ◌+◌, ◌≤◌, ◌<◌, min, length, get_or, set, take, drop, replicate};
ghost use Rattle.std.proofs.lemmas.List.Edits.{sets};
ghost use Rattle.ranges.specs.Ranges.{no_ranges, range_in, put_range, ranges_of, up_from, places, bytes_at, put_at, all_inside};

use counts::GuestAddress;

// The buffer of one descriptor.
#[derive(Clone, Copy)]
pub struct Range {
    pub at: GuestAddress,
    pub len: u64,
}

// One side of a message: `count` ranges of a lent list of words, from its place `first` on, and the
// sum of their lengths. A range takes two words, address and length.
#[repr(C)]
#[derive(Clone, Copy)]
pub struct Ranges {
    pub first: u32,
    pub count: u32,
    pub bytes: u32,
}

impl Ranges {
    // No range at all.
    pub fn none() -> Ranges
        ensures { result ≡ no_ranges }
    {
        Ranges {
            first: 0,
            count: 0,
            bytes: 0,
        }
    }
}

// The word `i` of a list, 0 past its end.
fn word(list: &[u64], i: usize) -> u64
    ensures { result ≡ get_or list.now i 0 }
{
    if i < list.len() { list[i] } else { 0 }
}

// Another word there; nothing past its end.
fn set_word(list: &mut [u64], i: usize, v: u64)
    ensures { list.new ≡ set list.old i v }
{
    if i < list.len() {
        list[i] = v;
    }
}

// The range at place `i` of a list: with one test where both its words are there.
#[tactic(auto, unfolding(crate::specs::Ranges::range_in))]
pub fn range_at(list: &[u64], i: usize) -> Range
    requires { i < 8589934592 }
    ensures { result ≡ range_in list.now i }
{
    let k = 2 * i;
    if k + 1 < list.len() {
        Range {
            at: GuestAddress::of(list[k]),
            len: list[k + 1],
        }
    } else {
        Range {
            at: GuestAddress::of(word(list, k)),
            len: word(list, k + 1),
        }
    }
}

// Another range there.
#[tactic(auto, unfolding(crate::specs::Ranges::put_range))]
pub fn put_range(list: &mut [u64], i: usize, range: Range)
    requires { i < 8589934592 }
    ensures { list.new ≡ put_range list.old i range }
{
    let k = 2 * i;
    let start = range.at.number();
    if k + 1 < list.len() {
        list[k] = start;
        list[k + 1] = range.len;
    } else {
        set_word(list, k, start);
        set_word(list, k + 1, range.len);
    }
}

// Whether every range lies inside `len` bytes of memory.
pub fn all_inside(len: usize, list: &[u64], r: Ranges) -> bool
    ensures { result ≡ all_inside len (ranges_of list.now r) }
{
    let first = r.first as usize;
    for i in first..first + r.count as usize {
        let range = range_at(list, i);
        if !memory::inside(len, range.at, range.len) {
            return false;
        }
    }
    true
}

// `n` bytes of `src` at `from`, copied to `dst` at `at`. Place by place: `copy_from_slice` would ask a monitor in C for memmove, and takes
// longer where that is slow.
pub fn copy(dst: &mut [u8], at: usize, src: &[u8], from: usize, n: usize)
    requires { (at + n ≤ length dst.old) × (from + n ≤ length src.now) }
    ensures { dst.new ≡ sets dst.old at (bytes_at src.now (up_from from n)) }
{
    for i in 0..n {
        dst[at + i] = src[from + i];
    }
}

// `n` zeros in `dst` at `at`.
fn clear(dst: &mut [u8], at: usize, n: usize)
    requires { at + n ≤ length dst.old }
    ensures { dst.new ≡ sets dst.old at (replicate n 0) }
{
    dst[at..at + n].fill(0);
}

// `n` bytes of memory from `skip` behind `start` on, put into `dst` at `at`; zeros for those past
// the end of memory.
fn gather_run(m: &[u8], start: GuestAddress, skip: usize, dst: &mut [u8], at: usize, n: usize)
    requires { at + n ≤ length dst.old }
    ensures { dst.new ≡ sets dst.old at (bytes_at m.now (up_from (start.0 + skip) n)) }
{
    let from = memory::place(m.len(), start, skip as u64);
    let k = usize::min(n, m.len() - from);
    copy(dst, at, m, from, k);
    clear(dst, at + k, n - k);
}

// `n` bytes of `src` at `from`, written to memory from `skip` behind `start` on; those past the end
// of memory are dropped.
fn scatter_run(m: &mut [u8], start: GuestAddress, skip: usize, src: &[u8], from: usize, n: usize)
    requires { from + n ≤ length src.now }
    ensures { m.new ≡ put_at m.old (up_from (start.0 + skip) n) (drop from src.now) }
{
    let at = memory::place(m.len(), start, skip as u64);
    let k = usize::min(n, m.len() - at);
    copy(m, at, src, from, k);
}

// At most `n` of the joined bytes, from the byte `offset` on, put into `dst` at `at`, as far as it
// reaches.
pub fn gather(m: &[u8], list: &[u64], r: Ranges, offset: usize, dst: &mut [u8], at: usize, n: usize)
    ensures { dst.new
        ≡ sets dst.old at (bytes_at m.now (take n (drop offset (places (ranges_of list.now r))))) }
{
    if dst.len() <= at {
        return;
    }
    let first = r.first as usize;
    let mut left = usize::min(n, dst.len() - at);
    let mut skip = offset;
    let mut d = at;
    for i in first..first + r.count as usize {
        if left == 0 {
            return;
        }
        let range = range_at(list, i);
        let len = range.len as usize;
        if len <= skip {
            skip -= len;
            continue;
        }
        let k = usize::min(len - skip, left);
        gather_run(m, range.at, skip, dst, d, k);
        skip = 0;
        d += k;
        left -= k;
    }
}

// The bytes of `src` from `from` on, at most `n`, written in order to the joined bytes from the byte
// `offset` on.
pub fn scatter(
    m: &mut [u8],
    list: &[u64],
    r: Ranges,
    offset: usize,
    src: &[u8],
    from: usize,
    n: usize,
)
    ensures { m.new
        ≡ put_at m.old (take n (drop offset (places (ranges_of list.now r)))) (drop from src.now) }
{
    if src.len() <= from {
        return;
    }
    let first = r.first as usize;
    let mut left = usize::min(n, src.len() - from);
    let mut skip = offset;
    let mut f = from;
    for i in first..first + r.count as usize {
        if left == 0 {
            return;
        }
        let range = range_at(list, i);
        let len = range.len as usize;
        if len <= skip {
            skip -= len;
            continue;
        }
        let k = usize::min(len - skip, left);
        scatter_run(m, range.at, skip, src, f, k);
        skip = 0;
        f += k;
        left -= k;
    }
}
