// A split virtqueue as the device's end sees it (01, Rings and chains): what a call finds of a queue,
// the next head, and the completing of a chain. `page` is the queue's base and `size` its number of
// descriptors, 01's N, whatever it is. Nothing here can be made to leave memory.
#![tactic(auto)]

ghost use Rattle.std.specs.Prelude.{◌≡◌, ◌%◌};
ghost use Rattle.ranges.specs.Ranges.{ranges_of};
ghost use Rattle.ring.specs.Layout.{available_at, used_at, end_at};
ghost use Rattle.ring.specs.Rules.{new_of, check_of, head_of, completion, post_of, completed_of};

use counts::{DescriptorNumber, PageNumber};
use ranges::Ranges;

// Why a queue is broken, in 01's words.
#[derive(Clone, Copy)]
pub enum Cause {
    // "its region passes the end of RAM"
    Region,
    // "new plus in work exceeds N"
    Entries,
    // "when met, a head is ≥ N"
    Head,
}

// What a completion hands back: the card's own count of completed entries, and whether the guest
// wants an interrupt.
#[derive(Clone, Copy)]
pub struct Posted {
    pub completed: u16,
    pub interrupt: bool,
}

// Where the available ring, the used ring and the end of the region stand behind the base.
fn available_at(size: u16) -> u64
    ensures { result ≡ available_at size }
{
    16 * size as u64
}

fn used_at(size: u16) -> u64
    ensures { result ≡ used_at size }
{
    (16 * size as u64 + 4 + 2 * size as u64 + 3) / 4 * 4
}

fn end_at(size: u16) -> u64
    ensures { result ≡ end_at size }
{
    used_at(size) + 4 + 8 * size as u64
}

// The place of entry `count` in a ring: modulo the size. Modulo 0 it stays as it is. The sizes that queues have
// need no division.
fn ring_place(count: u16, size: u16) -> u16
    ensures { result ≡ count % size }
{
    match size {
        256 => count % 256,
        64 => count % 64,
        0 => count,
        _ => count % size,
    }
}

// How many entries the guest has made available that are not taken; the counters wrap.
pub fn new_entries(index: u16, taken: u16) -> u16
    ensures { result ≡ new_of index taken }
{
    index.wrapping_sub(taken)
}

// How many entries are new on the queue at `page`, of which `taken` entries were taken and `in_work` are not
// completed; none of an idle queue, whose base is 0.
pub fn check_queue(
    m: &[u8],
    page: PageNumber,
    size: u16,
    taken: u16,
    in_work: u16,
) -> Result<Option<u16>, Cause>
    ensures { result ≡ check_of m.now page size taken in_work }
{
    if page.number() == 0 {
        return Ok(None);
    }
    let base = page.address();
    if !memory::inside(m.len(), base, end_at(size)) {
        return Err(Cause::Region);
    }
    let index = memory::get(m, base, available_at(size) + 2);
    let new = new_entries(index, taken);
    if (size as u32) < new as u32 + in_work as u32 {
        return Err(Cause::Entries);
    }
    Ok(Some(new))
}

// The head that stands next in the available ring.
pub fn next_head(
    m: &[u8],
    page: PageNumber,
    size: u16,
    taken: u16,
) -> Result<DescriptorNumber, Cause>
    ensures { result ≡ head_of m.now page size taken }
{
    let place = ring_place(taken, size) as u64;
    let number: u16 = memory::get(m, page.address(), available_at(size) + 4 + 2 * place);
    if number < size {
        Ok(DescriptorNumber::of(number))
    } else {
        Err(Cause::Head)
    }
}

// A used entry with its index; then the available flags say whether the guest wants an interrupt.
pub fn post(
    m: &mut [u8],
    page: PageNumber,
    size: u16,
    completed: u16,
    head: DescriptorNumber,
    len: u32,
) -> Posted
    ensures { completion m.new result ≡ post_of m.old page size completed head len }
{
    let base = page.address();
    let used = used_at(size);
    let element = used + 4 + 8 * ring_place(completed, size) as u64;
    let next = completed.wrapping_add(1);
    memory::put(m, base, element, head.number() as u32);
    memory::put(m, base, element + 4, len);
    memory::put(m, base, used + 2, next);
    let flags: u16 = memory::get(m, base, available_at(size));
    Posted {
        completed: next,
        interrupt: flags % 2 == 0,
    }
}

// At most `n` of `bytes`, written to the reply from its byte `offset` on; then the used entry.
pub fn complete(
    m: &mut [u8],
    page: PageNumber,
    size: u16,
    completed: u16,
    head: DescriptorNumber,
    len: u32,
    list: &[u64],
    reply: Ranges,
    offset: usize,
    bytes: &[u8],
    n: usize,
) -> Posted
    ensures { completion m.new result
        ≡ completed_of m.old page size completed head len (ranges_of list.now reply) offset bytes.now n }
{
    ranges::scatter(m, list, reply, offset, bytes, 0, n);
    post(m, page, size, completed, head, len)
}
