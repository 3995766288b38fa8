// The walk of a descriptor chain of a split virtqueue: the ranges that its descriptors name, or the
// fault that ends it. It ends whatever memory holds; a byte past the end of memory reads as 0.
#![tactic(auto)]

ghost use Rattle.std.specs.Prelude.{◌≡◌, ◌+◌, ◌*◌, ◌≤◌, ◌<◌, length};
ghost use Rattle.chain.specs.Walk.{descriptor_at, has_next, is_writable, is_indirect, range_of, enter_of, SoundChain, empty_chain};
ghost use Rattle.chain.specs.Walk.{reply_with, request_with, Joins, Walks};

use counts::{DescriptorNumber, GuestAddress};
use memory::Number;
use ranges::{Range, Ranges};

// 01, Rings and chains: the most descriptors of a chain, those naming an indirect table not counted.
const MOST_DESCRIPTORS: u32 = 34;

// The most bytes of a chain's readable side, and of its writable side.
const MOST_BYTES: u32 = 1048576;

// Why a chain can't be walked, in the words of 01, Rings and chains, "Walk faults".
#[derive(Clone, Copy)]
pub enum Fault {
    // "a descriptor number past its table"
    PastTable,
    // "more than 34 descriptors, those naming an indirect table not counted"
    TooMany,
    // "a readable one after a writable one"
    Order,
    // "readable or writable lengths adding above 1,048,576"
    TooLong,
    // "an indirect one without bit 28 negotiated"
    NotNegotiated,
    // an indirect one "with NEXT"
    WithNext,
    // an indirect one "inside an indirect table"
    Nested,
    // an indirect one "of length 0 or not a multiple of 16"
    TableLength,
    // an indirect one "with its table outside RAM"
    TableOutside,
}

// An entry of a descriptor table: 002, 2.2.
#[derive(Clone, Copy)]
pub struct Descriptor {
    pub at: GuestAddress,
    pub len: u32,
    pub flags: u16,
    pub next: DescriptorNumber,
}

// A message: the readable ranges are its request, the writable ones its reply.
#[repr(C)]
#[derive(Clone, Copy)]
pub struct Chain {
    pub request: Ranges,
    pub reply: Ranges,
}

impl Descriptor {
    // The descriptor with this number in the table at `table`: where all its bytes are there, with one test.
    #[tactic(auto, unfolding(crate::specs::Walk::descriptor_at))]
    fn read(m: &[u8], table: GuestAddress, number: DescriptorNumber) -> Descriptor
        ensures { result ≡ descriptor_at m.now (table.0 + number.0 * 16) }
    {
        let start = number.offset();
        let from = memory::place(m.len(), table, start);
        if m.len() - from < 16 {
            return Descriptor::read_each(m, table, start);
        }
        Descriptor {
            at: GuestAddress::of(u64::read(m, from)),
            len: u32::read(m, from + 8),
            flags: u16::read(m, from + 12),
            next: DescriptorNumber::of(u16::read(m, from + 14)),
        }
    }

    // The descriptor at `start` behind `table`, each number with a test of its own.
    #[tactic(auto, unfolding(crate::specs::Walk::descriptor_at))]
    fn read_each(m: &[u8], table: GuestAddress, start: u64) -> Descriptor
        requires { start < 2097152 }
        ensures { result ≡ descriptor_at m.now (table.0 + start) }
    {
        Descriptor {
            at: GuestAddress::of(memory::get::<u64>(m, table, start)),
            len: memory::get(m, table, start + 8),
            flags: memory::get(m, table, start + 12),
            next: DescriptorNumber::of(memory::get::<u16>(m, table, start + 14)),
        }
    }

    // What it names of memory.
    fn range(self) -> Range
        ensures { result ≡ range_of self }
    {
        Range {
            at: self.at,
            len: self.len as u64,
        }
    }

    // 002, 2.3: NEXT is 1, WRITE 2, INDIRECT 4.
    fn has_next(self) -> bool
        ensures { result ≡ has_next self }
    {
        self.flags % 2 == 1
    }

    fn is_writable(self) -> bool
        ensures { result ≡ is_writable self }
    {
        self.flags / 2 % 2 == 1
    }

    fn is_indirect(self) -> bool
        ensures { result ≡ is_indirect self }
    {
        self.flags / 4 % 2 == 1
    }
}

impl Chain {
    // No descriptor yet.
    fn empty() -> Chain
        ensures { result ≡ empty_chain }
    {
        Chain {
            request: Ranges::none(),
            reply: Ranges::none(),
        }
    }

    // One range of `len` bytes more in its reply, and in its request.
    fn with_reply(mut self, len: u32) -> Chain
        requires { (self.reply.count ≤ 34) × (self.reply.bytes + len ≤ 1048576) }
        ensures { result ≡ reply_with self len }
    {
        self.reply.count += 1;
        self.reply.bytes += len;
        self
    }

    fn with_request(mut self, len: u32) -> Chain
        requires { (self.request.count ≤ 34) × (self.reply.first ≤ 34) × (self.request.bytes + len ≤ 1048576) }
        ensures { result ≡ request_with self len }
    {
        self.request.count += 1;
        self.request.bytes += len;
        self.reply.first += 1;
        self
    }
}

// The chain with one descriptor more at the end of its side, its range put into the list; or the fault.
fn joined(list: &mut [u64], chain: Chain, d: Descriptor) -> Result<Chain, Fault>
    requires { SoundChain list.old chain × (chain.request.count + chain.reply.count < 34) × (68 ≤ length list.old) }
    ensures { Joins list.old chain d list.new result }
{
    let request = chain.request;
    let reply = chain.reply;
    if d.is_writable() {
        if MOST_BYTES - reply.bytes < d.len {
            return Err(Fault::TooLong);
        }
        ranges::put_range(list, (reply.first + reply.count) as usize, d.range());
        return Ok(chain.with_reply(d.len));
    }
    if 0 < reply.count {
        return Err(Fault::Order);
    }
    if MOST_BYTES - request.bytes < d.len {
        return Err(Fault::TooLong);
    }
    ranges::put_range(list, (request.first + request.count) as usize, d.range());
    Ok(chain.with_request(d.len))
}

// Whether the walk may go on in the table that the indirect descriptor `d` names.
#[tactic(auto, unfolding(crate::specs::Walk::enter_of))]
fn enter(ram: usize, negotiated: bool, d: Descriptor) -> Result<(), Fault>
    ensures { result ≡ enter_of ram negotiated d }
{
    if !negotiated {
        return Err(Fault::NotNegotiated);
    }
    if d.has_next() {
        return Err(Fault::WithNext);
    }
    if d.len == 0 || d.len % 16 != 0 {
        return Err(Fault::TableLength);
    }
    if !memory::inside(ram, d.at, d.len as u64) {
        return Err(Fault::TableOutside);
    }
    Ok(())
}

// The walk of the chain at `head` in the table of `size` descriptors at `table`: its ranges, put into the list,
// readable ones first; or a fault. `indirect` says that bit 28 is negotiated.
pub fn walk(
    m: &[u8],
    list: &mut [u64],
    table: GuestAddress,
    size: u16,
    head: DescriptorNumber,
    indirect: bool,
) -> Result<Chain, Fault>
    requires { 68 ≤ length list.old }
    ensures { Walks m.now table.0 size head.0 indirect list.new result }
{
    let mut chain = Chain::empty();
    let mut number = head;
    let mut left = MOST_DESCRIPTORS;
    // the table that the walk is in, and how many indirect ones it may still enter
    let mut at = table;
    let mut count = size as u32;
    let mut deeper: u32 = 1;
    'walk: loop {
        // the descriptors of one table, up to the one that names another
        loop {
            // One that names an indirect table is not counted, but after 34 it is a fault as well: its
            // table has at least one more.
            if left == 0 {
                break 'walk Err(Fault::TooMany);
            }
            if count <= number.number() as u32 {
                break 'walk Err(Fault::PastTable);
            }
            let d = Descriptor::read(m, at, number);
            if d.is_indirect() {
                if deeper == 0 {
                    break 'walk Err(Fault::Nested);
                }
                if let Err(fault) = enter(m.len(), indirect, d) {
                    break 'walk Err(fault);
                }
                number = DescriptorNumber::of(0);
                at = d.at;
                count = d.len / 16;
                deeper = 0;
                continue 'walk;
            }
            match joined(list, chain, d) {
                Ok(longer) => chain = longer,
                Err(fault) => break 'walk Err(fault),
            }
            left -= 1;
            if !d.has_next() {
                break 'walk Ok(chain);
            }
            number = d.next;
        }
    }
}
