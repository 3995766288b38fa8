// The records of a latency report, 8 bytes each, read from blocks and counted.
#![tactic(auto)]

ghost use Rattle.std.specs.Prelude.{◌≡◌, ◌/◌, length};
ghost use mathlib.Core.List.{foldl};
ghost use Rattle.latency_tally.specs.Records.{status, records};
ghost use Rattle.latency_tally.specs.Tally.{no_tally, with_code, with_latency, with_record, opened, taken};
ghost use Rattle.memory.specs.Bytes.{le};

// The codes of a status that are told apart.
const OK: u32 = 0x8000;

const IO_ERR: u32 = 0x8003;

// How many records of each kind came; smallest, largest and summed latency of the OK ones.
#[derive(Clone, Copy)]
pub struct Tally {
    pub ok: u32,
    pub io_err: u32,
    pub others: u32,
    pub smallest: u32,
    pub largest: u32,
    pub sum: u64,
}

// What is kept of the input so far: how many bytes came, the mask in the first eight, and the
// records behind it.
#[derive(Clone, Copy)]
pub struct Input {
    pub bytes: u64,
    pub mask: u64,
    pub tally: Tally,
}

impl Tally {
    // No record yet. No latency is above 4,294,967,295.
    fn none() -> Tally
        ensures { result ≡ no_tally }
    {
        Tally {
            ok: 0,
            io_err: 0,
            others: 0,
            smallest: u32::MAX,
            largest: 0,
            sum: 0,
        }
    }

    // One record more, of this code.
    #[tactic(auto, unfolding(crate::specs::Tally::with_code))]
    fn with_code(self, code: u32) -> Tally
        ensures { result ≡ with_code self code }
    {
        match code {
            OK => Tally {
                ok: self.ok.wrapping_add(1),
                ..self
            },
            IO_ERR => Tally {
                io_err: self.io_err.wrapping_add(1),
                ..self
            },
            _ => Tally {
                others: self.others.wrapping_add(1),
                ..self
            },
        }
    }

    // The latency of one OK record more.
    #[tactic(auto, unfolding(crate::specs::Tally::with_latency))]
    fn with_latency(self, latency: u32) -> Tally
        ensures { result ≡ with_latency self latency }
    {
        Tally {
            smallest: self.smallest.min(latency),
            largest: self.largest.max(latency),
            sum: self.sum.wrapping_add(u64::from(latency)),
            ..self
        }
    }

    // One record more. At most 1,000,000 are reported, so no sum wraps there (`tally-exact`).
    #[tactic(auto, unfolding(crate::specs::Tally::with_record))]
    fn with_record(self, code: u32, latency: u32) -> Tally
        ensures { result ≡ with_record self (status code latency) }
    {
        let counted = self.with_code(code);
        if code == OK {
            counted.with_latency(latency)
        } else {
            counted
        }
    }

    // The whole records of a block, one after the other.
    fn with_block(self, block: &[u8]) -> Tally
        ensures { result ≡ foldl with_record self (records (length block.now / 8) block.now 0) }
    {
        let mut next = self;
        for record in block.as_chunks::<8>().0 {
            next = next.with_record(
                memory::number::<u32>(record, 0),
                memory::number::<u32>(record, 4),
            );
        }
        next
    }
}

// The 64-bit number in the first 8 bytes, the lowest byte first.
fn first_number(s: &[u8]) -> u64
    ensures { result ≡ le 8 s.now 0 }
{
    u64::from(memory::number::<u32>(s, 0)) + 4294967296 * u64::from(memory::number::<u32>(s, 4))
}

// The input's first bytes, 8 of them unless it ended.
pub fn open(head: &[u8]) -> Input
    ensures { result ≡ opened head.now }
{
    Input {
        bytes: head.len() as u64,
        mask: first_number(head),
        tally: Tally::none(),
    }
}

// A block of input more, behind the mask and whole records.
pub fn take_block(input: Input, block: &[u8]) -> Input
    ensures { result ≡ taken input block.now }
{
    Input {
        bytes: input.bytes.wrapping_add(block.len() as u64),
        tally: input.tally.with_block(block),
        ..input
    }
}
