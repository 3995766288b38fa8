// The latency report on each side of its limits: of 7 bytes, of a mask and 1,000,000 records, and of
// one byte more. The input is made here, block by block, and taken by the functions that the program
// hands its blocks to.
#![tactic(auto)]

use latency_tally::Input;
use std::io::Write;

// The records of a block, and how often it is taken: 1,000,000 records in all.
const RECORDS: u32 = 8000;

const BLOCKS: u32 = 125;

fn block() -> [u8; 64000] {
    [0; 64000]
}

// Two records of four are OK ones, one IO_ERR and one BAD_MSG.
fn code(i: u32) -> u32 {
    match i % 4 {
        0 => 0x8003,
        1 => 0x8001,
        _ => 0x8000,
    }
}

// The latencies fall from the greatest that there is.
fn fill(block: &mut [u8]) {
    for i in 0..RECORDS {
        let at = 8 * i as usize;
        memory::set(block, at, code(i));
        memory::set(block, at + 4, u32::MAX - i);
    }
}

fn with_blocks(mut input: Input, block: &[u8]) -> Input {
    for _ in 0..BLOCKS {
        input = latency_tally::take_block(input, block);
    }
    input
}

fn show<W: Write>(to: &mut W, input: Input) {
    let _printed = latency::print(to, latency::report(input).as_slice());
}

fn main(rt: HostRuntime) {
    let mut to = rt.stdout();
    let mut records = block();
    fill(&mut records);
    let mask = [96u8, 0, 0, 0, 0, 0, 0, 0];
    show(&mut to, latency_tally::open(&mask[..7]));
    let full = with_blocks(latency_tally::open(&mask), &records);
    show(&mut to, full);
    show(&mut to, latency_tally::take_block(full, &mask[..1]));
}
