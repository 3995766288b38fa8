// Messages of a stream's queue (01, "Play, capture, events"): what is asked of a chain, and the completion
// that answers it.
#![tactic(auto)]

ghost use Rattle.std.specs.Prelude.{◌≡◌, ◌-◌, ◌≤◌, length, Some};
ghost use Rattle.ranges.specs.Ranges.{ranges_of, Sound};
ghost use Rattle.registers.specs.Map.{size_of};
ghost use Rattle.ring.specs.Rules.{completion};
ghost use Rattle.device.specs.Device.{queue_number};
ghost use Rattle.device.specs.Transfer.{id_of, sized, status_bytes, status_in_reply};
ghost use Rattle.message.specs.Message.{direction_of, answered_of, answered_length};

use chain::Fault;
use counts::{DescriptorNumber, PageNumber};
use ranges::Ranges;
use ring::Posted;
pub use rules::{IO_ERR, OK};

// Output streams on the play queue, input streams on the capture queue.
#[derive(Clone, Copy)]
pub enum Direction {
    Output,
    Input,
}

// What a chain is when it is taken: well-formed; or ill-formed, answered IO_ERR (refused), or with
// length 0 and nothing written (silent), as one that can't be walked is, for its fault.
#[derive(Clone, Copy)]
pub enum Form {
    WellFormed,
    Refused,
    Silent,
    Unwalked(Fault),
}

// A stream's queue in a call, as its guest laid it out; `indirect`: bit 28 was negotiated; `latency`
// is what the statuses completed in the call carry.
#[derive(Clone, Copy)]
pub struct Virtqueue {
    pub direction: Direction,
    pub page: PageNumber,
    pub indirect: bool,
    pub latency: u32,
}

// A chain as it was taken.
#[derive(Clone, Copy)]
pub struct Taken {
    pub form: Form,
    pub head: DescriptorNumber,
    pub request: Ranges,
    pub reply: Ranges,
}

// The number of the queue of a direction.
pub fn queue_number(d: Direction) -> u8
    ensures { result ≡ queue_number (direction_of d) }
{
    match d {
        Direction::Output => registers::PLAY_QUEUE as u8,
        Direction::Input => registers::CAPTURE_QUEUE as u8,
    }
}

// How many descriptors the queue of a direction has.
pub fn queue_size(d: Direction) -> u16
    ensures { result ≡ size_of (queue_number (direction_of d)) }
{
    match d {
        Direction::Output => registers::queue_size(registers::PLAY_QUEUE),
        Direction::Input => registers::queue_size(registers::CAPTURE_QUEUE),
    }
}

// The request's first four bytes, zeros where it has fewer: one number where the first range has them all.
pub fn stream_id(m: &[u8], list: &[u64], request: Ranges) -> u32
    ensures { result ≡ id_of m.now (ranges_of list.now request) }
{
    if request.count == 0 {
        return gathered_id(m, list, request);
    }
    let range = ranges::range_at(list, request.first as usize);
    if range.len < 4 {
        return gathered_id(m, list, request);
    }
    memory::get(m, range.at, 0)
}

// The same of any ranges.
fn gathered_id(m: &[u8], list: &[u64], request: Ranges) -> u32
    ensures { result ≡ id_of m.now (ranges_of list.now request) }
{
    let mut bytes = [0u8; 4];
    ranges::gather(m, list, request, 0, &mut bytes, 0, 4);
    memory::number(&bytes, 0)
}

// Whether both sides have the lengths that the direction asks.
pub fn is_sized(d: Direction, request: u32, reply: u32) -> bool
    ensures { result ≡ sized (direction_of d) request reply }
{
    match d {
        Direction::Output => 4 <= request && reply == 8,
        Direction::Input => request == 4,
    }
}

// The eight bytes of a status.
fn status_bytes(code: u32, latency: u32) -> [u8; 8]
    ensures { result ≡ status_bytes code latency }
{
    let mut bytes = [0u8; 8];
    memory::set(&mut bytes, 0, code);
    memory::set(&mut bytes, 4, latency);
    bytes
}

// The length of a used entry whose status is written.
fn used_length(d: Direction, recorded: u32) -> u32
    requires { recorded ≤ 1048576 }
    ensures { result ≡ answered_length (direction_of d) recorded }
{
    match d {
        Direction::Output => 8,
        Direction::Input => 8 + recorded,
    }
}

// A chain answered: its status in the last eight bytes of the reply, where it has one, then the used entry.
pub fn answer(
    m: &mut [u8],
    list: &[u64],
    q: Virtqueue,
    completed: u16,
    head: DescriptorNumber,
    reply: Ranges,
    status: Option<u32>,
    recorded: u32,
) -> Posted
    requires { Sound list.now reply × (recorded ≤ 1048576) }
    ensures { completion m.new result
        ≡ answered_of (direction_of q.direction) m.old q.page completed head.0
        (ranges_of list.now reply) status q.latency recorded }
{
    let direction = q.direction;
    let size = queue_size(direction);
    match status {
        None => ring::post(m, q.page, size, completed, head, 0),
        Some(code) => {
            put_status(m, list, reply, code, q.latency);
            let len = used_length(direction, recorded);
            ring::post(m, q.page, size, completed, head, len)
        }
    }
}

// The status in the last eight bytes of the reply: two numbers where the last range has them all.
fn put_status(m: &mut [u8], list: &[u64], reply: Ranges, code: u32, latency: u32)
    requires { Sound list.now reply }
    ensures { m.new ≡ status_in_reply (Some code) latency (ranges_of list.now reply) m.old }
{
    if reply.count == 0 {
        scatter_status(m, list, reply, code, latency);
        return;
    }
    let last = ranges::range_at(list, reply.first as usize + (reply.count as usize - 1));
    if last.len < 8 {
        scatter_status(m, list, reply, code, latency);
        return;
    }
    memory::put(m, last.at, last.len - 8, code);
    memory::put(m, last.at, last.len - 4, latency);
}

// The same in any ranges.
fn scatter_status(m: &mut [u8], list: &[u64], reply: Ranges, code: u32, latency: u32)
    requires { Sound list.now reply }
    ensures { m.new ≡ status_in_reply (Some code) latency (ranges_of list.now reply) m.old }
{
    let bytes = status_bytes(code, latency);
    ranges::scatter(m, list, reply, last_eight(reply.bytes), &bytes, 0, 8);
}

// Where the last eight of so many bytes begin.
fn last_eight(bytes: u32) -> usize
    ensures { result ≡ bytes - 8 }
{
    bytes.saturating_sub(8) as usize
}
