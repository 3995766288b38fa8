// The event queue (01, "Play, capture, events", third paragraph): an event goes into the next chain
// that has room for it.
#![tactic(auto)]

ghost use Rattle.std.specs.Prelude.{◌≡◌, ◌≤◌, true, [], length, if◌then◌else◌, None, Some};
ghost use Rattle.chain.specs.Walk.{whole, walk_of};
ghost use Rattle.ranges.specs.Ranges.{ranges_of, Sound};
ghost use Rattle.registers.specs.Fit.{FitRegisters};
ghost use Rattle.registers.specs.Map.{size_of};
ghost use Rattle.ring.specs.Rules.{base_of, completion};
ghost use Rattle.rules.specs.Calls.{event_room, event_bytes, tried, event_run};
ghost use Rattle.device.specs.Device.{Rest};
ghost use Rattle.device.specs.Numbers.{event_queue};
ghost use Rattle.event_queue.specs.Attempts.{holding, room_in, posting_of, attempt_of, halted_by, without_buffer, sent_in};
ghost use Rattle.event_queue.specs.Attempts.{tried_in, sent_of};

use card::Counters;
use counts::{DescriptorNumber, PageNumber};
use ranges::Ranges;
use registers::{Answer, Registers};
use ring::{Cause, Posted};

// The number of the event queue.
pub const NUMBER: usize = registers::EVENT_QUEUE as usize;

// An event as the guest reads it: its code, then its data.
#[derive(Clone, Copy)]
pub struct Event {
    pub code: u32,
    pub data: u32,
}

// Where an event stands after an entry was tried: `ended`, it was delivered or can't be; so many
// new entries are left.
#[derive(Clone, Copy)]
pub struct Attempt {
    pub ended: bool,
    pub left: u16,
    pub answer: Answer,
    pub registers: Registers,
    pub counters: Counters,
}

// How many descriptors the event queue has.
fn queue_size() -> u16
    ensures { result ≡ size_of event_queue }
{
    registers::queue_size(registers::EVENT_QUEUE)
}

// Whether an event fits into a chain that was walked whole.
fn has_room(m: &[u8], list: &[u64], request: Ranges, reply: Ranges) -> bool
    requires { Sound list.now request × Sound list.now reply }
    ensures { (if result then Some (ranges_of list.now reply) else None)
        ≡ event_room m.now (whole (ranges_of list.now request) (ranges_of list.now reply)) }
{
    request.bytes == 0
        && ranges::all_inside(m.len(), list, request)
        && ranges::all_inside(m.len(), list, reply)
        && reply.bytes >= 8
}

// The reply of the chain at `head`, where it has room for an event; the chain's ranges are put into the list.
fn room_at(
    m: &[u8],
    list: &mut [u64],
    page: PageNumber,
    head: DescriptorNumber,
    indirect: bool,
) -> Option<Ranges>
    requires { 68 ≤ length list.old }
    ensures { room_in list.new result
        ≡ event_room m.now (walk_of m.now (base_of page) (size_of event_queue) head.0 indirect) }
{
    let size = queue_size();
    let Ok(chain) = chain::walk(m, list, page.address(), size, head, indirect) else {
        return None;
    };
    has_room(m, list, chain.request, chain.reply).then_some(chain.reply)
}

impl Event {
    // Its eight bytes.
    fn bytes(self) -> [u8; 8]
        ensures { result ≡ event_bytes self.code self.«data» }
    {
        let mut bytes = [0u8; 8];
        memory::set(&mut bytes, 0, self.code);
        memory::set(&mut bytes, 4, self.data);
        bytes
    }
}

// The event in the first bytes of the reply, then the used entry.
fn deliver(
    m: &mut [u8],
    list: &[u64],
    page: PageNumber,
    completed: u16,
    head: DescriptorNumber,
    reply: Ranges,
    event: Event,
) -> Posted
    ensures { completion m.new result
        ≡ posting_of m.old page completed head.0 (ranges_of list.now reply) (event_bytes event.code event.«data») }
{
    let bytes = event.bytes();
    let size = queue_size();
    ring::complete(m, page, size, completed, head, 8, list, reply, 0, &bytes, 8)
}

// A chain that has no room, completed with length 0.
fn pass_over(m: &mut [u8], page: PageNumber, completed: u16, head: DescriptorNumber) -> Posted
    ensures { completion m.new result ≡ posting_of m.old page completed head.0 [] [] }
{
    let size = queue_size();
    ring::post(m, page, size, completed, head, 0)
}

// One entry taken and completed; the guest may want an interrupt.
fn counted(
    ended: bool,
    left: u16,
    registers: Registers,
    counters: Counters,
    posted: Posted,
) -> Attempt
    requires { FitRegisters registers }
    ensures { (result ≡ attempt_of ended left registers counters posted) × FitRegisters result.registers }
{
    Attempt {
        ended,
        left,
        answer: registers::plain(registers::DONE),
        registers: if posted.interrupt {
            registers.signal()
        } else {
            registers
        },
        counters: Counters {
            taken: counters.taken.wrapping_add(1),
            completed: posted.completed,
        },
    }
}

// The event can't be delivered: the queue is broken.
fn halted(left: u16, registers: Registers, counters: Counters, cause: Cause) -> Attempt
    requires { FitRegisters registers }
    ensures { (result ≡ halted_by cause left registers counters) × FitRegisters result.registers }
{
    Attempt {
        ended: true,
        left,
        answer: rules::broken_answer(NUMBER as u8, cause),
        registers: registers.break_down(),
        counters,
    }
}

// The event can't be delivered: no chain has room for it.
fn without_buffer(registers: Registers, counters: Counters) -> Attempt
    ensures { result ≡ without_buffer registers counters }
{
    Attempt {
        ended: true, // there is no entry to try
        left: 0,
        answer: registers::plain(registers::NO_EVENT_BUFFER),
        registers,
        counters,
    }
}

// The next entry of the event queue, tried: so many are left after it.
fn try_entry(
    m: &mut [u8],
    left: u16,
    registers: Registers,
    counters: Counters,
    event: Event,
) -> Attempt
    requires { FitRegisters registers }
    ensures { ((rest : Rest) → tried event.code event.«data» (holding registers counters rest) m.old ≡ tried_in rest result m.new)
        × FitRegisters result.registers × (result.left ≡ left) }
{
    let page = registers.pages[NUMBER];
    let size = queue_size();
    match ring::next_head(m, page, size, counters.taken) {
        Err(cause) => halted(left, registers, counters, cause),
        Ok(head) => {
            let mut words = [0u64; 68];
            match room_at(m, &mut words, page, head, registers.indirect()) {
                Some(reply) => {
                    let posted = deliver(m, &words, page, counters.completed, head, reply, event);
                    counted(true, left, registers, counters, posted)
                }
                None => {
                    let posted = pass_over(m, page, counters.completed, head);
                    counted(false, left, registers, counters, posted)
                }
            }
        }
    }
}

// At most `new` entries, tried one after the other: the attempt that is returned has ended.
fn try_entries(
    m: &mut [u8],
    registers: Registers,
    counters: Counters,
    new: u16,
    event: Event,
) -> Attempt
    requires { FitRegisters registers }
    ensures { ((rest : Rest) → event_run event.code event.«data» new (holding registers counters rest) m.old
        ≡ sent_in rest result m.new)
        × FitRegisters result.registers × (result.ended ≡ true) }
{
    let mut file = registers;
    let mut counts = counters;
    for left in (0..new).rev() {
        let attempt = try_entry(m, left, file, counts, event);
        if attempt.ended {
            return attempt;
        }
        file = attempt.registers;
        counts = attempt.counters;
    }
    without_buffer(file, counts)
}

// The event queue is checked, then its new entries are tried: the attempt that is returned has ended.
pub fn send(m: &mut [u8], registers: Registers, counters: Counters, event: Event) -> Attempt
    requires { FitRegisters registers }
    ensures { ((rest : Rest) → sent_of event.code event.«data» (holding registers counters rest) m.old ≡ sent_in rest result m.new)
        × FitRegisters result.registers × (result.ended ≡ true) }
{
    let page = registers.pages[NUMBER];
    let size = queue_size();
    match ring::check_queue(m, page, size, counters.taken, 0) {
        Ok(Some(new)) => try_entries(m, registers, counters, new, event),
        Ok(None) => without_buffer(registers, counters),
        Err(cause) => halted(0, registers, counters, cause),
    }
}
