// The control call of the card (01, "Control messages"): one message is taken from the control queue,
// read step by step, acted on and answered. A step that fails completes the chain. The card is lent in
// pieces: its small state and parts by value, the words of its chains as slices. Only a request that may
// change the parts hands them on; every other end leaves them as they are.
#![tactic(auto)]

ghost use Rattle.std.specs.Prelude.{◌≡◌, ◌+◌, ◌<◌, ◌≤◌, [], length, replicate};
ghost use Rattle.live.specs.Live.{FitLive, parts_now, card_in};
ghost use Rattle.live.specs.Setters.{with_registers};
ghost use Rattle.card.specs.Fit.{FitParts};
ghost use Rattle.line_calls.specs.Calls.{Request};
ghost use Rattle.line_calls.specs.Streams.{direction_of};
ghost use Rattle.meaning.specs.Card.{step_of, leaves};
ghost use Rattle.meaning.specs.Fit.{Fits, FitQueue, streams_live};
ghost use Rattle.ranges.specs.Ranges.{Sound, no_ranges, ranges_of};
ghost use Rattle.registers.specs.Map.{size_of};
ghost use Rattle.reply.specs.Reply.{closed_of};
ghost use Rattle.requests.specs.Requests.{checked};
ghost use Rattle.ring.specs.Rules.{completion};
ghost use Rattle.rules.specs.Calls.{ReleaseFirst};
ghost use Rattle.device.specs.Device.{output, input, queue_number, signalled_if};
ghost use Rattle.device.specs.Numbers.{control_queue};
ghost use Rattle.controlq.specs.Control.{pending_in, side_of, taken_live, counted_live, marked_live, finish_of, Ends, EmptiesFor, Finds};
ghost use Rattle.controlq.specs.Control.{Meets, Answers, Attends, asks_in, ordered_on, change_step};

use card::{Counters, Parts};
use chain::Chain;
use control::{Asking, Change};
use counts::DescriptorNumber;
use live::Live;
use message::Direction;
use ranges::Ranges;
use registers::Answer;
use reply::{Kind, Pending};
use requests::Check;
use ring::{Cause, Posted};
use stream::Emptied;

// What the call answers: the count is the messages completed.
#[repr(C)]
#[derive(Clone, Copy)]
pub struct ControlAnswer {
    pub answer: Answer,
    pub count: usize,
    pub live: Live,
    pub parts: Parts,
}

// How a call ends: nothing was done, with this answer; a queue is broken; a message is completed.
#[derive(Clone, Copy)]
enum Ending {
    Untouched(u8),
    Broke(u8, Cause),
    Completed(Posted),
}

// A message that is taken, to be answered in its reply.
#[derive(Clone, Copy)]
struct Message {
    head: DescriptorNumber,
    reply: Ranges,
}

// A message that is taken, whose request may change the parts.
#[derive(Clone, Copy)]
struct Changing {
    message: Message,
    change: Change,
}

// The control queue's place among the queues.
const QUEUE: usize = registers::CONTROL_QUEUE as usize;

// How many descriptors the control queue has.
fn queue_size() -> u16
    ensures { result ≡ size_of control_queue }
{
    registers::queue_size(registers::CONTROL_QUEUE)
}

// Whether a side of a message can be used: it lies inside RAM and has the four bytes of a header.
fn judge(len: usize, list: &[u64], ranges: Ranges) -> Check
    requires { Sound list.now ranges }
    ensures { result ≡ checked (side_of len (ranges_of list.now ranges)) }
{
    (ranges::all_inside(len, list, ranges) && ranges.bytes >= 4).then_some(())
}

// One message more is taken.
fn take_one(live: Live) -> Live
    ensures { result ≡ taken_live live }
{
    let counters = live.queues[QUEUE];
    let mut next = live;
    next.queues[QUEUE] = Counters {
        taken: counters.taken.wrapping_add(1),
        ..counters
    };
    next
}

// One message more is completed; the guest may want an interrupt.
fn counted(live: Live, posted: Posted) -> Live
    ensures { result ≡ counted_live posted live }
{
    let mut next = signal(live, posted.interrupt);
    next.queues[QUEUE] = Counters {
        completed: posted.completed,
        ..live.queues[QUEUE]
    };
    next
}

// The answer of a call, with what its end changes of the card.
// Each end has a copy of it: what it answers is big, and is copied once less there.
#[inline(always)]
fn finish(live: Live, parts: Parts, ending: Ending) -> ControlAnswer
    ensures { result ≡ finish_of ending live parts }
{
    match ending {
        Ending::Untouched(number) => ControlAnswer {
            answer: registers::plain(number),
            count: 0,
            live,
            parts,
        },
        Ending::Broke(queue, cause) => ControlAnswer {
            answer: rules::broken_answer(queue, cause),
            count: 0,
            live: Live {
                registers: live.registers.break_down(),
                ..live
            },
            parts,
        },
        Ending::Completed(posted) => ControlAnswer {
            answer: registers::plain(registers::DONE),
            count: 1,
            live: counted(live, posted),
            parts,
        },
    }
}

// What the completion of a message of the control queue needs.
fn pending_in(live: Live, head: DescriptorNumber, reply: Ranges) -> Pending
    ensures { result ≡ pending_in live head reply }
{
    Pending {
        page: live.registers.pages[QUEUE],
        completed: live.queues[QUEUE].completed,
        head,
        reply,
    }
}

// A message without a reply: the used entry, of length 0.
fn complete_mute(live: Live, m: &mut [u8], head: DescriptorNumber) -> Posted
    ensures { completion m.new result ≡ closed_of (pending_in live head no_ranges) 0 m.old }
{
    reply::close(m, pending_in(live, head, Ranges::none()), 0)
}

// ISR bit 0, where a queue asked for it.
fn signal(live: Live, wanted: bool) -> Live
    ensures { result ≡ with_registers (signalled_if wanted live.registers) live }
{
    Live {
        registers: stream::signal_if(wanted, live.registers),
        ..live
    }
}

// The stream is Released; a number that is no stream's changes nothing.
fn mark_released(live: Live, id: u32) -> Live
    requires { FitLive live × (live.config.streams ≤ 6) }
    ensures { result ≡ marked_live id live }
{
    if live.config.streams <= id {
        return live;
    }
    let mut next = live;
    next.states[id as usize] = card::RELEASED;
    next
}

// The number of a stream's queue.
fn queue_of(live: Live, id: u32) -> u8
    ensures { result ≡ queue_number (direction_of (streams_live live) id) }
{
    let direction = if id < live.outputs as u32 {
        Direction::Output
    } else {
        Direction::Input
    };
    message::queue_number(direction)
}

// A stream's line is emptied, with statuses of the backlog that the stream remembers.
fn empty(
    live: Live,
    play_words: &mut [u64],
    capture_words: &mut [u64],
    m: &mut [u8],
    id: u32,
) -> Emptied
    requires { FitLive live × FitQueue output live play_words.old × FitQueue input live capture_words.old
        × (length m.old ≡ live.ram_len) × (id < live.outputs + live.inputs) }
    ensures { EmptiesFor id live play_words.old capture_words.old m.old
        play_words.new capture_words.new m.new result }
{
    let latency = stream::backlog(live, id);
    let outputs = live.outputs as u32;
    if id < outputs {
        return stream::empty(live, play_words, m, Direction::Output, latency, id);
    }
    stream::empty(
        live,
        capture_words,
        m,
        Direction::Input,
        latency,
        id - outputs,
    )
}

// A stream is released: its line first, then the stream is Released and the message answered. If the
// queue broke, the message stays taken and the stream keeps its state.
fn release(
    live: Live,
    parts: Parts,
    play_words: &mut [u64],
    capture_words: &mut [u64],
    m: &mut [u8],
    list: &[u64],
    message: Message,
    id: u32,
) -> ControlAnswer
    requires { Fits live parts play_words.old capture_words.old × (length m.old ≡ live.ram_len)
        × (id < live.outputs + live.inputs) }
    ensures { Ends
        (ordered_on (card_in live parts play_words.old capture_words.old)
        (ReleaseFirst id
        (asks_in (card_in live parts play_words.old capture_words.old) list.now message))
        m.old)
        result play_words.new capture_words.new m.new }
{
    let emptied = empty(live, play_words, capture_words, m, id);
    let signalled = signal(emptied.live, emptied.signal);
    match emptied.stop {
        Some(cause) => finish(signalled, parts, Ending::Broke(queue_of(live, id), cause)),
        None => {
            let marked = mark_released(signalled, id);
            let pending = pending_in(marked, message.head, message.reply);
            let posted = reply::complete(m, list, pending, message::OK);
            finish(marked, parts, Ending::Completed(posted))
        }
    }
}

// A request that may change the parts, by its first bytes. It stands apart in the card too: no other end needs its room.
#[inline(never)]
fn change(
    live: Live,
    parts: Parts,
    play_words: &mut [u64],
    capture_words: &mut [u64],
    m: &mut [u8],
    list: &[u64],
    message: Message,
    asked: Change,
    request: &[u8],
) -> ControlAnswer
    requires { Fits live parts play_words.old capture_words.old × (length m.old ≡ live.ram_len) }
    ensures { Ends
        (change_step asked (card_in live parts play_words.old capture_words.old) list.now message
        request.now m.old)
        result play_words.new capture_words.new m.new }
{
    let pending = pending_in(live, message.head, message.reply);
    let current = live::parts_now(live, parts);
    let served = control::act(m, list, current, pending, asked, request);
    match served.kind {
        Kind::Completed(posted) => {
            let after = served.parts;
            finish(live::keep(live, after), after, Ending::Completed(posted))
        }
        Kind::Release(id) => release(live, parts, play_words, capture_words, m, list, message, id),
    }
}

// The checks of the call, and the head of the next message; or the end of a call that takes none.
fn find_next(live: Live, m: &[u8]) -> Result<DescriptorNumber, Ending>
    ensures { Finds live m.now result }
{
    if m.len() != live.ram_len {
        return Err(Ending::Untouched(registers::LENGTH_DIFFERS));
    }
    if !live.registers.is_live() {
        return Err(Ending::Untouched(registers::NOT_LIVE));
    }
    let page = live.registers.pages[QUEUE];
    let counters = live.queues[QUEUE];
    let size = queue_size();
    match ring::check_queue(m, page, size, counters.taken, 0) {
        Ok(None) => Err(Ending::Untouched(registers::DONE)),
        Ok(Some(0)) => Err(Ending::Untouched(registers::DONE)),
        Ok(Some(_)) => match ring::next_head(m, page, size, counters.taken) {
            Ok(head) => Ok(head),
            Err(cause) => Err(Ending::Broke(QUEUE as u8, cause)),
        },
        Err(cause) => Err(Ending::Broke(QUEUE as u8, cause)),
    }
}

// The message at `head`, taken: its chain is walked and its sides are judged. One without a reply that can be used is
// completed with length 0, one without such a request with BAD_MSG.
fn meet(
    live: Live,
    m: &mut [u8],
    words: &mut [u64],
    head: DescriptorNumber,
) -> Result<Chain, Posted>
    requires { length words.old ≡ 68 }
    ensures { Meets live head m.old words.new m.new result }
{
    let registers = live.registers;
    let page = registers.pages[QUEUE];
    let size = queue_size();
    let Ok(chain) = chain::walk(m, words, page.address(), size, head, registers.indirect()) else {
        return Err(complete_mute(live, m, head));
    };
    let Some(()) = judge(m.len(), words, chain.reply) else {
        return Err(complete_mute(live, m, head));
    };
    let Some(()) = judge(m.len(), words, chain.request) else {
        let pending = pending_in(live, head, chain.reply);
        return Err(reply::complete(m, words, pending, rules::BAD_MSG));
    };
    Ok(chain)
}

// A message with both sides, by its request: refused or informed, it is completed; else this is left to do, where the
// parts may change. The request's first bytes are put into `bytes`.
fn answer(
    live: Live,
    parts: Parts,
    m: &mut [u8],
    list: &[u64],
    bytes: &mut [u8],
    message: Message,
    request: Ranges,
) -> Result<Change, Posted>
    requires { FitParts (parts_now live parts) × (length m.old ≡ live.ram_len) × Sound list.now request
        × (bytes.old ≡ replicate 24 0) }
    ensures { Answers live parts list.now request message m.old bytes.new m.new result }
{
    let room = message.reply.bytes;
    let pending = pending_in(live, message.head, message.reply);
    match control::read(m, list, pending, request, bytes)? {
        Asking::Informs(l) => {
            Err(requests::inform(m, list, live, parts, pending, l, bytes, room))
        }
        Asking::Changes(change) => Ok(change),
    }
}

// The message at `head`, taken: completed, or left to do where the parts may change; the words of its chain and the
// first bytes of its request are left in `words` and `bytes`.
fn attend(
    live: Live,
    parts: Parts,
    m: &mut [u8],
    words: &mut [u64],
    bytes: &mut [u8],
    head: DescriptorNumber,
) -> Result<Changing, Posted>
    requires { FitParts (parts_now live parts) × (length m.old ≡ live.ram_len) × (length words.old ≡ 68)
        × (bytes.old ≡ replicate 24 0) }
    ensures { Attends live parts head m.old words.new bytes.new m.new result }
{
    let chain = meet(live, m, words, head)?;
    let message = Message {
        head,
        reply: chain.reply,
    };
    let change = answer(live, parts, m, words, bytes, message, chain.request)?;
    Ok(Changing { message, change })
}

// The control call: one message of the control queue.
pub fn control(
    live: Live,
    parts: Parts,
    play_words: &mut [u64],
    capture_words: &mut [u64],
    m: &mut [u8],
) -> ControlAnswer
    requires { Fits live parts play_words.old capture_words.old }
    ensures { (step_of (card_in live parts play_words.old capture_words.old) Request.Control m.old
        ≡ leaves (card_in result.live result.parts play_words.new capture_words.new) result.answer result.count [] []
        m.new)
        × Fits result.live result.parts play_words.new capture_words.new }
{
    let head = match find_next(live, m) {
        Ok(head) => head,
        Err(ending) => return finish(live, parts, ending),
    };
    let taken = take_one(live);
    let mut words = [0u64; 68];
    let mut bytes = [0u8; 24];
    match attend(taken, parts, m, &mut words, &mut bytes, head) {
        Err(posted) => finish(taken, parts, Ending::Completed(posted)),
        Ok(left) => {
            // What `change` answers has a place of its own: parts that stay as they were are copied once less.
            let changed = change(
                taken,
                parts,
                play_words,
                capture_words,
                m,
                &words,
                left.message,
                left.change,
                &bytes,
            );
            changed
        }
    }
}
