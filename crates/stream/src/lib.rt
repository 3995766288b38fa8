// A stream queue in the small state of the card: where the guest laid it out, its streams and its counters, a
// job on one of its lines, and the emptying of a line by a RELEASE (01, "Control messages"). The words of the
// queue, in which its lines stand, are lent beside the state.
#![tactic(auto)]

ghost use Rattle.std.specs.Prelude.{◌≡◌, ◌*◌, ◌≤◌, ◌<◌, length};
ghost use Rattle.live.specs.Live.{FitLive};
ghost use Rattle.device.specs.Answers.{broken_by};
ghost use Rattle.message.specs.Message.{direction_of};
ghost use Rattle.registers.specs.Fit.{FitRegisters};
ghost use Rattle.device.specs.Device.{signalled_if};
ghost use Rattle.queue_lines.specs.Chains.{queue_size};
ghost use Rattle.line_chains.specs.Queue.{virtqueue_of};
ghost use Rattle.line_words.specs.Slots.{slot_words};
ghost use Rattle.line_calls.specs.Streams.{count_of};
ghost use Rattle.meaning.specs.Fit.{streams_live, dropped_live, counters_live};
ghost use Rattle.stream.specs.Queue.{laid_out, line_queue_in, Settles, RunsOn, progress_live, FitOwn, Remembers, EmptiesOn};

use card::Counters;
use line_chains::LineQueue;
pub use line_queue::{Job, Progress};
use live::Live;
use message::{Direction, Virtqueue};
use registers::Registers;
use ring::Cause;

// The queues of the streams, as places in the card's arrays.
const PLAY: usize = registers::PLAY_QUEUE as usize;

const CAPTURE: usize = registers::CAPTURE_QUEUE as usize;

// What a RELEASE made of a stream's queue: why it broke, where it did, an interrupt wanted, the small state.
#[derive(Clone, Copy)]
pub struct Emptied {
    pub stop: Option<Cause>,
    pub signal: bool,
    pub live: Live,
}

// ISR bit 0, where an interrupt is wanted.
pub fn signal_if(wanted: bool, registers: Registers) -> Registers
    ensures { result ≡ signalled_if wanted registers }
{
    if wanted {
        registers.signal()
    } else {
        registers
    }
}

// A breakdown, where the queue is broken.
pub fn break_by(stop: Option<Cause>, registers: Registers) -> Registers
    ensures { result ≡ broken_by stop registers }
{
    match stop {
        Some(_) => registers.break_down(),
        None => registers,
    }
}

// The backlog that a stream remembers; 0 where it is absent.
pub fn backlog(live: Live, id: u32) -> u32
    requires { FitLive live }
    ensures { Remembers live id result }
{
    let i = id as usize;
    if description::STREAMS <= i {
        return 0;
    }
    if live.config.streams <= id {
        return 0;
    }
    let backlogs = live.backlogs;
    backlogs[i]
}

// The queue of a direction as the guest laid it out, in a call whose statuses carry this latency.
fn virtqueue(registers: Registers, direction: Direction, latency: u32) -> Virtqueue
    requires { FitRegisters registers }
    ensures { result ≡ laid_out registers direction latency }
{
    let page = match direction {
        Direction::Output => registers.pages[PLAY],
        Direction::Input => registers.pages[CAPTURE],
    };
    Virtqueue {
        direction,
        page,
        indirect: registers.indirect(),
        latency,
    }
}

// .. with its streams: the outputs first, the inputs behind them.
fn queue_of(live: Live, direction: Direction, latency: u32) -> LineQueue
    requires { FitLive live }
    ensures { result ≡ line_queue_in live direction latency }
{
    let queue = virtqueue(live.registers, direction, latency);
    match direction {
        Direction::Output => LineQueue {
            queue,
            first: 0,
            streams: live.outputs as u32,
        },
        Direction::Input => LineQueue {
            queue,
            first: live.outputs as u32,
            streams: live.inputs as u32,
        },
    }
}

// The counters of the queue of a direction.
fn counters_of(live: Live, direction: Direction) -> Counters
    requires { FitLive live }
    ensures { result ≡ counters_live (direction_of direction) live }
{
    match direction {
        Direction::Output => live.queues[PLAY],
        Direction::Input => live.queues[CAPTURE],
    }
}

// Whether the lines of the queue of a direction were dropped.
fn is_dropped(live: Live, direction: Direction) -> bool
    ensures { result ≡ dropped_live (direction_of direction) live }
{
    match direction {
        Direction::Output => live.play_dropped,
        Direction::Input => live.capture_dropped,
    }
}

// The words of a queue as its lines: where these were dropped, every line is empty.
fn settle(words: &mut [u64], q: LineQueue, dropped: bool)
    requires { slot_words (queue_size (virtqueue_of q)) * q.streams ≤ length words.old }
    ensures { Settles (virtqueue_of q) dropped words.old words.new }
{
    if dropped {
        line_words::clear(words, q);
    }
}

// A job on a line of the queue of a direction, with statuses of this latency.
pub fn run(
    live: Live,
    words: &mut [u64],
    m: &mut [u8],
    host: &mut [u8],
    direction: Direction,
    latency: u32,
    line: u32,
    job: Job,
) -> Progress
    requires { FitOwn direction live words.old × (length m.old ≡ live.ram_len)
        × (line < count_of (streams_live live) (direction_of direction)) }
    ensures { RunsOn direction latency line job live words.old m.old host.old
        words.new m.new host.new result }
{
    let q = queue_of(live, direction, latency);
    let counters = counters_of(live, direction);
    settle(words, q, is_dropped(live, direction));
    line_queue::run(m, words, host, q, counters, line, job)
}

// The small state after a job on the queue of a direction: its counters, and its lines stand in its words.
pub fn with_progress(mut live: Live, direction: Direction, p: Progress) -> Live
    ensures { result ≡ progress_live direction p live }
{
    match direction {
        Direction::Output => {
            live.queues[PLAY] = p.counters;
            live.play_dropped = false;
        }
        Direction::Input => {
            live.queues[CAPTURE] = p.counters;
            live.capture_dropped = false;
        }
    }
    live
}

// A RELEASE of the stream of this line, past its checks: the queue is checked, all entries are taken, and the
// line is ended, with statuses of this latency. The interrupt is the caller's to set.
pub fn empty(
    live: Live,
    words: &mut [u64],
    m: &mut [u8],
    direction: Direction,
    latency: u32,
    line: u32,
) -> Emptied
    requires { FitOwn direction live words.old × (length m.old ≡ live.ram_len)
        × (line < count_of (streams_live live) (direction_of direction)) }
    ensures { EmptiesOn direction line latency live words.old m.old words.new m.new result }
{
    let mut host = [0u8; 0];
    let p = run(
        live,
        words,
        m,
        &mut host,
        direction,
        latency,
        line,
        Job::Release,
    );
    Emptied {
        stop: p.stop,
        signal: p.signal,
        live: with_progress(live, direction, p),
    }
}
