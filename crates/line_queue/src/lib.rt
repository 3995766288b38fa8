// A job on a stream queue with lines (order 8): the queue is checked, all new entries are taken, and the line of one
// stream is worked, or ended by its Release.
#![tactic(auto)]

ghost use Rattle.std.specs.Prelude.{◌≡◌, ◌<◌, ◌≤◌, length};
ghost use Rattle.line_chains.specs.Queue.{virtqueue_of};
ghost use Rattle.line_words.specs.Slots.{FitSlot, FitSlots};
ghost use Rattle.line_queue.specs.Between.{FitLines};
ghost use Rattle.line_queue.specs.Runs.{front_in, progress_of, WorksSlot, WorksLine, Ran};

use card::{Counters, Message};
use flow::Flow;
pub use flow::Job;
use line_chains::LineQueue;
pub use line_taking::Progress;
use line_words::{MARKS, RING};
use line_work::Front;
use waiting::Line;

// The front of a line, from its marks.
fn front_of(p: Progress, message: Message, line: Line) -> Front
    ensures { result ≡ front_in p message line }
{
    Front {
        flow: Flow {
            counters: p.counters,
            message,
            moved: p.moved,
            stop: p.stop,
            signal: p.signal,
        },
        line,
    }
}

// A call's progress without its front.
fn progress_of(f: Flow) -> Progress
    ensures { result ≡ progress_of f }
{
    Progress {
        counters: f.counters,
        moved: f.moved,
        stop: f.stop,
        signal: f.signal,
    }
}

// The messages of the line of a slot worked; its marks say what is left.
fn work_slot(
    m: &mut [u8],
    slot: &mut [u64],
    host: &mut [u8],
    q: LineQueue,
    p: Progress,
    line: u32,
    job: Job,
) -> Progress
    requires { (79 ≤ length slot.old) × FitSlot (length m.old) slot.old × (p.moved ≤ length host.old) }
    ensures { WorksSlot (virtqueue_of q) line job slot.old m.old host.old p
        slot.new m.new host.new result }
{
    let message = marks::message(&slot[MARKS..RING]);
    let waiting = marks::line(&slot[MARKS..RING]);
    let front = front_of(p, message, waiting);
    let done = line_work::work_line(m, slot, host, q, front, line, job);
    marks::store(&mut slot[MARKS..RING], done.flow.message);
    marks::store_line(&mut slot[MARKS..RING], done.line);
    progress_of(done.flow)
}

// The line of a stream worked, unless the queue broke.
fn work_words(
    m: &mut [u8],
    words: &mut [u64],
    host: &mut [u8],
    q: LineQueue,
    p: Progress,
    line: u32,
    job: Job,
) -> Progress
    requires { FitSlots (virtqueue_of q) (length m.old) words.old × (line < q.streams) × (p.moved ≤ length host.old) }
    ensures { WorksLine (virtqueue_of q) line job words.old m.old host.old p
        words.new m.new host.new result }
{
    let None = p.stop else {
        return p;
    };
    let size = line_words::slot_words(q);
    let from = size * line as usize;
    let to = from + size;
    work_slot(m, &mut words[from..to], host, q, p, line, job)
}

// A job on the stream of this line.
pub fn run(
    m: &mut [u8],
    words: &mut [u64],
    host: &mut [u8],
    q: LineQueue,
    counters: Counters,
    line: u32,
    job: Job,
) -> Progress
    requires { FitLines (virtqueue_of q) (length m.old) words.old counters × (line < q.streams) }
    ensures { Ran (virtqueue_of q) line job words.old m.old host.old counters
        words.new m.new host.new result }
{
    let size = message::queue_size(q.queue.direction);
    let in_line = counters.taken.wrapping_sub(counters.completed);
    match ring::check_queue(m, q.queue.page, size, counters.taken, in_line) {
        Ok(Some(new)) => {
            let p = line_taking::take_all(m, words, q, counters, new);
            work_words(m, words, host, q, p, line, job)
        }
        Ok(None) => line_taking::begin(counters),
        Err(cause) => line_taking::halt(line_taking::begin(counters), cause),
    }
}
