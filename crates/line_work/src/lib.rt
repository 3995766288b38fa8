// The line of one stream on its queue (order 8): its front is read, worked or ended, and so on until the line is
// empty, or a transfer has no room.
#![tactic(auto)]

ghost use Rattle.std.specs.Prelude.{◌≡◌, ◌≤◌, length};
ghost use Rattle.card.specs.Fit.{FitMessage};
ghost use Rattle.device.specs.Transfer.{is_well};
ghost use Rattle.flow.specs.Flow.{Steps};
ghost use Rattle.message.specs.Message.{form_in, taking_in, FitTaken};
ghost use Rattle.waiting.specs.Waiting.{FitLine};
ghost use Rattle.line_chains.specs.Queue.{virtqueue_of};
ghost use Rattle.line_words.specs.Slots.{chain_in, ring_in};
ghost use Rattle.line_work.specs.Work.{begun_flow, read_run, open_run, Opens, FitFront, Works};

use counts::DescriptorNumber;
use flow::{Flow, Job};
use line_chains::LineQueue;
use line_words::{MARKS, RING};
use message::{Form, Taken};
use waiting::Line;

// A call's progress on a queue with the message in work of one line, and where this line stands.
#[derive(Clone, Copy)]
pub struct Front {
    pub flow: Flow,
    pub line: Line,
}

fn is_well(form: Form) -> bool
    ensures { result ≡ is_well (form_in form) }
{
    matches!(form, Form::WellFormed)
}

// A well-formed message is in work, nothing of it moved.
fn begin(f: Flow, chain: Taken) -> Flow
    ensures { result ≡ begun_flow chain f }
{
    Flow {
        message: card::Message {
            count: 1,
            head: chain.head,
            done: 0,
            request: chain.request,
            reply: chain.reply,
        },
        ..f
    }
}

// A front that was read: a well-formed message is in work, an ill-formed one completed at once.
fn enter(m: &mut [u8], list: &[u64], q: LineQueue, f: Flow, chain: Taken) -> Flow
    requires { (f.message.count ≡ 0) × FitTaken (length m.old) list.now chain
        × FitMessage (length m.old) list.now f.message }
    ensures { Steps (read_run (virtqueue_of q) (taking_in list.now chain))
        list.now m.old f list.now m.new result }
{
    if is_well(chain.form) {
        return begin(f, chain);
    }
    let mut counters = f.counters;
    let posted = line_chains::refuse(m, list, q, counters.completed, chain);
    counters.completed = posted.completed;
    Flow {
        counters,
        signal: f.signal | posted.interrupt,
        ..f
    }
}

// The front at `head` is read anew, its ranges put into the list.
fn read_front(
    m: &mut [u8],
    list: &mut [u64],
    q: LineQueue,
    f: Flow,
    line: u32,
    head: DescriptorNumber,
) -> Flow
    requires { (f.message.count ≡ 0) × (68 ≤ length list.old) × FitMessage (length m.old) list.old f.message }
    ensures { Steps (open_run (virtqueue_of q) line head.0)
        list.old m.old f list.new m.new result }
{
    let chain = line_chains::read(m, list, q, line, head);
    enter(m, list, q, f, chain)
}

// The front is opened, where none is in work and somebody waits.
fn open_front(m: &mut [u8], slot: &mut [u64], q: LineQueue, front: Front, line: u32) -> Front
    requires { (79 ≤ length slot.old) × FitMessage (length m.old) (chain_in slot.old) front.flow.message
        × FitLine (length (ring_in slot.old)) front.line }
    ensures { Opens (virtqueue_of q) line slot.old m.old front slot.new m.new result }
{
    let f = front.flow;
    if f.message.count != 0 {
        return front;
    }
    let waiting = front.line;
    if waiting.count == 0 {
        return front;
    }
    let end = slot.len();
    let head = waiting.front(&slot[RING..end]);
    let rest = waiting.leave(&slot[RING..end]);
    let flow = read_front(m, &mut slot[0..MARKS], q, f, line, head);
    Front { flow, line: rest }
}

// A job on the messages of a line, as far as it goes on.
pub fn work_line(
    m: &mut [u8],
    slot: &mut [u64],
    host: &mut [u8],
    q: LineQueue,
    front: Front,
    line: u32,
    job: Job,
) -> Front
    requires { (79 ≤ length slot.old) × FitFront (length m.old) (length host.old) slot.old front }
    ensures { Works (virtqueue_of q) line job slot.old m.old host.old front
        slot.new m.new host.new result }
{
    let mut at = front;
    for _ in 0..front.flow.message.count as u32 + front.line.count as u32 {
        if !flow::reaches(job, at.flow.moved, host.len()) {
            return at;
        }
        at = open_front(m, slot, q, at, line);
        at.flow = flow::work(m, &slot[0..MARKS], host, q.queue, at.flow, job);
    }
    at
}
