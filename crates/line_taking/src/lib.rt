// Taking on a stream queue with lines (order 8): "Each play, capture or Release, naming its stream, first takes all
// new entries".
#![tactic(auto)]

ghost use Rattle.std.specs.Prelude.{◌≡◌, ◌+◌, ◌≤◌, length};
ghost use Rattle.message.specs.Message.{taking_in, FitTaken};
ghost use Rattle.queue_lines.specs.Chains.{at_once, arrival_of, queue_size};
ghost use Rattle.queue_lines.specs.Claim.{card};
ghost use Rattle.queue_lines.specs.Counters.{sum_of, length_of};
ghost use Rattle.queue_lines.specs.Rules.{taken, next, taking_run};
ghost use Rattle.line_chains.specs.Queue.{virtqueue_of};
ghost use Rattle.line_words.specs.Slots.{lines_of, FitSlots};
ghost use Rattle.line_taking.specs.Progress.{fresh, halted, joined, Space, Takes};

use card::Counters;
use counts::DescriptorNumber;
use line_chains::{Arrival, LineQueue};
use line_words::MARKS;
use message::Taken;
use ring::Cause;

// A call's progress on a queue: its counters, the host bytes moved so far, why the queue broke, where it did, an
// interrupt wanted.
#[derive(Clone, Copy)]
pub struct Progress {
    pub counters: Counters,
    pub moved: usize,
    pub stop: Option<Cause>,
    pub signal: bool,
}

// A call that begins.
pub fn begin(counters: Counters) -> Progress
    ensures { result ≡ fresh counters }
{
    Progress {
        counters,
        moved: 0,
        stop: None,
        signal: false,
    }
}

// The queue is broken: nothing more is taken.
pub fn halt(p: Progress, cause: Cause) -> Progress
    ensures { result ≡ halted cause p }
{
    Progress {
        stop: Some(cause),
        ..p
    }
}

// An entry that joined its line.
fn count_taken(mut p: Progress) -> Progress
    ensures { result ≡ joined p }
{
    p.counters.taken = p.counters.taken.wrapping_add(1);
    p
}

// An entry that is answered at once.
fn bounce(
    m: &mut [u8],
    words: &[u64],
    list: &[u64],
    q: LineQueue,
    p: Progress,
    chain: Taken,
) -> Progress
    requires { FitTaken (length m.old) list.now chain × FitSlots (virtqueue_of q) (length m.old) words.now }
    ensures { Takes (virtqueue_of q)
        (taken (card (virtqueue_of q)) (virtqueue_of q) chain.head.0 (at_once (taking_in list.now chain)))
        words.now m.old p words.now m.new result }
{
    let mut counters = p.counters;
    let posted = line_chains::refuse(m, list, q, counters.completed, chain);
    counters.taken = counters.taken.wrapping_add(1);
    counters.completed = posted.completed;
    Progress {
        counters,
        signal: p.signal | posted.interrupt,
        ..p
    }
}

// The entry at `head` is taken: it joins its line, or is answered at once.
fn take(
    m: &mut [u8],
    words: &mut [u64],
    list: &mut [u64],
    q: LineQueue,
    p: Progress,
    head: DescriptorNumber,
) -> Progress
    requires { FitSlots (virtqueue_of q) (length m.old) words.old × Space (virtqueue_of q) words.old × (68 ≤ length list.old) }
    ensures { Takes (virtqueue_of q)
        (taken (card (virtqueue_of q)) (virtqueue_of q) head.0 (arrival_of (virtqueue_of q) m.old head.0))
        words.old m.old p words.new m.new result }
{
    match line_chains::arrive(m, list, q, head) {
        Arrival::InLine(line) => {
            line_words::join(words, q, line, head);
            count_taken(p)
        }
        Arrival::AtOnce(chain) => bounce(m, words, list, q, p, chain),
    }
}

// The next new entry, unless the queue broke; a bad head is not taken.
fn take_next(
    m: &mut [u8],
    words: &mut [u64],
    list: &mut [u64],
    q: LineQueue,
    p: Progress,
) -> Progress
    requires { FitSlots (virtqueue_of q) (length m.old) words.old × Space (virtqueue_of q) words.old × (68 ≤ length list.old) }
    ensures { Takes (virtqueue_of q) (next (card (virtqueue_of q)) (virtqueue_of q))
        words.old m.old p words.new m.new result }
{
    let None = p.stop else {
        return p;
    };
    let size = message::queue_size(q.queue.direction);
    match ring::next_head(m, q.queue.page, size, p.counters.taken) {
        Ok(head) => take(m, words, list, q, p, head),
        Err(cause) => halt(p, cause),
    }
}

// All new entries, `new` in number, which the queue has room for.
pub fn take_all(
    m: &mut [u8],
    words: &mut [u64],
    q: LineQueue,
    counters: Counters,
    new: u16,
) -> Progress
    requires { FitSlots (virtqueue_of q) (length m.old) words.old
        × (sum_of length_of (lines_of (queue_size (virtqueue_of q)) q.streams words.old) + new ≤ queue_size (virtqueue_of q)) }
    ensures { Takes (virtqueue_of q) (taking_run (card (virtqueue_of q)) (virtqueue_of q) new)
        words.old m.old (fresh counters) words.new m.new result }
{
    let mut list = [0u64; MARKS];
    let mut p = begin(counters);
    for _ in 0..new {
        p = take_next(m, words, &mut list, q, p);
    }
    p
}
