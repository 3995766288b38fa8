// The words of a stream queue with lines (order 8): a slot for each of its streams. In a slot stand the chain that
// is remembered, the marks, and the ring of the waiting heads.
#![tactic(auto)]

ghost use Rattle.std.specs.Prelude.{◌≡◌, ◌+◌, ◌*◌, ◌≤◌, ◌<◌, length};
ghost use Rattle.line_chains.specs.Queue.{virtqueue_of};
ghost use Rattle.queue_lines.specs.Chains.{queue_size};
ghost use Rattle.line_words.specs.Slots.{slot_words};
ghost use Rattle.line_words.specs.Joined.{Roomy, Pushed, Open, Joined};
ghost use Rattle.line_words.specs.Cleared.{Vacant, Vacates, Cleared};

use counts::DescriptorNumber;
use line_chains::LineQueue;
use waiting::Line;

// Where the marks and the ring stand in a slot.
pub const MARKS: usize = 68;

pub const RING: usize = MARKS + marks::WORDS;

// How many words a slot of the queue has.
pub fn slot_words(q: LineQueue) -> usize
    ensures { result ≡ slot_words (queue_size (virtqueue_of q)) }
{
    RING + message::queue_size(q.queue.direction) as usize
}

// A head more at the end of the line of a slot.
fn push(slot: &mut [u64], head: DescriptorNumber)
    requires { Roomy slot.old }
    ensures { Pushed head.0 slot.old slot.new }
{
    let line = marks::line(&slot[MARKS..RING]);
    let end = slot.len();
    let longer = line.join(&mut slot[RING..end], head);
    marks::store_line(&mut slot[MARKS..RING], longer);
}

// An entry taken into a line.
pub fn join(words: &mut [u64], q: LineQueue, line: u32, head: DescriptorNumber)
    requires { Open (virtqueue_of q) line words.old }
    ensures { Joined (virtqueue_of q) line head.0 words.old words.new }
{
    let size = slot_words(q);
    let from = size * line as usize;
    let to = from + size;
    push(&mut words[from..to], head);
}

// The line of a slot empty, whatever its words held.
fn vacate(slot: &mut [u64])
    requires { (79 < length slot.old) × (length slot.old ≤ 79 + 65535) }
    ensures { Vacant slot.new }
{
    marks::store(&mut slot[MARKS..RING], card::no_message());
    marks::store_line(&mut slot[MARKS..RING], Line::empty());
}

// A line of the queue empty; the others stay.
fn vacate_line(words: &mut [u64], q: LineQueue, line: u32)
    requires { (slot_words (queue_size (virtqueue_of q)) * q.streams ≤ length words.old) × (line < q.streams) }
    ensures { Vacates (virtqueue_of q) line words.old words.new }
{
    let size = slot_words(q);
    let from = size * line as usize;
    let to = from + size;
    vacate(&mut words[from..to]);
}

// Every line of the queue empty, whatever the words held.
pub fn clear(words: &mut [u64], q: LineQueue)
    requires { slot_words (queue_size (virtqueue_of q)) * q.streams ≤ length words.old }
    ensures { Cleared (virtqueue_of q) words.new }
{
    for line in 0..q.streams {
        vacate_line(words, q, line);
    }
}
