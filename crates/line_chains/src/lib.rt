// The chains of a stream queue with lines (order 8): judged when they are taken, and read anew when work on
// them, or their Release, begins.
#![tactic(auto)]

ghost use Rattle.std.specs.Prelude.{◌≡◌, ◌&&◌, ◌+◌, ◌≤◌, eqb, length};
ghost use Rattle.chain.specs.Walk.{outcome_of, SoundWalk};
ghost use Rattle.ring.specs.Rules.{completion};
ghost use Rattle.ranges.specs.Ranges.{ranges_of, all_inside, no_ranges, Sound};
ghost use Rattle.message.specs.declared.Form.TheVariants.{Unwalked};
ghost use Rattle.device.specs.Transfer.{id_of, sized};
ghost use Rattle.message.specs.Message.{direction_of, form_in, taking_in, FitTaken};
ghost use Rattle.queue_lines.specs.Chains.{walked, judged, arrival_of, reading_of};
ghost use Rattle.line_chains.specs.Queue.{virtqueue_of, place_of, arrival_in, FitArrival, own_status, refused_of};

use chain::{Chain, Fault};
use counts::DescriptorNumber;
use message::{Form, Taken, Virtqueue};
use ranges::Ranges;
use ring::Posted;

// A stream queue in a call: where the guest laid it out, the number of its first stream, and how many it has.
#[derive(Clone, Copy)]
pub struct LineQueue {
    pub queue: Virtqueue,
    pub first: u32,
    pub streams: u32,
}

// What becomes of an entry when it is taken: it joins this line, or is answered at once.
#[derive(Clone, Copy)]
pub enum Arrival {
    InLine(u32),
    AtOnce(Taken),
}

// The form of a chain that was walked whole; `sound` is what the I/O order asks of more than its reply.
fn form_by(m: &[u8], list: &[u64], reply: Ranges, sound: bool) -> Form
    requires { Sound list.now reply }
    ensures { form_in result ≡ judged m.now (ranges_of list.now reply) sound }
{
    if !ranges::all_inside(m.len(), list, reply) || reply.bytes < 8 {
        Form::Silent
    } else if sound {
        Form::WellFormed
    } else {
        Form::Refused
    }
}

// The line that a request names, where its stream is on the queue.
fn place_of(m: &[u8], list: &[u64], q: LineQueue, request: Ranges) -> Option<u32>
    requires { Sound list.now request }
    ensures { result ≡ place_of (virtqueue_of q) m.now (ranges_of list.now request) }
{
    if !ranges::all_inside(m.len(), list, request) || request.bytes < 4 {
        return None;
    }
    let id = message::stream_id(m, list, request);
    if q.first <= id && id - q.first < q.streams {
        Some(id - q.first)
    } else {
        None
    }
}

// Whether a request is one of this line, and both sides have the lengths that the direction asks.
fn is_of_line(m: &[u8], list: &[u64], q: LineQueue, line: u32, request: Ranges, reply: u32) -> bool
    ensures { result ≡ all_inside (length m.now) (ranges_of list.now request)
        && eqb (id_of m.now (ranges_of list.now request)) (q.first + line)
        && sized (direction_of q.queue.direction) request.bytes reply }
{
    if !ranges::all_inside(m.len(), list, request) {
        return false;
    }
    let id = message::stream_id(m, list, request) as u64;
    id == q.first as u64 + line as u64 && message::is_sized(q.queue.direction, request.bytes, reply)
}

// The chain at `head`, its ranges put into the list; or its fault.
fn walk(m: &[u8], list: &mut [u64], q: LineQueue, head: DescriptorNumber) -> Result<Chain, Fault>
    requires { 68 ≤ length list.old }
    ensures { (outcome_of list.new result ≡ walked (virtqueue_of q) m.now head.0)
        × SoundWalk list.new result }
{
    let queue = q.queue;
    let size = message::queue_size(queue.direction);
    chain::walk(m, list, queue.page.address(), size, head, queue.indirect)
}

// A chain that can't be walked.
fn unwalked(fault: Fault, head: DescriptorNumber) -> Taken
    ensures { result ≡ record { form = Unwalked fault; head = head; request = no_ranges; reply = no_ranges } }
{
    Taken {
        form: Form::Unwalked(fault),
        head,
        request: Ranges::none(),
        reply: Ranges::none(),
    }
}

// An entry that is taken, its ranges put into the list.
pub fn arrive(m: &[u8], list: &mut [u64], q: LineQueue, head: DescriptorNumber) -> Arrival
    requires { 68 ≤ length list.old }
    ensures { (arrival_in list.new result ≡ arrival_of (virtqueue_of q) m.now head.0)
        × FitArrival (length m.now) list.new result }
{
    let chain = match walk(m, list, q, head) {
        Ok(chain) => chain,
        Err(fault) => return Arrival::AtOnce(unwalked(fault, head)),
    };
    match place_of(m, list, q, chain.request) {
        Some(line) => Arrival::InLine(line),
        None => Arrival::AtOnce(Taken {
            form: form_by(m, list, chain.reply, false),
            head,
            request: chain.request,
            reply: chain.reply,
        }),
    }
}

// The front of a line, as work on it begins: its chain read anew, its ranges put into the list.
pub fn read(m: &[u8], list: &mut [u64], q: LineQueue, line: u32, head: DescriptorNumber) -> Taken
    requires { 68 ≤ length list.old }
    ensures { (taking_in list.new result ≡ reading_of (virtqueue_of q) line m.now head.0)
        × FitTaken (length m.now) list.new result }
{
    let chain = match walk(m, list, q, head) {
        Ok(chain) => chain,
        Err(fault) => return unwalked(fault, head),
    };
    let sound = is_of_line(m, list, q, line, chain.request, chain.reply.bytes);
    Taken {
        form: form_by(m, list, chain.reply, sound),
        head,
        request: chain.request,
        reply: chain.reply,
    }
}

// The status of a chain that is ill-formed.
fn status_of(form: Form) -> Option<u32>
    ensures { result ≡ own_status (form_in form) }
{
    match form {
        Form::Refused => Some(message::IO_ERR),
        Form::WellFormed | Form::Silent | Form::Unwalked(_) => None,
    }
}

// An ill-formed chain answered.
pub fn refuse(m: &mut [u8], list: &[u64], q: LineQueue, completed: u16, taken: Taken) -> Posted
    requires { FitTaken (length m.old) list.now taken }
    ensures { completion m.new result
        ≡ refused_of (virtqueue_of q) m.old completed (taking_in list.now taken) }
{
    message::answer(
        m,
        list,
        q.queue,
        completed,
        taken.head,
        taken.reply,
        status_of(taken.form),
        0,
    )
}
