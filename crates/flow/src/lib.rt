// The work on the message in work of a stream's line (01, "Play, capture, events"): it is handed to the host or
// filled from it, and completed where nothing of it waits or a Release ends it. Payload moves in runs.
#![tactic(auto)]

ghost use Rattle.std.specs.Prelude.{◌≡◌, ◌+◌, ◌-◌, ◌≤◌, ◌<◌, length, Some};
ghost use Rattle.message.specs.Message.{direction_of, virtqueue_in};
ghost use Rattle.device.specs.Counters.{counters_of};
ghost use Rattle.device.specs.Device.{well_formed};
ghost use Rattle.card.specs.Fit.{FitMessage};
ghost use Rattle.device.specs.Transfer.{moved, status_of};
ghost use Rattle.flow.specs.Flow.{FitFlow, Busy, payload_bytes, ending_of, advanced_by, StepsOn, Ends};
ghost use Rattle.flow.specs.Flow.{Moves, reaches_of, over_of, job_moved, job_worked};

use card::{Counters, Message};
use message::{Direction, Virtqueue};
use ring::Cause;

// A call's progress on a queue: its counters and message in work, the host bytes moved so far, why the queue
// broke, where it did, an interrupt wanted.
#[derive(Clone, Copy)]
pub struct Flow {
    pub counters: Counters,
    pub message: Message,
    pub moved: usize,
    pub stop: Option<Cause>,
    pub signal: bool,
}

// What a call does with the messages of a queue: it moves their payload, the way of the queue's direction,
// and completes each that is moved whole; or a Release completes them as they are.
#[derive(Clone, Copy)]
pub enum Job {
    Transfer,
    Release,
}

// How many bytes of the message's payload wait.
fn waiting(d: Direction, message: Message) -> usize
    ensures { result ≡ payload_bytes (direction_of d) message - message.done }
{
    let payload = match d {
        Direction::Output => message.request.bytes.saturating_sub(4),
        Direction::Input => message.reply.bytes.saturating_sub(8),
    };
    payload.saturating_sub(message.done) as usize
}

// Whether a job goes on where `moved` of the host's `room` bytes are moved: a Release needs no room.
pub fn reaches(job: Job, moved: usize, room: usize) -> bool
    ensures { result ≡ reaches_of job moved room }
{
    match job {
        Job::Transfer => moved < room,
        Job::Release => true,
    }
}

// Whether a job is done with a message.
fn is_over(job: Job, d: Direction, message: Message) -> bool
    ensures { result ≡ over_of job (direction_of d) message }
{
    match job {
        Job::Transfer => waiting(d, message) == 0,
        Job::Release => true,
    }
}

// Payload of the message in work, as far as the host has room or bytes: handed on or filled, from where
// message and host stand.
fn move_payload(m: &mut [u8], list: &[u64], host: &mut [u8], q: Virtqueue, f: Flow) -> Flow
    requires { Busy f × FitFlow (length m.old) (length host.old) list.now f }
    ensures { Moves (direction_of q.direction) (moved (counters_of (direction_of q.direction)) (virtqueue_in q))
        list.now m.old host.old f m.new host.new result }
{
    let message = f.message;
    let at = f.moved;
    let direction = q.direction;
    let n = usize::min(host.len() - at, waiting(direction, message));
    match direction {
        Direction::Output => {
            ranges::gather(
                m,
                list,
                message.request,
                4 + message.done as usize,
                host,
                at,
                n,
            );
            advanced(f, n)
        }
        Direction::Input => {
            ranges::scatter(m, list, message.reply, message.done as usize, host, at, n);
            advanced(f, n)
        }
    }
}

// What a job moves of the message in work.
fn move_for(m: &mut [u8], list: &[u64], host: &mut [u8], q: Virtqueue, f: Flow, job: Job) -> Flow
    requires { Busy f × FitFlow (length m.old) (length host.old) list.now f }
    ensures { Moves (direction_of q.direction) (job_moved job (virtqueue_in q))
        list.now m.old host.old f m.new host.new result }
{
    match job {
        Job::Transfer => move_payload(m, list, host, q, f),
        Job::Release => f,
    }
}

// `n` bytes more of the message and of the host.
fn advanced(mut f: Flow, n: usize) -> Flow
    requires { (f.message.done + n ≤ 1048576) × (f.moved + n < 18446744073709551616) }
    ensures { result ≡ advanced_by n f }
{
    f.message.done += n as u32;
    f.moved += n;
    f
}

// The status that ends a message in work.
fn status_of(d: Direction, job: Job) -> u32
    ensures { Some result ≡ status_of (direction_of d) (ending_of job) well_formed }
{
    match job {
        Job::Transfer => message::OK,
        Job::Release => match d {
            Direction::Output => message::IO_ERR,
            Direction::Input => message::OK,
        },
    }
}

// The message in work completed.
fn end_message(m: &mut [u8], list: &[u64], q: Virtqueue, f: Flow, job: Job) -> Flow
    requires { Busy f × FitMessage (length m.old) list.now f.message }
    ensures { Ends (virtqueue_in q) (ending_of job) list.now m.old f m.new result }
{
    let message = f.message;
    let mut counters = f.counters;
    let code = status_of(q.direction, job);
    let posted = message::answer(
        m,
        list,
        q,
        counters.completed,
        message.head,
        message.reply,
        Some(code),
        message.done,
    );
    counters.completed = posted.completed;
    Flow {
        counters,
        message: card::no_message(),
        signal: f.signal | posted.interrupt,
        ..f
    }
}

// A job's work on the message in work: its payload moved as far as the host reaches, and the message
// completed where nothing of it waits or a Release ends it.
pub fn work(m: &mut [u8], list: &[u64], host: &mut [u8], q: Virtqueue, f: Flow, job: Job) -> Flow
    requires { FitFlow (length m.old) (length host.old) list.now f }
    ensures { StepsOn (direction_of q.direction) (job_worked job (virtqueue_in q))
        list.now m.old host.old f list.now m.new host.new result }
{
    if f.message.count == 0 {
        return f;
    }
    if !reaches(job, f.moved, host.len()) {
        return f;
    }
    let g = move_for(m, list, host, q, f, job);
    if !is_over(job, q.direction, g.message) {
        return g;
    }
    end_message(m, list, q, g, job)
}
