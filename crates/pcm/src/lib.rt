// The play and capture calls of the card (01, "Play, capture, events"), each of one stream (order 8), over its small
// state and the words of the queue, which are lent.
#![tactic(auto)]

ghost use Rattle.std.specs.Prelude.{◌≡◌, cond, ◌<◌, eqb, get_or, set};
ghost use Rattle.live.specs.Live.{FitLive};
ghost use Rattle.message.specs.Message.{direction_of};
ghost use Rattle.registers.specs.Answers.{done};
ghost use Rattle.device.specs.Answers.{answer_by, broken_by};
ghost use Rattle.device.specs.Device.{queue_number, signalled_if};
ghost use Rattle.stream.specs.Queue.{FitOwn};
ghost use Rattle.pcm.specs.Entry.{on_live, RunsFor, RefusesOn, PassesOn, PassesFor, untouched_by, worked_answer, remembered_by};
ghost use Rattle.pcm.specs.Entry.{TransfersOn};

use description::STREAMS;
use live::Live;
use message::Direction;
use registers::{Answer, Registers};
use ring::Cause;
use stream::{Job, Progress};

// What a call answers: the count is the bytes handed on, or consumed.
#[derive(Clone, Copy)]
pub struct TransferAnswer {
    pub answer: Answer,
    pub count: usize,
    pub live: Live,
}

// Whether a stream is of this direction.
fn is_on(live: Live, direction: Direction, id: u32) -> bool
    ensures { result ≡ on_live live (direction_of direction) id }
{
    let outputs = live.outputs as u32;
    match direction {
        Direction::Output => id < outputs,
        Direction::Input => outputs <= id && id - outputs < live.inputs as u32,
    }
}

// The state of a stream: no index that is not known, for the states go by value.
fn state_of(states: [u8; STREAMS], id: u32) -> u8
    requires { id < 6 }
    ensures { result ≡ get_or states id 0 }
{
    match id {
        0 => states[0],
        1 => states[1],
        2 => states[2],
        3 => states[3],
        4 => states[4],
        _ => states[5],
    }
}

// Whether a stream is there, of this direction, and Running.
fn is_running(live: Live, direction: Direction, id: u32) -> bool
    requires { FitLive live }
    ensures { RunsFor live (direction_of direction) id result × PassesFor live (direction_of direction) id result }
{
    if STREAMS as u32 <= id {
        return false;
    }
    if !is_on(live, direction, id) {
        return false;
    }
    let states = live.states;
    state_of(states, id) == card::RUNNING
}

// The answer that refuses a transfer of stream `id`, of this direction, over `len` bytes of memory, or 0.
fn refusal(live: Live, len: usize, direction: Direction, id: u32) -> u8
    requires { FitLive live }
    ensures { RefusesOn live (direction_of direction) len id result × PassesOn live (direction_of direction) len id result }
{
    if len != live.ram_len {
        return registers::LENGTH_DIFFERS;
    }
    if !live.registers.is_live() {
        return registers::NOT_LIVE;
    }
    if is_running(live, direction, id) {
        registers::DONE
    } else {
        registers::NOT_RUNNING
    }
}

// The registers after a job: an interrupt where it wants one, a breakdown where it broke the queue.
fn registers_after(registers: Registers, signal: bool, stop: Option<Cause>) -> Registers
    ensures { result ≡ broken_by stop (signalled_if signal registers) }
{
    stream::break_by(stop, stream::signal_if(signal, registers))
}

// The backlogs with this one of stream `id`: no index that is not known, for they go by value.
fn with_backlog(backlogs: [u32; STREAMS], id: u32, backlog: u32) -> [u32; STREAMS]
    requires { id < 6 }
    ensures { result ≡ set backlogs id backlog }
{
    let mut next = backlogs;
    match id {
        0 => next[0] = backlog,
        1 => next[1] = backlog,
        2 => next[2] = backlog,
        3 => next[3] = backlog,
        4 => next[4] = backlog,
        _ => next[5] = backlog,
    }
    next
}

// The backlogs after a call on stream `id`: it remembers that of a call that answered 0.
fn remember(number: u8, backlogs: [u32; STREAMS], id: u32, backlog: u32) -> [u32; STREAMS]
    requires { id < 6 }
    ensures { result ≡ cond (eqb number done) (set backlogs id backlog) backlogs }
{
    if number == registers::DONE {
        with_backlog(backlogs, id, backlog)
    } else {
        backlogs
    }
}

// What a call answers after a job on the line of stream `id`: the registers, the queue and the backlog that the
// stream remembers are put back.
fn worked(live: Live, p: Progress, backlog: u32, direction: Direction, id: u32) -> TransferAnswer
    requires { id < 6 }
    ensures { result ≡ remembered_by id backlog (worked_answer direction p live) }
{
    let answer = answer_by(direction, p.stop);
    let mut next = live;
    next.registers = registers_after(live.registers, p.signal, p.stop);
    let mut told = stream::with_progress(next, direction, p);
    let backlogs = told.backlogs;
    let remembered = remember(answer.number, backlogs, id, backlog);
    told.backlogs = remembered;
    TransferAnswer {
        answer,
        count: p.moved,
        live: told,
    }
}

// The play call of stream `id`: payload of its line handed to the host buffer. The backlog is the host's, in bytes.
pub fn play(
    live: Live,
    words: &mut [u64],
    m: &mut [u8],
    host: &mut [u8],
    id: u32,
    backlog: u32,
) -> TransferAnswer
    requires { FitOwn Direction.Output live words.old }
    ensures { TransfersOn Direction.Output id backlog live words.old m.old host.old
        words.new m.new host.new result }
{
    let refused = refusal(live, m.len(), Direction::Output, id);
    if refused != 0 {
        return untouched(live, refused);
    }
    let p = stream::run(
        live,
        words,
        m,
        host,
        Direction::Output,
        backlog,
        id,
        Job::Transfer,
    );
    worked(live, p, backlog, Direction::Output, id)
}

// The capture call of stream `id`: host bytes recorded into the payload of its line. They are only read.
pub fn capture(
    live: Live,
    words: &mut [u64],
    m: &mut [u8],
    host: &mut [u8],
    id: u32,
    backlog: u32,
) -> TransferAnswer
    requires { FitOwn Direction.Input live words.old }
    ensures { TransfersOn Direction.Input id backlog live words.old m.old host.old
        words.new m.new host.new result × (host.new ≡ host.old) }
{
    let refused = refusal(live, m.len(), Direction::Input, id);
    if refused != 0 {
        return untouched(live, refused);
    }
    let line = id - live.outputs as u32;
    let p = stream::run(
        live,
        words,
        m,
        host,
        Direction::Input,
        backlog,
        line,
        Job::Transfer,
    );
    worked(live, p, backlog, Direction::Input, id)
}

// Nothing was done: a check refuses the call.
fn untouched(live: Live, number: u8) -> TransferAnswer
    ensures { result ≡ untouched_by number live }
{
    TransferAnswer {
        answer: registers::plain(number),
        count: 0,
        live,
    }
}

// The answer of a call on the queue of a direction that went on, or was stopped by it.
fn answer_by(direction: Direction, stop: Option<Cause>) -> Answer
    ensures { result ≡ answer_by (queue_number (direction_of direction)) stop }
{
    match stop {
        Some(cause) => rules::broken_answer(message::queue_number(direction), cause),
        None => registers::plain(registers::DONE),
    }
}
