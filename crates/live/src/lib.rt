// The small state of a card, which a monitor lends behind one `&mut` at every call, and the register
// entries over it. The rest of a card is its parts and the words of its queues; together they are
// the card (`card_in`). A reset changes the small state only: what it undoes of the parts is told by
// `fresh`, that the words stand for nothing by `play_dropped` and `capture_dropped`.
#![tactic(auto)]

ghost use Rattle.std.specs.Prelude.{◌≡◌, true, ◌||◌, map, ◌<◌, eqb, set};
ghost use Rattle.card.specs.Card.{no_counters, card_of};
ghost use Rattle.card.specs.Fit.{FitParts};
ghost use Rattle.registers.specs.Rules.{raised};
ghost use Rattle.live.specs.Live.{jack_now, stream_now, streams_now, parts_now, card_in, live_of, reset_live, based_live, read_live};
ghost use Rattle.live.specs.Live.{write_live, states_of, backlogs_of, config_in, kept_live, board_of, powered_board, FitLive, FitBoard};

use card::{CAPTURE_WORDS, Card, Counters, Jack, PLAY_WORDS, Params, Parts, Stream};
use description::{Description, STREAMS};
use registers::{Config, Effect, Registers};

// The counters of a queue at power-up and after a reset.
const NO_COUNTERS: Counters = Counters {
    taken: 0,
    completed: 0,
};

// What every call may touch. `config` counts the parts, `outputs` and `inputs` the streams of each
// direction; `states` and `backlogs` are those of the streams; `fresh`: since the parts were written a
// reset came, so that streams have no parameters and jacks the configuration default that was described;
// `play_dropped`: since the words of the play queue were written its lines were dropped.
#[repr(C)]
#[derive(Clone, Copy)]
pub struct Live {
    pub ram_len: usize,
    pub registers: Registers,
    pub config: Config,
    pub queues: [Counters; 4],
    pub outputs: u8,
    pub inputs: u8,
    pub states: [u8; STREAMS],
    pub fresh: bool,
    pub play_dropped: bool,
    pub capture_dropped: bool,
    pub backlogs: [u32; STREAMS],
}

#[repr(C)]
#[derive(Clone, Copy)]
pub struct LiveRead {
    pub answer: u8,
    pub value: u32,
    pub live: Live,
}

#[repr(C)]
#[derive(Clone, Copy)]
pub struct LiveWrite {
    pub answer: u8,
    pub rung: u8,
    pub live: Live,
}

// A card but for the words of its queues.
#[repr(C)]
#[derive(Clone, Copy)]
pub struct Board {
    pub live: Live,
    pub parts: Parts,
}

#[repr(C)]
#[derive(Clone, Copy)]
pub struct PoweredBoard {
    pub answer: u8,
    pub board: Board,
}

// The states of the streams.
fn states_of(streams: [Stream; STREAMS]) -> [u8; STREAMS]
    ensures { result ≡ states_of streams }
{
    streams.map(|stream| stream.state)
}

// The backlogs of the streams.
fn backlogs_of(streams: [Stream; STREAMS]) -> [u32; STREAMS]
    ensures { result ≡ backlogs_of streams }
{
    streams.map(|stream| stream.backlog)
}

// The counts of the parts, as the guest reads them.
fn config_of(parts: Parts) -> Config
    requires { FitParts parts }
    ensures { result ≡ config_in parts }
{
    Config {
        jacks: parts.jack_count as u32,
        streams: parts.stream_count as u32,
        chmaps: parts.map_count as u32,
    }
}

// A card of these parts as at power-up, but for its words.
fn board_of(parts: Parts, ram_len: usize) -> Board
    requires { FitParts parts }
    ensures { result ≡ board_of (card_of parts ram_len) }
{
    let streams = parts.streams;
    let live = Live {
        ram_len,
        registers: Registers::power_on(),
        config: config_of(parts),
        queues: [NO_COUNTERS; 4],
        outputs: parts.output_count as u8,
        inputs: (parts.stream_count - parts.output_count) as u8,
        states: states_of(streams),
        fresh: false,
        play_dropped: true,
        capture_dropped: true,
        backlogs: backlogs_of(streams),
    };
    Board { live, parts }
}

// Power-up: a card with `ram_len` bytes of memory, or answer 10. The words of its queues may hold anything.
pub fn power_up(d: Description, ram_len: usize) -> PoweredBoard
    ensures { (result ≡ powered_board d ram_len) × FitBoard result.board.live result.board.parts }
{
    if !d.is_lawful() {
        return PoweredBoard {
            answer: registers::BAD_DESCRIPTION,
            board: board_of(card::no_parts(), 0),
        };
    }
    PoweredBoard {
        answer: registers::DONE,
        board: board_of(card::parts_at_power(d), ram_len),
    }
}

// A read of `width` bytes of the registers at `offset`.
pub fn read(live: Live, offset: u64, width: u64) -> LiveRead
    requires { FitLive live }
    ensures { (result ≡ read_live live offset width) × FitLive result.live }
{
    let read = live.registers.read(live.config, offset, width);
    let mut next = live;
    next.registers = read.registers;
    LiveRead {
        answer: read.answer,
        value: read.value,
        live: next,
    }
}

// After a reset, but for the registers.
#[tactic(auto, unfolding(crate::specs::Live::reset_live))]
fn reset(live: Live) -> Live
    ensures { result ≡ reset_live live }
{
    let mut next = live;
    next.queues = [NO_COUNTERS; 4];
    next.states = [card::FRESH; STREAMS];
    next.backlogs = [0; STREAMS];
    next.fresh = true;
    next.play_dropped = true;
    next.capture_dropped = true;
    next
}

// The counters of the queues, those of `queue` cleared: no index that is not known, as for a page.
fn without(queues: [Counters; 4], queue: u16) -> [Counters; 4]
    requires { queue < 4 }
    ensures { result ≡ set queues queue no_counters }
{
    let mut next = queues;
    match queue {
        registers::CONTROL_QUEUE => next[0] = NO_COUNTERS,
        registers::EVENT_QUEUE => next[1] = NO_COUNTERS,
        registers::PLAY_QUEUE => next[2] = NO_COUNTERS,
        _ => next[3] = NO_COUNTERS,
    }
    next
}

// Whether the lines of queue `which` are dropped after a base write of `queue`.
fn dropped_after(before: bool, which: u16, queue: u16) -> bool
    ensures { result ≡ (eqb queue which || before) }
{
    queue == which || before
}

// After a base write of `queue`, but for the registers. Both flags are written, so that none is reached by an address.
#[tactic(auto, unfolding(crate::specs::Live::based_live))]
fn based(live: Live, queue: u16) -> Live
    requires { queue < 4 }
    ensures { result ≡ based_live queue live }
{
    let queues = live.queues;
    let cleared = without(queues, queue);
    let play = dropped_after(live.play_dropped, registers::PLAY_QUEUE, queue);
    let capture = dropped_after(live.capture_dropped, registers::CAPTURE_QUEUE, queue);
    let mut next = live;
    next.queues = cleared;
    next.play_dropped = play;
    next.capture_dropped = capture;
    next
}

// A write of `value`, `width` bytes wide, to the registers at `offset`.
pub fn write(live: Live, offset: u64, width: u64, value: u64) -> LiveWrite
    requires { FitLive live }
    ensures { (result ≡ write_live live offset width value) × FitLive result.live }
{
    let written = live.registers.write(offset, width, value);
    let answer = written.answer;
    let mut next = live;
    next.registers = written.registers;
    match written.effect {
        Effect::Nothing => LiveWrite {
            answer,
            rung: registers::NO_QUEUE,
            live: next,
        },
        Effect::Reset => LiveWrite {
            answer,
            rung: registers::NO_QUEUE,
            live: reset(next),
        },
        Effect::Based(queue) => LiveWrite {
            answer,
            rung: registers::NO_QUEUE,
            live: based(next, queue),
        },
        Effect::Rung(queue) => LiveWrite {
            answer,
            rung: queue as u8,
            live: next,
        },
    }
}

// Whether the interrupt line is raised.
pub fn line(live: Live) -> bool
    ensures { result ≡ raised live.registers }
{
    live.registers.line()
}

// A jack with the configuration default that was described.
fn undone(jack: Jack) -> Jack
    ensures { result ≡ jack_now true jack }
{
    Jack {
        defconf: jack.info.defconf,
        ..jack
    }
}

// The jacks as they are, of those in the parts.
fn jacks_now(fresh: bool, jacks: [Jack; 4]) -> [Jack; 4]
    ensures { result ≡ map (jack_now fresh) jacks }
{
    if fresh { jacks.map(undone) } else { jacks }
}

// A stream as it is, of one in the parts.
fn stream_now(fresh: bool, state: u8, backlog: u32, stream: Stream) -> Stream
    ensures { result ≡ stream_now fresh state backlog stream }
{
    let mut next = stream;
    next.state = state;
    next.backlog = backlog;
    if fresh {
        next.params = card::no_params();
    }
    next
}

// The streams as they are.
fn streams_now(live: Live, streams: [Stream; STREAMS]) -> [Stream; STREAMS]
    ensures { result ≡ streams_now live streams }
{
    let fresh = live.fresh;
    let states = live.states;
    let backlogs = live.backlogs;
    [
        stream_now(fresh, states[0], backlogs[0], streams[0]),
        stream_now(fresh, states[1], backlogs[1], streams[1]),
        stream_now(fresh, states[2], backlogs[2], streams[2]),
        stream_now(fresh, states[3], backlogs[3], streams[3]),
        stream_now(fresh, states[4], backlogs[4], streams[4]),
        stream_now(fresh, states[5], backlogs[5], streams[5]),
    ]
}

// The parts as they are.
pub fn parts_now(live: Live, parts: Parts) -> Parts
    ensures { result ≡ parts_now live parts }
{
    let jacks = parts.jacks;
    let streams = parts.streams;
    let jacks_after = jacks_now(live.fresh, jacks);
    let streams_after = streams_now(live, streams);
    let mut next = parts;
    next.jacks = jacks_after;
    next.streams = streams_after;
    next
}

// The small state beside these parts, which are as they are.
pub fn keep(live: Live, parts: Parts) -> Live
    ensures { result ≡ kept_live live parts }
{
    let streams = parts.streams;
    let states = states_of(streams);
    let backlogs = backlogs_of(streams);
    let mut next = live;
    next.states = states;
    next.backlogs = backlogs;
    next.fresh = false;
    next
}

// The small state of a card.
pub fn of_card(card: Card) -> Live
    requires { FitParts card.parts }
    ensures { result ≡ live_of card }
{
    let registers = card.registers;
    let queues = card.queues;
    let parts = card.parts;
    let streams = parts.streams;
    Live {
        ram_len: card.ram_len,
        registers,
        config: config_of(parts),
        queues,
        outputs: parts.output_count as u8,
        inputs: (parts.stream_count - parts.output_count) as u8,
        states: states_of(streams),
        fresh: false,
        play_dropped: card.play_dropped,
        capture_dropped: card.capture_dropped,
        backlogs: backlogs_of(streams),
    }
}

// The card with this small state, these parts and these words of its queues.
pub fn joined(
    live: Live,
    parts: Parts,
    play_words: [u64; PLAY_WORDS],
    capture_words: [u64; CAPTURE_WORDS],
) -> Card
    ensures { result ≡ card_in live parts play_words capture_words }
{
    let registers = live.registers;
    let queues = live.queues;
    let now = parts_now(live, parts);
    Card {
        ram_len: live.ram_len,
        registers,
        queues,
        parts: now,
        play_dropped: live.play_dropped,
        capture_dropped: live.capture_dropped,
        play_words,
        capture_words,
    }
}
