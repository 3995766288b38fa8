// The card: its state, and its parts at power-up. The state holds numbers, arrays and structs only, so that
// it can cross to C.
#![tactic(auto)]

ghost use Rattle.std.specs.Prelude.{◌≡◌, map, true, ◌<◌};
ghost use Rattle.card.specs.Card.{no_message, no_params, fresh_stream, jack_at_power, parts_at_power, no_parts};
ghost use Rattle.card.specs.Fit.{FitParts};
ghost use Rattle.card.specs.Setters.{with_jack_at, with_stream_at};
ghost use Rattle.description.specs.Lawful.{lawful};

use counts::DescriptorNumber;
use description::{
    Description, JackInfo, MapInfo, NO_JACK, NO_MAP, NO_STREAM, STREAMS, StreamInfo,
};
use ranges::Ranges;
use registers::Registers;

// The words of the lines of a queue: for each stream that it can have 79, and one for each of its entries
// (256 on the play queue, 64 on the capture queue).
pub const PLAY_WORDS: usize = 1340;

pub const CAPTURE_WORDS: usize = 286;

// What a call tells for a queue where it names none.
pub const NO_QUEUE: u8 = registers::NO_QUEUE;

// The states of a stream.
pub const FRESH: u8 = 0;

pub const SET: u8 = 1;

pub const PREPARED: u8 = 2;

pub const RUNNING: u8 = 3;

pub const STOPPED: u8 = 4;

pub const RELEASED: u8 = 5;

// A jack: as it was described, with the configuration default and the connection as they are now.
#[repr(C)]
#[derive(Clone, Copy)]
pub struct Jack {
    pub info: JackInfo,
    pub defconf: u32,
    pub connected: u8,
}

// What SET_PARAMS accepted last.
#[repr(C)]
#[derive(Clone, Copy)]
pub struct Params {
    pub buffer_bytes: u32,
    pub period_bytes: u32,
    pub features: u32,
    pub channels: u8,
    pub format: u8,
    pub rate: u8,
}

// `backlog` is that of the last transfer of the stream that answered 0, since reset.
#[repr(C)]
#[derive(Clone, Copy)]
pub struct Stream {
    pub info: StreamInfo,
    pub state: u8,
    pub params: Params,
    pub backlog: u32,
}

// How many entries of a queue were taken and completed, modulo 65,536.
#[repr(C)]
#[derive(Clone, Copy)]
pub struct Counters {
    pub taken: u16,
    pub completed: u16,
}

// The message in work of a stream: `count` is how many there are (0 or 1), `done` how many bytes of its
// payload were moved. Its ranges stand in the words of its queue.
#[repr(C)]
#[derive(Clone, Copy)]
pub struct Message {
    pub count: u16,
    pub head: DescriptorNumber,
    pub done: u32,
    pub request: Ranges,
    pub reply: Ranges,
}

// The parts that were described: the first so many of each list; of the streams the first `output_count`
// are outputs.
#[repr(C)]
#[derive(Clone, Copy)]
pub struct Parts {
    pub jack_count: usize,
    pub map_count: usize,
    pub stream_count: usize,
    pub output_count: usize,
    pub jacks: [Jack; 4],
    pub maps: [MapInfo; 4],
    pub streams: [Stream; STREAMS],
}

impl Parts {
    // The parts with another jack at `i`.
    pub fn with_jack(mut self, i: usize, jack: Jack) -> Parts
        requires { i < 4 }
        ensures { result ≡ with_jack_at i jack self }
    {
        self.jacks[i] = jack;
        self
    }

    // The parts with another stream at `i`.
    pub fn with_stream(mut self, i: usize, stream: Stream) -> Parts
        requires { i < 6 }
        ensures { result ≡ with_stream_at i stream self }
    {
        self.streams[i] = stream;
        self
    }
}

// The queues' counters by their number, and the words of the play and the capture queue: the lines of their
// streams, the messages in work and the ranges of their chains. `play_dropped`: since its words were written
// the lines of the play queue were dropped, so that every line is empty, whatever the words hold.
#[repr(C)]
#[derive(Clone, Copy)]
pub struct Card {
    pub ram_len: usize,
    pub registers: Registers,
    pub queues: [Counters; 4],
    pub parts: Parts,
    pub play_dropped: bool,
    pub capture_dropped: bool,
    pub play_words: [u64; PLAY_WORDS],
    pub capture_words: [u64; CAPTURE_WORDS],
}

#[repr(C)]
#[derive(Clone, Copy)]
pub struct Powered {
    pub answer: u8,
    pub card: Card,
}

#[repr(C)]
#[derive(Clone, Copy)]
pub struct ReadAnswer {
    pub answer: u8,
    pub value: u32,
    pub card: Card,
}

#[repr(C)]
#[derive(Clone, Copy)]
pub struct WriteAnswer {
    pub answer: u8,
    pub rung: u8,
    pub card: Card,
}

// No message in work.
pub fn no_message() -> Message
    ensures { result ≡ no_message }
{
    Message {
        count: 0,
        head: DescriptorNumber::of(0),
        done: 0,
        request: Ranges::none(),
        reply: Ranges::none(),
    }
}

// No parameters.
pub fn no_params() -> Params
    ensures { result ≡ no_params }
{
    Params {
        buffer_bytes: 0,
        period_bytes: 0,
        features: 0,
        channels: 0,
        format: 0,
        rate: 0,
    }
}

// A stream in its first state.
fn fresh(info: StreamInfo) -> Stream
    ensures { result ≡ fresh_stream info }
{
    Stream {
        info,
        state: FRESH,
        params: no_params(),
        backlog: 0,
    }
}

fn jack_at_power(info: JackInfo) -> Jack
    ensures { result ≡ jack_at_power info }
{
    Jack {
        info,
        defconf: info.defconf,
        connected: info.connected,
    }
}

fn jacks_at_power(infos: [JackInfo; 4]) -> [Jack; 4]
    ensures { result ≡ map jack_at_power infos }
{
    infos.map(jack_at_power)
}

fn streams_at_power(infos: [StreamInfo; STREAMS]) -> [Stream; STREAMS]
    ensures { result ≡ map fresh_stream infos }
{
    infos.map(fresh)
}

// The parts of a card that is made of a lawful description.
pub fn parts_at_power(d: Description) -> Parts
    requires { lawful d ≡ true }
    ensures { (result ≡ parts_at_power d) × FitParts result }
{
    let jacks = d.jacks;
    let maps = d.maps;
    let streams = d.streams;
    Parts {
        jack_count: d.jack_count as usize,
        map_count: d.map_count as usize,
        stream_count: d.output_count as usize + d.input_count as usize,
        output_count: d.output_count as usize,
        jacks: jacks_at_power(jacks),
        maps,
        streams: streams_at_power(streams),
    }
}

// No part at all.
pub fn no_parts() -> Parts
    ensures { (result ≡ no_parts) × FitParts result }
{
    Parts {
        jack_count: 0,
        map_count: 0,
        stream_count: 0,
        output_count: 0,
        jacks: [jack_at_power(NO_JACK); 4],
        maps: [NO_MAP; 4],
        streams: [fresh(NO_STREAM); STREAMS],
    }
}
