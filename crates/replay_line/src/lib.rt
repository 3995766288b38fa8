// A line of the replay program's script, read from its bytes without the line feed. A word of HEX
// stays in the line: the line read says where it starts.
#![tactic(auto)]

ghost use Rattle.std.specs.Prelude.{◌≡◌};
ghost use Rattle.replay_line.specs.Line.{at_end, jack_form, map_form, stream_form, power_form};
ghost use Rattle.replay_line.specs.Line.{read_form, write_form, control_form, play_form, captured_form, capture_form, event_form};
ghost use Rattle.replay_line.specs.Line.{store_form, fill_form, ram_form, dump_form};
ghost use Rattle.replay_line.specs.Line.{part_line, call_line, guest_line, line_of};

use counts::GuestAddress;
use description::{JackInfo, StreamInfo};
use replay_field::Hex;

// The greatest numbers of 8, 32 and 64 bits.
const MAX_8: u64 = u8::MAX as u64;

const MAX_32: u64 = u32::MAX as u64;

const MAX_64: u64 = u64::MAX;

// The greatest lengths of RAM, and of what one line plays, captures or prints.
pub const MAX_RAM: usize = 1_048_576;

pub const MAX_BYTES: usize = 65_536;

// What is described before power-up: of a map, `place` is that of its positions in the line.
#[derive(Clone, Copy)]
pub enum Part {
    Jack(JackInfo),
    Map {
        nid: u32,
        direction: u8,
        channels: u8,
        place: usize,
    },
    Output(StreamInfo),
    Input(StreamInfo),
}

// A call on the card. What is captured stands in the line from `place` up to `behind`.
#[derive(Clone, Copy)]
pub enum Call {
    Read {
        offset: u64,
        width: u64,
    },
    Write {
        offset: u64,
        width: u64,
        value: u64,
    },
    Control,
    Play {
        stream: u32,
        count: usize,
        backlog: u32,
    },
    Capture {
        stream: u32,
        place: usize,
        behind: usize,
        backlog: u32,
    },
    Event {
        code: u32,
        info: u32,
    },
}

// What is done to the memory lent: the bytes at `place` in the line are stored, bytes are set, the length
// is changed, or bytes are printed.
#[derive(Clone, Copy)]
pub enum Guest {
    Store {
        address: GuestAddress,
        place: usize,
    },
    Fill {
        address: GuestAddress,
        count: u64,
        byte: u8,
    },
    Ram(usize),
    Dump {
        address: GuestAddress,
        count: usize,
    },
}

#[derive(Clone, Copy)]
pub enum Line {
    Skipped,
    Described(Part),
    Power(usize),
    Called(Call),
    Lent(Guest),
}

// The line that was read up to `end`, if nothing follows.
fn at_end(s: &[u8], end: usize, line: Line) -> Option<Line>
    ensures { result ≡ at_end s.now end line }
{
    (s.len() <= end).then_some(line)
}

// `jack NID FEATURES DEFCONF CAPS CONNECTED`
#[tactic(auto, unfolding(crate::specs::Line::jack_form))]
fn jack_form(s: &[u8]) -> Option<Line>
    ensures { result ≡ jack_form s.now }
{
    let (nid, features, a) = replay_field::pair_at(s, 4, MAX_32)?;
    let (defconf, caps, b) = replay_field::pair_at(s, a, MAX_32)?;
    let (connected, end) = replay_field::field_at(s, b, MAX_8)?;
    let jack = JackInfo {
        nid: nid as u32,
        features: features as u32,
        defconf: defconf as u32,
        caps: caps as u32,
        connected: connected as u8,
    };
    at_end(s, end, Line::Described(Part::Jack(jack)))
}

// `map NID DIRECTION CHANNELS POSITIONS`
#[tactic(auto, unfolding(crate::specs::Line::map_form))]
fn map_form(s: &[u8]) -> Option<Line>
    ensures { result ≡ map_form s.now }
{
    let (nid, a) = replay_field::field_at(s, 3, MAX_32)?;
    let (direction, channels, b) = replay_field::pair_at(s, a, MAX_8)?;
    let Hex { place, count } = replay_field::hex_at(s, b)?;
    let map = Part::Map {
        nid: nid as u32,
        direction: direction as u8,
        channels: channels as u8,
        place,
    };
    (count == 18).then_some(Line::Described(map))
}

// `out` or `in` up to `at`, and `NID FEATURES FORMATS RATES MIN MAX`
#[tactic(auto, unfolding(crate::specs::Line::stream_form))]
fn stream_form(s: &[u8], at: usize, input: bool) -> Option<Line>
    ensures { result ≡ stream_form s.now at input }
{
    let (nid, features, a) = replay_field::pair_at(s, at, MAX_32)?;
    let (formats, rates, b) = replay_field::pair_at(s, a, MAX_64)?;
    let (min, max, end) = replay_field::pair_at(s, b, MAX_8)?;
    let info = StreamInfo {
        nid: nid as u32,
        features: features as u32,
        formats,
        rates,
        channels_min: min as u8,
        channels_max: max as u8,
    };
    let part = if input {
        Part::Input(info)
    } else {
        Part::Output(info)
    };
    at_end(s, end, Line::Described(part))
}

// `power LEN`
#[tactic(auto, unfolding(crate::specs::Line::power_form))]
fn power_form(s: &[u8]) -> Option<Line>
    ensures { result ≡ power_form s.now }
{
    let n = replay_field::size_at(s, 5, MAX_RAM as u64)?;
    Some(Line::Power(n))
}

// `r OFF W`
#[tactic(auto, unfolding(crate::specs::Line::read_form))]
fn read_form(s: &[u8]) -> Option<Line>
    ensures { result ≡ read_form s.now }
{
    let (offset, width, end) = replay_field::pair_at(s, 1, MAX_32)?;
    at_end(s, end, Line::Called(Call::Read { offset, width }))
}

// `w OFF W VAL`
#[tactic(auto, unfolding(crate::specs::Line::write_form))]
fn write_form(s: &[u8]) -> Option<Line>
    ensures { result ≡ write_form s.now }
{
    let (offset, width, a) = replay_field::pair_at(s, 1, MAX_32)?;
    let (value, end) = replay_field::field_at(s, a, MAX_32)?;
    at_end(
        s,
        end,
        Line::Called(Call::Write {
            offset,
            width,
            value,
        }),
    )
}

// `control`
#[tactic(auto, unfolding(crate::specs::Line::control_form))]
fn control_form(s: &[u8]) -> Option<Line>
    ensures { result ≡ control_form s.now }
{
    at_end(s, 7, Line::Called(Call::Control))
}

// `play STREAM N BACKLOG`
#[tactic(auto, unfolding(crate::specs::Line::play_form))]
fn play_form(s: &[u8]) -> Option<Line>
    ensures { result ≡ play_form s.now }
{
    let (stream, a) = replay_field::field_at(s, 4, MAX_32)?;
    let (n, b) = replay_field::field_at(s, a, MAX_BYTES as u64)?;
    let (backlog, end) = replay_field::field_at(s, b, MAX_32)?;
    let play = Call::Play {
        stream: stream as u32,
        count: n as usize,
        backlog: backlog as u32,
    };
    at_end(s, end, Line::Called(play))
}

// What a stream captures, `HEX BACKLOG` from `at` on: the HEX ends at the next space.
#[tactic(auto, unfolding(crate::specs::Line::captured_form))]
fn captured_form(s: &[u8], stream: u32, at: usize) -> Option<Line>
    ensures { result ≡ captured_form s.now stream at }
{
    if s.len() <= at {
        return None;
    }
    let behind = lines::find(s, at + 1, b' ');
    if s.len() < behind {
        return None;
    }
    let Hex { place, count } = replay_field::hex_at(&s[..behind], at)?;
    if MAX_BYTES < count {
        return None;
    }
    let (backlog, end) = replay_field::field_at(s, behind, MAX_32)?;
    let capture = Call::Capture {
        stream,
        place,
        behind,
        backlog: backlog as u32,
    };
    at_end(s, end, Line::Called(capture))
}

// `capture STREAM HEX BACKLOG`
#[tactic(auto, unfolding(crate::specs::Line::capture_form))]
fn capture_form(s: &[u8]) -> Option<Line>
    ensures { result ≡ capture_form s.now }
{
    let (stream, at) = replay_field::field_at(s, 7, MAX_32)?;
    captured_form(s, stream as u32, at)
}

// `event CODE DATA`
#[tactic(auto, unfolding(crate::specs::Line::event_form))]
fn event_form(s: &[u8]) -> Option<Line>
    ensures { result ≡ event_form s.now }
{
    let (code, info, end) = replay_field::pair_at(s, 5, MAX_32)?;
    let event = Call::Event {
        code: code as u32,
        info: info as u32,
    };
    at_end(s, end, Line::Called(event))
}

// `m ADDR HEX`
#[tactic(auto, unfolding(crate::specs::Line::store_form))]
fn store_form(s: &[u8]) -> Option<Line>
    ensures { result ≡ store_form s.now }
{
    let (address, a) = replay_field::field_at(s, 1, MAX_64)?;
    let hex = replay_field::hex_at(s, a)?;
    Some(Line::Lent(Guest::Store {
        address: GuestAddress::of(address),
        place: hex.place,
    }))
}

// `f ADDR LEN BYTE`
#[tactic(auto, unfolding(crate::specs::Line::fill_form))]
fn fill_form(s: &[u8]) -> Option<Line>
    ensures { result ≡ fill_form s.now }
{
    let (address, count, a) = replay_field::pair_at(s, 1, MAX_64)?;
    let (byte, end) = replay_field::field_at(s, a, MAX_8)?;
    let fill = Guest::Fill {
        address: GuestAddress::of(address),
        count,
        byte: byte as u8,
    };
    at_end(s, end, Line::Lent(fill))
}

// `ram LEN`
#[tactic(auto, unfolding(crate::specs::Line::ram_form))]
fn ram_form(s: &[u8]) -> Option<Line>
    ensures { result ≡ ram_form s.now }
{
    let n = replay_field::size_at(s, 3, MAX_RAM as u64)?;
    Some(Line::Lent(Guest::Ram(n)))
}

// `d ADDR LEN`
#[tactic(auto, unfolding(crate::specs::Line::dump_form))]
fn dump_form(s: &[u8]) -> Option<Line>
    ensures { result ≡ dump_form s.now }
{
    let (address, a) = replay_field::field_at(s, 1, MAX_64)?;
    let count = replay_field::size_at(s, a, MAX_BYTES as u64)?;
    Some(Line::Lent(Guest::Dump {
        address: GuestAddress::of(address),
        count,
    }))
}

// A line on the memory lent, or none at all.
#[tactic(auto, unfolding(crate::specs::Line::guest_line))]
fn guest_line(s: &[u8]) -> Option<Line>
    ensures { result ≡ guest_line s.now }
{
    if replay_field::starts_with(s, b"m ") {
        store_form(s)
    } else if replay_field::starts_with(s, b"f ") {
        fill_form(s)
    } else if replay_field::starts_with(s, b"ram ") {
        ram_form(s)
    } else if replay_field::starts_with(s, b"d ") {
        dump_form(s)
    } else {
        None
    }
}

// A call on the card, or what follows.
#[tactic(auto, unfolding(crate::specs::Line::call_line))]
fn call_line(s: &[u8]) -> Option<Line>
    ensures { result ≡ call_line s.now }
{
    if replay_field::starts_with(s, b"r ") {
        read_form(s)
    } else if replay_field::starts_with(s, b"w ") {
        write_form(s)
    } else if replay_field::starts_with(s, b"control") {
        control_form(s)
    } else if replay_field::starts_with(s, b"play ") {
        play_form(s)
    } else if replay_field::starts_with(s, b"capture ") {
        capture_form(s)
    } else if replay_field::starts_with(s, b"event ") {
        event_form(s)
    } else {
        guest_line(s)
    }
}

// A line of the description or `power`, or what follows.
#[tactic(auto, unfolding(crate::specs::Line::part_line))]
fn part_line(s: &[u8]) -> Option<Line>
    ensures { result ≡ part_line s.now }
{
    if replay_field::starts_with(s, b"jack ") {
        jack_form(s)
    } else if replay_field::starts_with(s, b"map ") {
        map_form(s)
    } else if replay_field::starts_with(s, b"out ") {
        stream_form(s, 3, false)
    } else if replay_field::starts_with(s, b"in ") {
        stream_form(s, 2, true)
    } else if replay_field::starts_with(s, b"power ") {
        power_form(s)
    } else {
        call_line(s)
    }
}

// The line whose bytes, without the line feed, are `s`; none where it can't be read.
#[tactic(auto, unfolding(crate::specs::Line::line_of))]
pub fn read_line(s: &[u8]) -> Option<Line>
    ensures { result ≡ line_of s.now }
{
    if s.is_empty() || s[0] == b'#' {
        Some(Line::Skipped)
    } else {
        part_line(s)
    }
}
