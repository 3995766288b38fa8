// The description that the lines of a script collect for the next power-up.
#![tactic(auto)]

ghost use Rattle.std.specs.Prelude.{◌≡◌, cond, ltb, set};
ghost use Rattle.replay_description.specs.Parts.{next_count, with_jack, with_map, map_at, with_output, with_input, with_part};

use description::{Description, JackInfo, MapInfo, StreamInfo};
use replay_line::Part;

// One more of a kind of part, as far as 32 bits count.
fn next_count(count: u32) -> u32
    ensures { result ≡ next_count count }
{
    count.saturating_add(1)
}

// One more part behind the `count` so far; past the fourth only the count is kept. The count with it.
fn add<T: Copy>(parts: &mut [T; 4], count: u32, part: T) -> u32
    ensures kept { parts.new ≡ cond (ltb count 4) (set parts.old count part) parts.old }
    ensures counted { result ≡ next_count count }
{
    if count < 4 {
        parts[count as usize] = part;
    }
    next_count(count)
}

// One more jack.
#[tactic(auto, unfolding(crate::specs::Parts::with_jack))]
fn with_jack(mut d: Description, info: JackInfo) -> Description
    ensures { result ≡ with_jack d info }
{
    d.jack_count = add(&mut d.jacks, d.jack_count, info);
    d
}

// One more channel map.
#[tactic(auto, unfolding(crate::specs::Parts::with_map))]
fn with_map(mut d: Description, map: MapInfo) -> Description
    ensures { result ≡ with_map d map }
{
    d.map_count = add(&mut d.maps, d.map_count, map);
    d
}

// A channel map whose positions stand in the line from `place` on.
#[tactic(auto, unfolding(crate::specs::Parts::map_at))]
fn map_at(s: &[u8], nid: u32, direction: u8, channels: u8, place: usize) -> MapInfo
    ensures { result ≡ map_at s.now nid direction channels place }
{
    let mut positions = [0; 18];
    replay_field::pour_hex(s, place, &mut positions, 0);
    MapInfo {
        nid,
        direction,
        channels,
        positions,
    }
}

// One more output, behind the outputs so far: the inputs, of which two are kept, move up by one. Past the
// fourth only the count is kept.
#[tactic(auto, unfolding(crate::specs::Parts::with_output))]
fn with_output(mut d: Description, info: StreamInfo) -> Description
    ensures { result ≡ with_output d info }
{
    let i = d.output_count as usize;
    if i < 4 {
        d.streams[i + 2] = d.streams[i + 1];
        d.streams[i + 1] = d.streams[i];
        d.streams[i] = info;
    }
    d.output_count = next_count(d.output_count);
    d
}

// One more input, behind all streams. Past the second only the count is kept.
#[tactic(auto, unfolding(crate::specs::Parts::with_input))]
fn with_input(mut d: Description, info: StreamInfo) -> Description
    ensures { result ≡ with_input d info }
{
    if d.output_count <= 4 && d.input_count < 2 {
        d.streams[(d.output_count + d.input_count) as usize] = info;
    }
    d.input_count = next_count(d.input_count);
    d
}

// One more part, described by the line `s`.
pub fn with_part(d: Description, part: Part, s: &[u8]) -> Description
    ensures { result ≡ with_part d part s.now }
{
    match part {
        Part::Jack(info) => with_jack(d, info),
        Part::Map {
            nid,
            direction,
            channels,
            place,
        } => with_map(d, map_at(s, nid, direction, channels, place)),
        Part::Output(info) => with_output(d, info),
        Part::Input(info) => with_input(d, info),
    }
}
