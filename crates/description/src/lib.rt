// What the monitor describes at power-up, and the judgement of it (01, "The card at power-up").
#![tactic(auto)]

ghost use Rattle.std.specs.Prelude.{◌≡◌, ◌+◌, ◌≤◌, ◌<◌, take};
ghost use Rattle.std.specs.List.{list_all};
ghost use Rattle.description.specs.Nothing.{nothing_described};
ghost use Rattle.description.specs.Lawful.{lawful, lawful_jack, lawful_map, lawful_stream, lawful_channels, lawful_positions};
ghost use Rattle.description.specs.Lawful.{lawful_position, in_bits, lawful_counts};

// How many streams a card can have: four outputs and two inputs.
pub const STREAMS: usize = 6;

#[repr(C)]
#[derive(Clone, Copy)]
pub struct JackInfo {
    pub nid: u32,
    pub features: u32,
    pub defconf: u32,
    pub caps: u32,
    pub connected: u8,
}

#[repr(C)]
#[derive(Clone, Copy)]
pub struct MapInfo {
    pub nid: u32,
    pub direction: u8,
    pub channels: u8,
    pub positions: [u8; 18],
}

#[repr(C)]
#[derive(Clone, Copy)]
pub struct StreamInfo {
    pub nid: u32,
    pub features: u32,
    pub formats: u64,
    pub rates: u64,
    pub channels_min: u8,
    pub channels_max: u8,
}

// The first `jack_count` of `jacks`, the first `map_count` of `maps`; the output streams come first
// in `streams`, the input streams behind them.
#[repr(C)]
#[derive(Clone, Copy)]
pub struct Description {
    pub jack_count: u32,
    pub map_count: u32,
    pub output_count: u32,
    pub input_count: u32,
    pub jacks: [JackInfo; 4],
    pub maps: [MapInfo; 4],
    pub streams: [StreamInfo; STREAMS],
}

// What stands in the place of a part that is not described.
pub const NO_JACK: JackInfo = JackInfo {
    nid: 0,
    features: 0,
    defconf: 0,
    caps: 0,
    connected: 0,
};

pub const NO_MAP: MapInfo = MapInfo {
    nid: 0,
    direction: 0,
    channels: 0,
    positions: [0; 18],
};

pub const NO_STREAM: StreamInfo = StreamInfo {
    nid: 0,
    features: 0,
    formats: 0,
    rates: 0,
    channels_min: 0,
    channels_max: 0,
};

// Nothing described: no part of any kind.
pub fn nothing() -> Description
    ensures { result ≡ nothing_described }
{
    Description {
        jack_count: 0,
        map_count: 0,
        output_count: 0,
        input_count: 0,
        jacks: [NO_JACK; 4],
        maps: [NO_MAP; 4],
        streams: [NO_STREAM; STREAMS],
    }
}

// Whether a mask has a bit, and none at `n` or above.
fn in_bits(mask: u64, n: u32) -> bool
    requires { n < 64 }
    ensures { result ≡ in_bits mask n }
{
    mask != 0 && 64 - n <= mask.leading_zeros()
}

impl JackInfo {
    #[tactic(auto, unfolding(crate::specs::Lawful::lawful_jack))]
    fn is_lawful(&self) -> bool
        ensures { result ≡ lawful_jack self.now }
    {
        self.features <= 1 && self.connected <= 1
    }
}

// Whether a position stands as it should at `i` of a map of `channels`.
fn is_lawful_position(position: u8, i: usize, channels: u8) -> bool
    ensures { result ≡ lawful_position channels i position }
{
    if i < channels as usize {
        position <= 36
    } else {
        position == 0
    }
}

fn are_lawful_positions(positions: &[u8], channels: u8) -> bool
    ensures { result ≡ lawful_positions channels 0 positions.now }
{
    positions
        .iter()
        .enumerate()
        .all(|(i, position)| is_lawful_position(*position, i, channels))
}

impl MapInfo {
    #[tactic(auto, unfolding(crate::specs::Lawful::lawful_map))]
    fn is_lawful(&self) -> bool
        ensures { result ≡ lawful_map self.now }
    {
        self.direction <= 1
            && 1 <= self.channels
            && self.channels <= 18
            && are_lawful_positions(&self.positions, self.channels)
    }
}

fn are_lawful_channels(min: u8, max: u8) -> bool
    ensures { result ≡ lawful_channels min max }
{
    1 <= min && min <= max && max <= 18
}

impl StreamInfo {
    #[tactic(auto, unfolding(crate::specs::Lawful::lawful_stream))]
    fn is_lawful(&self) -> bool
        ensures { result ≡ lawful_stream self.now }
    {
        in_bits(self.formats, 25)
            && in_bits(self.rates, 14)
            && are_lawful_channels(self.channels_min, self.channels_max)
            && (self.features == 0 || self.features == 16)
    }
}

impl Description {
    #[tactic(auto, unfolding(crate::specs::Lawful::lawful_counts))]
    fn has_lawful_counts(&self) -> bool
        ensures { result ≡ lawful_counts self.now }
    {
        self.jack_count <= 4
            && self.map_count <= 4
            && 1 <= self.output_count
            && self.output_count <= 4
            && self.input_count <= 2
    }

    fn has_lawful_jacks(&self) -> bool
        requires { self.now.jack_count ≤ 4 }
        ensures { result ≡ list_all lawful_jack (take self.now.jack_count self.now.jacks) }
    {
        let jacks = &self.jacks[..self.jack_count as usize];
        jacks.iter().all(JackInfo::is_lawful)
    }

    fn has_lawful_maps(&self) -> bool
        requires { self.now.map_count ≤ 4 }
        ensures { result ≡ list_all lawful_map (take self.now.map_count self.now.maps) }
    {
        let maps = &self.maps[..self.map_count as usize];
        maps.iter().all(MapInfo::is_lawful)
    }

    fn has_lawful_streams(&self) -> bool
        requires { self.now.output_count + self.now.input_count ≤ 6 }
        ensures { result ≡ list_all lawful_stream (take (self.now.output_count + self.now.input_count) self.now.streams) }
    {
        let streams = &self.streams[..(self.output_count + self.input_count) as usize];
        streams.iter().all(StreamInfo::is_lawful)
    }

    // Whether a card can be made of the description.
    #[tactic(auto, unfolding(crate::specs::Lawful::lawful, crate::specs::Lawful::lawful_counts))]
    pub fn is_lawful(&self) -> bool
        ensures { result ≡ lawful self.now }
    {
        self.has_lawful_counts()
            && self.has_lawful_jacks()
            && self.has_lawful_maps()
            && self.has_lawful_streams()
    }
}
