// The items of JACK_INFO, PCM_INFO and CHMAP_INFO (01, "Control messages").
#![tactic(auto)]

ghost use Rattle.std.specs.Prelude.{◌≡◌, map, ◌+◌, ◌≤◌, length, take, drop, replicate};
ghost use Rattle.card.specs.Fit.{FitParts};
ghost use Rattle.live.specs.Live.{jack_now, parts_now};
ghost use Rattle.ranges.specs.Ranges.{ranges_of, places, put_at};
ghost use Rattle.rules.specs.Control.{pcm_item_of, map_item, natural_size, fitted, joined};
ghost use Rattle.information.specs.Items.{items_in, direction_in, jack_bytes, map_bytes};

use card::{Jack, Parts, Stream};
use description::MapInfo;
use live::Live;
use ranges::Ranges;
use rules::Listing;

// The natural size of an item.
fn natural_size(l: Listing) -> usize
    ensures { (result ≡ natural_size l) × (result ≤ 32) }
{
    match l {
        Listing::Jacks | Listing::Maps => 24,
        Listing::Streams => 32,
    }
}

// How many items there are.
pub fn total(live: Live, parts: Parts, l: Listing) -> usize
    requires { FitParts (parts_now live parts) }
    ensures { (result ≡ length (items_in l (parts_now live parts))) × (result ≤ 6) }
{
    match l {
        Listing::Jacks => parts.jack_count,
        Listing::Streams => parts.stream_count,
        Listing::Maps => parts.map_count,
    }
}

// The configuration default of a jack as it is.
fn defconf_now(fresh: bool, jack: Jack) -> u32
    ensures { result ≡ (jack_now fresh jack).defconf }
{
    if fresh {
        jack.info.defconf
    } else {
        jack.defconf
    }
}

// The item of a jack as it is, then zeros to the length of the longest.
fn jack_item(fresh: bool, jack: Jack) -> [u8; 32]
    ensures { result ≡ jack_bytes (jack_now fresh jack) }
{
    let mut bytes = [0u8; 32];
    memory::set(&mut bytes, 0, jack.info.nid);
    memory::set(&mut bytes, 4, jack.info.features);
    memory::set(&mut bytes, 8, defconf_now(fresh, jack));
    memory::set(&mut bytes, 12, jack.info.caps);
    bytes[16] = jack.connected;
    bytes
}

// The direction of a stream: outputs (0) are numbered first, the others are inputs (1).
fn direction_of(outputs: usize, number: usize) -> u8
    ensures { result ≡ direction_in outputs number }
{
    if number < outputs { 0 } else { 1 }
}

fn pcm_item(outputs: usize, number: usize, stream: Stream) -> [u8; 32]
    ensures { result ≡ pcm_item_of (direction_in outputs number) stream }
{
    let mut bytes = [0u8; 32];
    memory::set(&mut bytes, 0, stream.info.nid);
    memory::set(&mut bytes, 4, stream.info.features);
    memory::set(&mut bytes, 8, stream.info.formats);
    memory::set(&mut bytes, 16, stream.info.rates);
    bytes[24] = direction_of(outputs, number);
    bytes[25] = stream.info.channels_min;
    bytes[26] = stream.info.channels_max;
    bytes
}

fn map_item(map: MapInfo) -> [u8; 32]
    ensures { (result ≡ map_bytes map) × (length (map_item map) ≡ 24) }
{
    let mut bytes = [0u8; 32];
    bytes[4] = map.direction;
    bytes[5] = map.channels;
    memory::set(&mut bytes, 0, map.nid);
    ranges::copy(&mut bytes, 6, &map.positions, 0, 18);
    bytes
}

// Zeros in a row.
fn zeros() -> [u8; 1024]
    ensures { result ≡ replicate 1024 0 }
{
    [0; 1024]
}

// `n` zeros, written to a reply from its byte `start` on, 1,024 at a time.
fn write_zeros(m: &mut [u8], list: &[u64], reply: Ranges, start: usize, n: usize)
    requires { start + n ≤ 4294967295 }
    ensures { m.new ≡ put_at m.old (drop start (places (ranges_of list.now reply))) (replicate n 0) }
{
    if n == 0 {
        return;
    }
    let run = zeros();
    let end = start + n;
    let mut at = start;
    while at < end {
        let k = (end - at).min(run.len());
        ranges::scatter(m, list, reply, at, &run, 0, k);
        at += k;
    }
}

// An item of `natural` bytes, in `size` bytes of a reply from its byte `at` on: cut, or zeros behind it.
fn write_item(
    m: &mut [u8],
    list: &[u64],
    reply: Ranges,
    at: usize,
    item: &[u8],
    natural: usize,
    size: usize,
)
    requires { (at + size ≤ 4294967295) × (natural ≤ length item.now) }
    ensures { m.new
        ≡ put_at m.old (drop at (places (ranges_of list.now reply)))
        (fitted size (take natural item.now)) }
{
    let k = natural.min(size);
    ranges::scatter(m, list, reply, at, item, 0, k);
    write_zeros(m, list, reply, at + k, size - k);
}

// `count` items from `start` on, `size` bytes apart, written to a reply behind its status; returns where they end.
pub fn write_items(
    m: &mut [u8],
    list: &[u64],
    reply: Ranges,
    live: Live,
    parts: Parts,
    l: Listing,
    start: usize,
    count: usize,
    size: usize,
) -> usize
    requires { FitParts (parts_now live parts) × (start + count ≤ length (items_in l (parts_now live parts)))
        × (4 + length (joined (take count (drop start (map (fitted size) (items_in l (parts_now live parts)))))) ≤ 4294967295) }
    ensures { (m.new
        ≡ put_at m.old (drop 4 (places (ranges_of list.now reply)))
        (joined (take count (drop start (map (fitted size) (items_in l (parts_now live parts)))))))
        × (result ≡ 4 + length (joined (take count (drop start (map (fitted size) (items_in l (parts_now live parts))))))) }
{
    let natural = natural_size(l);
    let mut at = 4;
    for i in start..start + count {
        let item = match l {
            Listing::Jacks => jack_item(live.fresh, parts.jacks[i]),
            Listing::Streams => pcm_item(parts.output_count, i, parts.streams[i]),
            Listing::Maps => map_item(parts.maps[i]),
        };
        write_item(m, list, reply, at, &item, natural, size);
        at += size;
    }
    at
}
