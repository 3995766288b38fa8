// Control requests of jacks and for information (01, "Control messages"), step by step: each step answers an
// `Option`, and where it refuses, the message is completed with the step's status.
#![tactic(auto)]

ghost use Rattle.std.specs.Prelude.{◌≡◌, ◌++◌, map, ◌+◌, ◌*◌, ◌≤◌, ◌<◌, cond, leb, ltb, length, take, drop};
ghost use Rattle.card.specs.Fit.{FitParts};
ghost use Rattle.rules.specs.Parts.{parts_of};
ghost use Rattle.information.specs.Items.{items_in};
ghost use Rattle.live.specs.Live.{parts_now};
ghost use Rattle.line_calls.specs.Streams.{streams_in, direction_number};
ghost use Rattle.reply.specs.Reply.{Serves, completion_of};
ghost use Rattle.ring.specs.Rules.{completion};
ghost use Rattle.rules.specs.Control.{items_by, inform_by, remap as remap_of, remappable, four_bits, fitted, joined};
ghost use Rattle.rules.specs.Control.{spaced, roomy, status};
ghost use Rattle.device.specs.Numbers.{s_ok};
ghost use Rattle.requests.specs.Requests.{checked, query_in, Replies};

use card::{Jack, Parts};
use live::Live;
use reply::{Pending, Served};
use ring::Posted;
use rules::Listing;

// Whether a request passes a step of its reading: `Some` where it does.
pub type Check = Option<()>;

// The number of a jack or a stream of which there are `count`.
pub fn find(id: u32, count: usize) -> Option<usize>
    ensures { result ≡ cond (ltb id count) (Some id) None }
{
    let at = id as usize;
    (at < count).then_some(at)
}

// JACK_REMAP: the jack has the feature.
fn is_remappable(jack: Jack) -> Check
    ensures { result ≡ checked (remappable jack) }
{
    (jack.info.features == 1).then_some(())
}

// JACK_REMAP: an association or a sequence is at most 15.
fn has_four_bits(v: u32) -> Check
    ensures { result ≡ checked (four_bits v) }
{
    (v <= 15).then_some(())
}

// JACK_REMAP: association and sequence replace bits 7:4 and 3:0 of the jack's configuration default.
pub fn remap(m: &mut [u8], list: &[u64], parts: Parts, pending: Pending, request: &[u8]) -> Served
    requires { FitParts parts }
    ensures { Serves list.now pending parts (remap_of (parts_of parts) request.now)
        result m.old m.new }
{
    let Some(i) = find(memory::number::<u32>(request, 4), parts.jack_count) else {
        return reply::answer(m, list, parts, pending, rules::BAD_MSG);
    };
    let jack = parts.jacks[i];
    let Some(()) = is_remappable(jack) else {
        return reply::answer(m, list, parts, pending, rules::NOT_SUPP);
    };
    let association = memory::number::<u32>(request, 8);
    let sequence = memory::number::<u32>(request, 12);
    let Some(()) = has_four_bits(association) else {
        return reply::answer(m, list, parts, pending, rules::BAD_MSG);
    };
    let Some(()) = has_four_bits(sequence) else {
        return reply::answer(m, list, parts, pending, rules::BAD_MSG);
    };
    let defconf = jack.defconf / 256 * 256 + association * 16 + sequence;
    reply::answer(
        m,
        list,
        parts.with_jack(i, Jack { defconf, ..jack }),
        pending,
        rules::OK,
    )
}

// What a request for information asks for: `count` items from `start` on, `size` bytes apart.
#[derive(Clone, Copy)]
struct Query {
    start: u32,
    count: u32,
    size: u32,
}

impl Query {
    // The query in a request.
    fn of(request: &[u8]) -> Query
        ensures { result ≡ query_in request.now }
    {
        Query {
            start: memory::number::<u32>(request, 4),
            count: memory::number::<u32>(request, 8),
            size: memory::number::<u32>(request, 12),
        }
    }

    // Items that are asked for have a size.
    fn is_spaced(self) -> Check
        ensures { result ≡ checked (spaced self.count self.size) }
    {
        (self.count == 0 || self.size != 0).then_some(())
    }

    // The items asked for are among `total`.
    fn is_listed(self, total: usize) -> Check
        ensures { result ≡ checked (leb (self.start + self.count) total) }
    {
        (self.start as usize + self.count as usize <= total).then_some(())
    }

    // Behind the status they fit `room` bytes.
    fn is_roomy(self, room: u32) -> Check
        ensures { result ≡ checked (roomy self.count self.size room) }
    {
        (room >= 4 && self.count as u64 * self.size as u64 <= room as u64 - 4).then_some(())
    }
}

// The items of a request that passed every step, behind the status.
fn list_items(
    m: &mut [u8],
    list: &[u64],
    live: Live,
    parts: Parts,
    pending: Pending,
    l: Listing,
    query: Query,
) -> Posted
    requires { FitParts (parts_now live parts) × (query.start + query.count ≤ length (items_in l (parts_now live parts)))
        × (4 + query.count * query.size ≤ 4294967295) }
    ensures { completion m.new result
        ≡ completion_of list.now pending
        (status s_ok
        ++ joined (take query.count (drop query.start (map (fitted query.size) (items_in l (parts_now live parts))))))
        m.old }
{
    reply::write_status(m, list, pending.reply, rules::OK);
    let len = information::write_items(
        m,
        list,
        pending.reply,
        live,
        parts,
        l,
        query.start as usize,
        query.count as usize,
        query.size as usize,
    );
    reply::close(m, pending, len as u32)
}

// JACK_INFO, PCM_INFO, CHMAP_INFO: no part changes; `room` is the length of the reply's writable side.
pub fn inform(
    m: &mut [u8],
    list: &[u64],
    live: Live,
    parts: Parts,
    pending: Pending,
    l: Listing,
    request: &[u8],
    room: u32,
) -> Posted
    requires { FitParts (parts_now live parts) }
    ensures { Replies list.now pending (parts_of (parts_now live parts))
        (inform_by (items_by (direction_number (streams_in (parts_now live parts)))) (parts_of (parts_now live parts)) l
        request.now room)
        result m.old m.new }
{
    let query = Query::of(request);
    let Some(()) = query.is_spaced() else {
        return reply::complete(m, list, pending, rules::BAD_MSG);
    };
    let Some(()) = query.is_listed(information::total(live, parts, l)) else {
        return reply::complete(m, list, pending, rules::BAD_MSG);
    };
    let Some(()) = query.is_roomy(room) else {
        return reply::complete(m, list, pending, rules::BAD_MSG);
    };
    list_items(m, list, live, parts, pending, l, query)
}
