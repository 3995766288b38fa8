// Control messages (01, "Control messages"): what a request asks, and the requests that may change the parts.
// The queues, and with them the work of RELEASE, are the caller's.
#![tactic(auto)]

ghost use Rattle.std.specs.Prelude.{◌≡◌, leb, replicate};
ghost use Rattle.card.specs.Fit.{FitParts};
ghost use Rattle.rules.specs.Parts.{parts_of};
ghost use Rattle.ranges.specs.Ranges.{Sound, ranges_of, places, bytes_at};
ghost use Rattle.reply.specs.Reply.{Serves};
ghost use Rattle.requests.specs.Requests.{checked};
ghost use Rattle.rules.specs.Control.{decoded_of, layout_of};
ghost use Rattle.control.specs.Control.{asking_of, changed_by, Reads};

use card::Parts;
use ranges::Ranges;
use reply::{Pending, Served};
use requests::Check;
use ring::Posted;
use rules::{Asked, Command, Listing};

// A request that may change the parts.
#[derive(Clone, Copy)]
pub enum Change {
    Remap,
    Pcm(Command),
}

// What a request that is not refused asks: it is for information, or it may change the parts.
#[derive(Clone, Copy)]
pub enum Asking {
    Informs(Listing),
    Changes(Change),
}

impl From<Asked> for Asking {
    ghost from_gives = { λ asked r. r ≡ asking_of asked };

    fn from(asked: Asked) -> Asking {
        match asked {
            Asked::Information(l) => Asking::Informs(l),
            Asked::Remap => Asking::Changes(Change::Remap),
            Asked::Pcm(command) => Asking::Changes(Change::Pcm(command)),
        }
    }
}

// What a request's code asks.
#[tactic(auto, unfolding(rules::specs::Control::decoded_of))]
fn decode(code: u32) -> Option<Asked>
    ensures { result ≡ decoded_of code }
{
    let asked = match code {
        rules::JACK_INFO => Asked::Information(Listing::Jacks),
        rules::JACK_REMAP => Asked::Remap,
        rules::PCM_INFO => Asked::Information(Listing::Streams),
        rules::PCM_SET_PARAMS => Asked::Pcm(Command::SetParams),
        rules::PCM_PREPARE => Asked::Pcm(Command::Prepare),
        rules::PCM_RELEASE => Asked::Pcm(Command::Release),
        rules::PCM_START => Asked::Pcm(Command::Start),
        rules::PCM_STOP => Asked::Pcm(Command::Stop),
        rules::CHMAP_INFO => Asked::Information(Listing::Maps),
        _ => return None,
    };
    Some(asked)
}

// The length of a request's layout.
fn layout(asked: Asked) -> u32
    ensures { result ≡ layout_of asked }
{
    match asked {
        Asked::Information(_) | Asked::Remap => 16,
        Asked::Pcm(Command::SetParams) => 24,
        Asked::Pcm(_) => 8,
    }
}

// A request has the length of its layout.
fn is_laid_out(asked: Asked, len: u32) -> Check
    ensures { result ≡ checked (leb (layout_of asked) len) }
{
    (layout(asked) <= len).then_some(())
}

// What a control request asks, or the completion of one that is refused. Its first bytes are put into `bytes`; no
// layout is longer.
pub fn read(
    m: &mut [u8],
    list: &[u64],
    pending: Pending,
    request: Ranges,
    bytes: &mut [u8],
) -> Result<Asking, Posted>
    requires { Sound list.now request × (bytes.old ≡ replicate 24 0) }
    ensures { Reads list.now pending (bytes_at m.old (places (ranges_of list.now request)))
        bytes.new m.old m.new result }
{
    ranges::gather(m, list, request, 0, bytes, 0, 24);
    let Some(asked) = decode(memory::number::<u32>(bytes, 0)) else {
        return Err(reply::complete(m, list, pending, rules::NOT_SUPP));
    };
    let Some(()) = is_laid_out(asked, request.bytes) else {
        return Err(reply::complete(m, list, pending, rules::BAD_MSG));
    };
    Ok(Asking::from(asked))
}

// A request that may change the parts, served by its first bytes.
pub fn act(
    m: &mut [u8],
    list: &[u64],
    parts: Parts,
    pending: Pending,
    change: Change,
    request: &[u8],
) -> Served
    requires { FitParts parts }
    ensures { Serves list.now pending parts (changed_by change (parts_of parts) request.now)
        result m.old m.new }
{
    match change {
        Change::Remap => requests::remap(m, list, parts, pending, request),
        Change::Pcm(command) => commands::command(m, list, parts, pending, command, request),
    }
}
