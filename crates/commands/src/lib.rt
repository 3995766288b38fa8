// PCM commands (01, "Control messages"), step by step: the lifecycle of a stream, SET_PARAMS, and what a
// RELEASE asks for. Where a step refuses, the message is completed with the step's status.
#![tactic(auto)]

ghost use Rattle.std.specs.Prelude.{◌≡◌, ◌≤◌, ◌<◌};
ghost use Rattle.card.specs.Fit.{FitParts};
ghost use Rattle.rules.specs.Parts.{parts_of};
ghost use Rattle.reply.specs.Reply.{Serves};
ghost use Rattle.requests.specs.Requests.{checked};
ghost use Rattle.rules.specs.Control.{commanded, obeyed, moves, set_params, set_by, judged_offer, params_of, stream_in};
ghost use Rattle.rules.specs.Control.{offers as offers_of, unpadded, sized, periodic, buffer_offered, features_offered};
ghost use Rattle.rules.specs.Control.{channels_offered, format_offered, rate_offered, framed};
ghost use Rattle.rules.specs.Lifecycle.{transition};
ghost use Rattle.commands.specs.Commands.{leads_to_state};

use card::{Params, Parts, Stream};
use description::StreamInfo;
use reply::{Kind, Pending, Served};
use requests::Check;
use rules::Command;

// The lifecycle of a stream (000, PCM Command Lifecycle): where a command is lawful, the state that it leads to.
#[tactic(auto, unfolding(rules::specs::Lifecycle::transition))]
fn lifecycle(command: Command, state: u8) -> Option<u8>
    ensures { (result ≡ transition command state) × leads_to_state result }
{
    match (command, state) {
        (Command::SetParams, card::FRESH) => Some(card::SET),
        (Command::SetParams, card::SET) => Some(card::SET),
        (Command::SetParams, card::PREPARED) => Some(card::SET),
        (Command::SetParams, card::RELEASED) => Some(card::SET),
        (Command::Prepare, card::SET) => Some(card::PREPARED),
        (Command::Prepare, card::PREPARED) => Some(card::PREPARED),
        (Command::Prepare, card::RELEASED) => Some(card::PREPARED),
        (Command::Start, card::PREPARED) => Some(card::RUNNING),
        (Command::Start, card::STOPPED) => Some(card::RUNNING),
        (Command::Stop, card::RUNNING) => Some(card::STOPPED),
        (Command::Release, card::PREPARED) => Some(card::RELEASED),
        (Command::Release, card::STOPPED) => Some(card::RELEASED),
        _ => None,
    }
}

// SET_PARAMS: padding is 0.
fn is_unpadded(padding: u8) -> Check
    ensures { result ≡ checked (unpadded padding) }
{
    (padding == 0).then_some(())
}

// SET_PARAMS: neither buffer nor period is 0.
fn is_sized(p: Params) -> Check
    ensures { result ≡ checked (sized p) }
{
    (p.buffer_bytes != 0 && p.period_bytes != 0).then_some(())
}

// SET_PARAMS: the buffer is a multiple of the period.
fn is_periodic(p: Params) -> Check
    requires { 0 < p.period_bytes }
    ensures { result ≡ checked (periodic p) }
{
    (p.buffer_bytes % p.period_bytes == 0).then_some(())
}

// SET_PARAMS: the buffer is not above the most that is offered.
fn is_buffer_offered(p: Params) -> Check
    ensures { result ≡ checked (buffer_offered p) }
{
    (p.buffer_bytes <= 262144).then_some(())
}

// SET_PARAMS: no features, or those that the stream has.
fn are_features_offered(info: StreamInfo, p: Params) -> Check
    ensures { result ≡ checked (features_offered info p) }
{
    (p.features == 0 || p.features == info.features).then_some(())
}

// SET_PARAMS: as many channels as the stream can have.
fn are_channels_offered(info: StreamInfo, p: Params) -> Check
    ensures { result ≡ checked (channels_offered info p) }
{
    (info.channels_min <= p.channels && p.channels <= info.channels_max).then_some(())
}

// Whether bit `i` of a mask is set.
fn offers(mask: u64, i: u8) -> bool
    ensures { result ≡ offers_of mask i }
{
    i < 64 && (mask >> i) % 2 == 1
}

// SET_PARAMS: a format that the stream offers.
fn is_format_offered(info: StreamInfo, p: Params) -> Check
    ensures { result ≡ checked (format_offered info p) }
{
    offers(info.formats, p.format).then_some(())
}

// SET_PARAMS: a rate that the stream offers.
fn is_rate_offered(info: StreamInfo, p: Params) -> Check
    ensures { result ≡ checked (rate_offered info p) }
{
    offers(info.rates, p.rate).then_some(())
}

// SET_PARAMS: the period is a whole number of frames.
fn is_framed(p: Params) -> Check
    ensures { result ≡ checked (framed p) }
{
    let frame = p.channels as u64 * formats::physical_bits(p.format) as u64;
    (frame != 0 && p.period_bytes as u64 * 8 % frame == 0).then_some(())
}

// The parameters in a SET_PARAMS request.
fn params_in(request: &[u8]) -> Params
    ensures { result ≡ params_of request.now }
{
    Params {
        buffer_bytes: memory::number::<u32>(request, 8),
        period_bytes: memory::number::<u32>(request, 12),
        features: memory::number::<u32>(request, 16),
        channels: memory::number::<u8>(request, 20),
        format: memory::number::<u8>(request, 21),
        rate: memory::number::<u8>(request, 22),
    }
}

// SET_PARAMS of well-formed parameters: the stream `i` takes what it offers.
fn set_offered(
    m: &mut [u8],
    list: &[u64],
    parts: Parts,
    pending: Pending,
    i: usize,
    state: u8,
    params: Params,
) -> Served
    requires { FitParts parts × (i < parts.stream_count) × (state ≤ 5) }
    ensures { Serves list.now pending parts
        (set_by (parts_of parts) i state params (judged_offer (stream_in (parts_of parts) i).info params))
        result m.old m.new }
{
    let stream = parts.streams[i];
    let Some(()) = is_buffer_offered(params) else {
        return reply::answer(m, list, parts, pending, rules::NOT_SUPP);
    };
    let Some(()) = are_features_offered(stream.info, params) else {
        return reply::answer(m, list, parts, pending, rules::NOT_SUPP);
    };
    let Some(()) = are_channels_offered(stream.info, params) else {
        return reply::answer(m, list, parts, pending, rules::NOT_SUPP);
    };
    let Some(()) = is_format_offered(stream.info, params) else {
        return reply::answer(m, list, parts, pending, rules::NOT_SUPP);
    };
    let Some(()) = is_rate_offered(stream.info, params) else {
        return reply::answer(m, list, parts, pending, rules::NOT_SUPP);
    };
    let Some(()) = is_framed(params) else {
        return reply::answer(m, list, parts, pending, rules::BAD_MSG);
    };
    let set = Stream {
        state,
        params,
        ..stream
    };
    reply::answer(m, list, parts.with_stream(i, set), pending, rules::OK)
}

// SET_PARAMS of the stream `i`.
fn set_params(
    m: &mut [u8],
    list: &[u64],
    parts: Parts,
    pending: Pending,
    i: usize,
    state: u8,
    request: &[u8],
) -> Served
    requires { FitParts parts × (i < parts.stream_count) × (state ≤ 5) }
    ensures { Serves list.now pending parts (set_params (parts_of parts) i state request.now)
        result m.old m.new }
{
    let params = params_in(request);
    let Some(()) = is_unpadded(memory::number::<u8>(request, 23)) else {
        return reply::answer(m, list, parts, pending, rules::BAD_MSG);
    };
    let Some(()) = is_sized(params) else {
        return reply::answer(m, list, parts, pending, rules::BAD_MSG);
    };
    let Some(()) = is_periodic(params) else {
        return reply::answer(m, list, parts, pending, rules::BAD_MSG);
    };
    set_offered(m, list, parts, pending, i, state, params)
}

// PREPARE, START, STOP: the stream `i` goes to `state`.
fn move_stream(
    m: &mut [u8],
    list: &[u64],
    parts: Parts,
    pending: Pending,
    i: usize,
    state: u8,
) -> Served
    requires { FitParts parts × (i < parts.stream_count) × (state ≤ 5) }
    ensures { Serves list.now pending parts (moves (parts_of parts) i state) result m.old m.new }
{
    let moved = Stream {
        state,
        ..parts.streams[i]
    };
    reply::answer(m, list, parts.with_stream(i, moved), pending, rules::OK)
}

// A lawful command of the stream `i`, and the state that it leads to. Of a RELEASE nothing is done yet.
fn obey(
    m: &mut [u8],
    list: &[u64],
    parts: Parts,
    pending: Pending,
    command: Command,
    i: usize,
    state: u8,
    request: &[u8],
) -> Served
    requires { FitParts parts × (i < parts.stream_count) × (state ≤ 5) }
    ensures { Serves list.now pending parts (obeyed (parts_of parts) command i state request.now)
        result m.old m.new }
{
    match command {
        Command::SetParams => set_params(m, list, parts, pending, i, state, request),
        Command::Prepare | Command::Start | Command::Stop => {
            move_stream(m, list, parts, pending, i, state)
        }
        Command::Release => Served {
            parts,
            kind: Kind::Release(i as u32),
        },
    }
}

// A PCM command.
pub fn command(
    m: &mut [u8],
    list: &[u64],
    parts: Parts,
    pending: Pending,
    asked: Command,
    request: &[u8],
) -> Served
    requires { FitParts parts }
    ensures { Serves list.now pending parts (commanded (parts_of parts) asked request.now)
        result m.old m.new }
{
    let Some(i) = requests::find(memory::number::<u32>(request, 4), parts.stream_count) else {
        return reply::answer(m, list, parts, pending, rules::BAD_MSG);
    };
    let Some(state) = lifecycle(asked, parts.streams[i].state) else {
        return reply::answer(m, list, parts, pending, rules::BAD_MSG);
    };
    obey(m, list, parts, pending, asked, i, state, request)
}
