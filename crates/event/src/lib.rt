// The event call (01, "Play, capture, events", third paragraph): a jack's connection or an XRUN, told
// to the guest.
#![tactic(auto)]

ghost use Rattle.std.specs.Prelude.{◌≡◌, cond, ◌&&◌, eqb};
ghost use Rattle.registers.specs.Rules.{has_bit};
ghost use Rattle.rules.specs.Calls.{is_running, event_allowed};
ghost use Rattle.device.specs.Device.{stream_at};
ghost use Rattle.device.specs.Numbers.{event_queue, jack_connected};
ghost use Rattle.meaning.specs.Held.{holding_live};
ghost use Rattle.live.specs.Live.{FitBoard};
ghost use Rattle.event.specs.Event.{rest_in, NamesJack, recorded_in, refused_by, TellsOn};

use card::{Jack, Parts};
use event_queue::{Attempt, Event};
use live::Live;
use registers::Answer;

#[repr(C)]
#[derive(Clone, Copy)]
pub struct EventAnswer {
    pub answer: Answer,
    pub live: Live,
    pub parts: Parts,
}

// The small state with what sending changed: the registers and the event queue's counters.
fn with_attempt(live: Live, attempt: Attempt) -> Live
    ensures { result ≡ holding_live event_queue attempt.registers attempt.counters live }
{
    let mut next = live;
    next.registers = attempt.registers;
    next.queues[event_queue::NUMBER] = attempt.counters;
    next
}

// Whether the stream is there and Running, with its XRUN event selected.
fn tells_xruns(live: Live, parts: Parts, stream: u32) -> bool
    requires { FitBoard live parts }
    ensures { result ≡ (is_running (rest_in live parts) stream && has_bit (stream_at (rest_in live parts) stream).params.features 4) }
{
    if live.config.streams <= stream {
        return false;
    }
    let at = stream as usize;
    let states = live.states;
    let streams = parts.streams;
    states[at] == card::RUNNING && !live.fresh && streams[at].params.features / 16 % 2 == 1
}

// Whether the event may be sent.
#[tactic(auto, unfolding(rules::specs::Calls::event_allowed))]
fn is_allowed(live: Live, parts: Parts, event: Event) -> bool
    requires { FitBoard live parts }
    ensures { result ≡ event_allowed (rest_in live parts) event.code event.«data» }
{
    match event.code {
        rules::JACK_CONNECTED | rules::JACK_DISCONNECTED => event.data < live.config.jacks,
        rules::PCM_XRUN => tells_xruns(live, parts, event.data),
        _ => false,
    }
}

// The connection that a jack's event tells.
fn connection(code: u32) -> u8
    ensures { result ≡ cond (eqb code jack_connected) 1 0 }
{
    if code == rules::JACK_CONNECTED { 1 } else { 0 }
}

// The parts with the state that an event tells: a jack's connection.
fn record_state(parts: Parts, event: Event) -> Parts
    requires { NamesJack event.code event.«data» }
    ensures { result ≡ recorded_in event.code event.«data» parts }
{
    if event.code == rules::PCM_XRUN {
        return parts;
    }
    let at = event.data as usize;
    let mut next = parts;
    next.jacks[at] = Jack {
        connected: connection(event.code),
        ..next.jacks[at]
    };
    next
}

// A call that a check refuses: nothing changed.
fn refused(live: Live, parts: Parts, number: u8) -> EventAnswer
    ensures { result ≡ refused_by number live parts }
{
    EventAnswer {
        answer: registers::plain(number),
        live,
        parts,
    }
}

// The event call: the guest is told of an event with this code and data.
pub fn event(live: Live, parts: Parts, m: &mut [u8], code: u32, data: u32) -> EventAnswer
    requires { FitBoard live parts }
    ensures { TellsOn code «data» live parts m.old m.new result }
{
    if m.len() != live.ram_len {
        return refused(live, parts, registers::LENGTH_DIFFERS);
    }
    if !live.registers.is_live() {
        return refused(live, parts, registers::NOT_LIVE);
    }
    let event = Event { code, data };
    if !is_allowed(live, parts, event) {
        return refused(live, parts, registers::EVENT_NOT_ALLOWED);
    }
    let counters = live.queues[event_queue::NUMBER];
    let attempt = event_queue::send(m, live.registers, counters, event);
    EventAnswer {
        answer: attempt.answer,
        live: with_attempt(live, attempt),
        parts: record_state(parts, event),
    }
}
