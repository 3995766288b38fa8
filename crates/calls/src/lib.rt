// Any call of the monitor on a card that is passed as one value, for the programs. What it promises is what demand 3 is proved of
// (proofs/Demand3).
#![tactic(auto)]

ghost use Rattle.std.specs.Prelude.{◌≡◌, [], length, take};
ghost use Rattle.card.specs.Rules.{read_card, write_card};
ghost use Rattle.live.specs.Live.{card_in};
ghost use Rattle.meaning.specs.Card.{step_of, leaves};
ghost use Rattle.meaning.specs.Fit.{Fit};
ghost use Rattle.line_calls.specs.Calls as rules;
ghost use Rattle.calls.specs.Calls.{Powers, call_of, told_of, host_of, queue_outcome, Does};

use card::{Card, Parts, Powered, ReadAnswer, WriteAnswer};
use description::Description;
use live::Live;
use registers::Answer;

// What is asked: a read at an offset, of a width; a write of a value; a play or a capture of a stream, with the host's
// backlog; an event of a code and its data.
#[derive(Clone, Copy)]
pub enum Request {
    Read(u64, u64),
    Write(u64, u64, u64),
    Control,
    Play(u32, u32),
    Capture(u32, u32),
    Event(u32, u32),
}

// What was told: the value of a read, the queue rung by a write, the count of a control call or of a
// transfer.
#[derive(Clone, Copy)]
pub struct Outcome {
    pub answer: Answer,
    pub value: u32,
    pub rung: u8,
    pub count: usize,
    pub card: Card,
}

// Words of the queues, before anything stands in them.
fn play_words() -> [u64; card::PLAY_WORDS]
    ensures { length result ≡ 1340 }
{
    [0; card::PLAY_WORDS]
}

fn capture_words() -> [u64; card::CAPTURE_WORDS]
    ensures { length result ≡ 286 }
{
    [0; card::CAPTURE_WORDS]
}

// The card of these pieces, with such words.
fn assembled(parts: Parts, live: Live) -> Card
    ensures { (result ≡ card_in live parts result.play_words result.capture_words) × (length result.play_words ≡ 1340)
        × (length result.capture_words ≡ 286) × (length parts.streams ≡ 6) }
{
    live::joined(live, parts, play_words(), capture_words())
}

// Power-up: a card with `ram_len` bytes of memory, or answer 10.
pub fn power_up(d: Description, ram_len: usize) -> Powered
    ensures { Powers d ram_len result × Fit result.card }
{
    let powered = live::power_up(d, ram_len);
    let board = powered.board;
    let live = board.live;
    let parts = board.parts;
    Powered {
        answer: powered.answer,
        card: assembled(parts, live),
    }
}

// A read of the registers.
fn read(card: Card, offset: u64, width: u64) -> ReadAnswer
    requires { Fit card }
    ensures { (result ≡ read_card card offset width) × Fit result.card }
{
    let after = live::read(live::of_card(card), offset, width);
    let live = after.live;
    let parts = card.parts;
    let play_words = card.play_words;
    let capture_words = card.capture_words;
    ReadAnswer {
        answer: after.answer,
        value: after.value,
        card: live::joined(live, parts, play_words, capture_words),
    }
}

// A write of the registers.
fn write(card: Card, offset: u64, width: u64, value: u64) -> WriteAnswer
    requires { Fit card }
    ensures { (result ≡ write_card card offset width value) × Fit result.card }
{
    let after = live::write(live::of_card(card), offset, width, value);
    let live = after.live;
    let parts = card.parts;
    let play_words = card.play_words;
    let capture_words = card.capture_words;
    WriteAnswer {
        answer: after.answer,
        rung: after.rung,
        card: live::joined(live, parts, play_words, capture_words),
    }
}

// One call: a play fills the host buffer, a capture reads it, the others leave it alone.
pub fn call(card: Card, m: &mut [u8], host: &mut [u8], request: Request) -> Outcome
    requires { Fit card }
    ensures { Does card (call_of request host.old m.old)
        (told_of request result host.new m.new) result.card
        × Fit result.card × (host.new ≡ host_of request host.old host.new) }
{
    match request {
        Request::Read(offset, width) => {
            let read = read(card, offset, width);
            let after = read.card;
            Outcome {
                answer: registers::plain(read.answer),
                value: read.value,
                rung: registers::NO_QUEUE,
                count: 0,
                card: after,
            }
        }
        Request::Write(offset, width, value) => {
            let written = write(card, offset, width, value);
            let after = written.card;
            Outcome {
                answer: registers::plain(written.answer),
                value: 0,
                rung: written.rung,
                count: 0,
                card: after,
            }
        }
        Request::Control => {
            let answered = control(card, m);
            queue_outcome(answered.answer, answered.count, answered.card)
        }
        Request::Play(stream, backlog) => {
            let played = play(card, m, host, stream, backlog);
            queue_outcome(played.answer, played.count, played.card)
        }
        Request::Capture(stream, backlog) => {
            let captured = capture(card, m, host, stream, backlog);
            queue_outcome(captured.answer, captured.count, captured.card)
        }
        Request::Event(code, data) => {
            let sent = event(card, m, code, data);
            queue_outcome(sent.answer, sent.count, sent.card)
        }
    }
}

// The outcome of a call on a queue.
fn queue_outcome(answer: Answer, count: usize, card: Card) -> Outcome
    ensures { result ≡ queue_outcome answer count card }
{
    Outcome {
        answer: answer,
        value: 0,
        rung: registers::NO_QUEUE,
        count: count,
        card: card,
    }
}

// What a call on a queue answers, and the card after it.
#[derive(Clone, Copy)]
struct Queued {
    answer: Answer,
    count: usize,
    card: Card,
}

// The play call on a card that is passed as one: its words are lent, and its small state.
fn play(card: Card, m: &mut [u8], host: &mut [u8], stream: u32, backlog: u32) -> Queued
    requires { Fit card }
    ensures { (step_of card (rules.Play stream host.old backlog) m.old
        ≡ leaves result.card result.answer result.count (take result.count host.new) host.new m.new)
        × Fit result.card }
{
    let mut words = card.play_words;
    let told = pcm::play(live::of_card(card), &mut words, m, host, stream, backlog);
    let answer = told.answer;
    let live = told.live;
    let parts = card.parts;
    let others = card.capture_words;
    Queued {
        answer: answer,
        count: told.count,
        card: live::joined(live, parts, words, others),
    }
}

// The capture call. The host buffer is only read.
fn capture(card: Card, m: &mut [u8], host: &mut [u8], stream: u32, backlog: u32) -> Queued
    requires { Fit card }
    ensures { (step_of card (rules.Capture stream host.old backlog) m.old
        ≡ leaves result.card result.answer result.count (take result.count host.new) [] m.new)
        × Fit result.card × (host.new ≡ host.old) }
{
    let mut words = card.capture_words;
    let told = pcm::capture(live::of_card(card), &mut words, m, host, stream, backlog);
    let answer = told.answer;
    let live = told.live;
    let parts = card.parts;
    let others = card.play_words;
    Queued {
        answer: answer,
        count: told.count,
        card: live::joined(live, parts, others, words),
    }
}

// The control call.
fn control(card: Card, m: &mut [u8]) -> Queued
    requires { Fit card }
    ensures { (step_of card rules.Control m.old ≡ leaves result.card result.answer result.count [] [] m.new)
        × Fit result.card }
{
    let mut play_words = card.play_words;
    let mut capture_words = card.capture_words;
    let before = card.parts;
    let told = controlq::control(
        live::of_card(card),
        before,
        &mut play_words,
        &mut capture_words,
        m,
    );
    let answer = told.answer;
    let live = told.live;
    let parts = told.parts;
    Queued {
        answer: answer,
        count: told.count,
        card: live::joined(live, parts, play_words, capture_words),
    }
}

// The event call.
fn event(card: Card, m: &mut [u8], code: u32, data: u32) -> Queued
    requires { Fit card }
    ensures { (step_of card (rules.Event code «data») m.old
        ≡ leaves result.card result.answer result.count [] [] m.new) × Fit result.card }
{
    let before = card.parts;
    let told = event::event(live::of_card(card), before, m, code, data);
    let answer = told.answer;
    let live = told.live;
    let parts = told.parts;
    let play_words = card.play_words;
    let capture_words = card.capture_words;
    Queued {
        answer: answer,
        count: 0,
        card: live::joined(live, parts, play_words, capture_words),
    }
}
