// A call of a script on the card, with the host buffer that its line lends: it hands back what is printed for the call
// and the card after it.
#![tactic(auto)]

ghost use Rattle.std.specs.Prelude.{◌≡◌};
ghost use Rattle.calls.specs.Calls.{request_of, told_of, host_of};
ghost use Rattle.meaning.specs.Card.{step_of};
ghost use Rattle.meaning.specs.Fit.{Fit};
ghost use Rattle.replay_text.specs.Adler.{adler};
ghost use Rattle.replay_text.specs.Text.{call_bytes};
ghost use Rattle.replay_call.specs.Asked.{made_by, asked_by};
ghost use Rattle.replay_call.specs.Shown.{irq_of, text_for, Shows};

use calls::{Outcome, Request};
use card::Card;
use replay_line::Call;
use replay_text::LineText;

// What a call prints, and the card after it.
#[derive(Clone, Copy)]
pub struct Shown {
    pub text: LineText,
    pub card: Card,
}

// 1 while the interrupt line is raised, else 0.
fn irq(card: Card) -> u8
    ensures { result ≡ irq_of card }
{
    if card.registers.line() { 1 } else { 0 }
}

// `LINE ANSWER COUNT IRQ SUM QUEUE`
fn sum_text(line: u64, told: Outcome, irq: u8, m: &[u8]) -> LineText
    ensures { result ≡ call_bytes line told.answer.number told.count irq (adler m.now) told.answer.queue }
{
    let sum = replay_text::adler32(m);
    let queue = told.answer.queue;
    replay_text::call_text(line, told.answer.number, told.count, irq, sum, queue)
}

// What is printed for a request that told this, with memory and host buffer as it left them.
fn text(line: u64, request: Request, told: Outcome, m: &[u8], host: &[u8]) -> LineText
    ensures { result ≡ text_for (request_of request host.now) line (irq_of told.card)
        (told_of request told host.now m.now) }
{
    let raised = irq(told.card);
    match request {
        Request::Read(..) | Request::Write(..) => {
            replay_text::register_text(line, told.answer.number, told.value, told.rung, raised)
        }
        Request::Control | Request::Capture(..) | Request::Event(..) => {
            sum_text(line, told, raised, m)
        }
        Request::Play(..) => replay_text::play_text(
            line,
            told.answer.number,
            told.count,
            raised,
            replay_text::adler32(m),
            replay_text::adler32(host),
            told.answer.queue,
        ),
    }
}

// A request, with this memory and this host buffer lent to it.
fn ask(card: Card, line: u64, request: Request, m: &mut [u8], host: &mut [u8]) -> Shown
    requires { Fit card }
    ensures { Shows card line (request_of request host.old) m.old m.new result
        × (host.new
        ≡ host_of request host.old (step_of card (request_of request host.old) m.old).told.host) }
{
    let told = calls::call(card, m, host, request);
    let text = text(line, request, told, m, host);
    Shown {
        text,
        card: told.card,
    }
}

// What is asked of the card.
fn request(call: Call) -> Request
    ensures { result ≡ made_by call }
{
    match call {
        Call::Read { offset, width } => Request::Read(offset, width),
        Call::Write {
            offset,
            width,
            value,
        } => Request::Write(offset, width, value),
        Call::Control => Request::Control,
        Call::Play {
            stream,
            backlog,
            ..
        } => Request::Play(stream, backlog),
        Call::Capture {
            stream,
            backlog,
            ..
        } => Request::Capture(stream, backlog),
        Call::Event { code, info } => Request::Event(code, info),
    }
}

// A call on the card that the line `s` makes, with the memory lent to it.
pub fn call(card: Card, line: u64, call: Call, s: &[u8], m: &mut [u8]) -> Shown
    requires { Fit card }
    ensures { Shows card line (asked_by call s.now) m.old m.new result }
{
    let mut host = replay_host::host_buffer();
    let count = replay_host::lend(call, s, &mut host);
    ask(card, line, request(call), m, &mut host[..count])
}
