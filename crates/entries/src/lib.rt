// The calls on queues as C takes them: an answer's number and queue side by side, so that every field of what a call
// answers is a number.
#![tactic(auto)]

ghost use Rattle.std.specs.Prelude.{◌≡◌};
ghost use Rattle.live.specs.Live.{FitBoard};
ghost use Rattle.meaning.specs.Fit.{Fits};
ghost use Rattle.message.specs.declared.Direction.{Direction};
ghost use Rattle.pcm.specs.Entry.{TransfersOn};
ghost use Rattle.stream.specs.Queue.{FitOwn};
ghost use Rattle.entries.specs.Entries.{transfer_in, ControlsOn, EventsOn};

use live::{Board, Live};

// What a transfer answers; `queue` is the one that broke, or 255.
#[repr(C)]
#[derive(Clone, Copy)]
pub struct LiveAnswer {
    pub answer: u8,
    pub queue: u8,
    pub count: usize,
    pub live: Live,
}

// What a call that may change the parts answers.
#[repr(C)]
#[derive(Clone, Copy)]
pub struct BoardAnswer {
    pub answer: u8,
    pub queue: u8,
    pub count: usize,
    pub board: Board,
}

// The play call.
pub fn play(
    live: Live,
    words: &mut [u64],
    m: &mut [u8],
    host: &mut [u8],
    stream: u32,
    backlog: u32,
) -> LiveAnswer
    requires { FitOwn Direction.Output live words.old }
    ensures { TransfersOn Direction.Output stream backlog live words.old m.old host.old
        words.new m.new host.new (transfer_in result) }
{
    let told = pcm::play(live, words, m, host, stream, backlog);
    let answer = told.answer;
    let after = told.live;
    LiveAnswer {
        answer: answer.number,
        queue: answer.queue,
        count: told.count,
        live: after,
    }
}

// The capture call. The host buffer is only read.
pub fn capture(
    live: Live,
    words: &mut [u64],
    m: &mut [u8],
    host: &mut [u8],
    stream: u32,
    backlog: u32,
) -> LiveAnswer
    requires { FitOwn Direction.Input live words.old }
    ensures { TransfersOn Direction.Input stream backlog live words.old m.old host.old
        words.new m.new host.new (transfer_in result) × (host.new ≡ host.old) }
{
    let told = pcm::capture(live, words, m, host, stream, backlog);
    let answer = told.answer;
    let after = told.live;
    LiveAnswer {
        answer: answer.number,
        queue: answer.queue,
        count: told.count,
        live: after,
    }
}

// The control call.
pub fn control(
    board: Board,
    play_words: &mut [u64],
    capture_words: &mut [u64],
    m: &mut [u8],
) -> BoardAnswer
    requires { Fits board.live board.parts play_words.old capture_words.old }
    ensures { ControlsOn board play_words.old capture_words.old m.old
        play_words.new capture_words.new m.new result }
{
    let live = board.live;
    let parts = board.parts;
    let told = controlq::control(live, parts, play_words, capture_words, m);
    let answer = told.answer;
    let live_after = told.live;
    let parts_after = told.parts;
    BoardAnswer {
        answer: answer.number,
        queue: answer.queue,
        count: told.count,
        board: Board {
            live: live_after,
            parts: parts_after,
        },
    }
}

// The event call.
pub fn event(board: Board, m: &mut [u8], code: u32, data: u32) -> BoardAnswer
    requires { FitBoard board.live board.parts }
    ensures { EventsOn board code «data» m.old m.new result }
{
    let live = board.live;
    let parts = board.parts;
    let told = event::event(live, parts, m, code, data);
    let answer = told.answer;
    let live_after = told.live;
    let parts_after = told.parts;
    BoardAnswer {
        answer: answer.number,
        queue: answer.queue,
        count: 0,
        board: Board {
            live: live_after,
            parts: parts_after,
        },
    }
}
