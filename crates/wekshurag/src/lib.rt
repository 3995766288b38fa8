// The card for a monitor in C: the card's entries, over pieces of a card that the monitor keeps and lends
// (`live`). The header is include/wekshurag.h, whose functions only pass the pieces' addresses; C links them from the
// archive of `wekshurag_c`. An entry copies the struct out of its borrow, calls the entry of the card that it is named
// after, and stores the next; its contract is that entry's, whole.
#![tactic(auto)]

ghost use Rattle.std.specs.Prelude.{◌≡◌};
ghost use Rattle.live.specs.Live.{read_live, write_live, powered_board, FitLive, FitBoard};
ghost use Rattle.meaning.specs.Fit.{Fits, Ready};
ghost use Rattle.message.specs.declared.Direction.{Direction};
ghost use Rattle.entries.specs.Entries.{ControlsOn, EventsOn};
ghost use Rattle.pcm.specs.Entry.{TransfersOn};
ghost use Rattle.registers.specs.Rules.{raised};
ghost use Rattle.stream.specs.Queue.{FitOwn};
ghost use Rattle.wekshurag.specs.Told.{told, told_board};

use description::Description;
use live::{Board, Live};

// What a register read answers.
#[repr(C)]
#[derive(Clone, Copy)]
pub struct ReadResult {
    pub answer: u8,
    pub value: u32,
}

// What a register write answers: the queue rung, or 255.
#[repr(C)]
#[derive(Clone, Copy)]
pub struct WriteResult {
    pub answer: u8,
    pub rung: u8,
}

// What a call on a queue answers: the queue is the one that broke, or 255; the count is that of control
// messages completed, or of bytes.
#[repr(C)]
#[derive(Clone, Copy)]
pub struct CallResult {
    pub answer: u8,
    pub queue: u8,
    pub count: usize,
}

// Power-up: the card with `ram_len` bytes of memory; beside answer 10, one with no part. The words of its queues
// may hold anything.
pub fn wekshurag_card_power_up(board: &mut Board, description: &Description, ram_len: usize) -> u8
    ensures { (record { answer = result; board = board.new } ≡ powered_board description.now ram_len)
        × Ready board.new }
{
    let described = *description;
    let powered = live::power_up(described, ram_len);
    *board = powered.board;
    powered.answer
}

// Whether the interrupt line is raised.
pub fn wekshurag_card_interrupt_line(live: &Live) -> bool
    ensures { result ≡ raised live.now.registers }
{
    let before = *live;
    live::line(before)
}

// A read of `width` bytes of the registers at `offset`.
pub fn wekshurag_card_read(live: &mut Live, offset: u64, width: u64) -> ReadResult
    requires { FitLive live.old }
    ensures { (record { answer = result.answer; value = result.value; live = live.new } ≡ read_live live.old offset width)
        × FitLive live.new }
{
    let before = *live;
    let after = live::read(before, offset, width);
    *live = after.live;
    ReadResult {
        answer: after.answer,
        value: after.value,
    }
}

// A write of `value`, `width` bytes wide, to the registers at `offset`.
pub fn wekshurag_card_write(live: &mut Live, offset: u64, width: u64, value: u64) -> WriteResult
    requires { FitLive live.old }
    ensures { (record { answer = result.answer; rung = result.rung; live = live.new }
        ≡ write_live live.old offset width value)
        × FitLive live.new }
{
    let before = *live;
    let after = live::write(before, offset, width, value);
    *live = after.live;
    WriteResult {
        answer: after.answer,
        rung: after.rung,
    }
}

// The control call: one message of the control queue.
pub fn wekshurag_card_control(
    board: &mut Board,
    play_words: &mut [u64],
    capture_words: &mut [u64],
    ram: &mut [u8],
) -> CallResult
    requires { Fits board.old.live board.old.parts play_words.old capture_words.old }
    ensures { ControlsOn board.old play_words.old capture_words.old ram.old
        play_words.new capture_words.new ram.new (told_board result board.new) }
{
    let before = *board;
    let after = entries::control(before, play_words, capture_words, ram);
    *board = after.board;
    CallResult {
        answer: after.answer,
        queue: after.queue,
        count: after.count,
    }
}

// The play call: payload of a stream of the play queue handed to the host buffer. The backlog is the host's, in bytes.
pub fn wekshurag_card_play(
    live: &mut Live,
    words: &mut [u64],
    ram: &mut [u8],
    host: &mut [u8],
    stream: u32,
    backlog: u32,
) -> CallResult
    requires { FitOwn Direction.Output live.old words.old }
    ensures { TransfersOn Direction.Output stream backlog live.old
        words.old ram.old host.old
        words.new ram.new host.new (told result live.new) }
{
    let before = *live;
    let after = entries::play(before, words, ram, host, stream, backlog);
    *live = after.live;
    CallResult {
        answer: after.answer,
        queue: after.queue,
        count: after.count,
    }
}

// The capture call: host bytes recorded into the payload of a stream of the capture queue. They are only read.
pub fn wekshurag_card_capture(
    live: &mut Live,
    words: &mut [u64],
    ram: &mut [u8],
    host: &mut [u8],
    stream: u32,
    backlog: u32,
) -> CallResult
    requires { FitOwn Direction.Input live.old words.old }
    ensures { TransfersOn Direction.Input stream backlog live.old
        words.old ram.old host.old
        words.new ram.new host.new (told result live.new) × (host.new ≡ host.old) }
{
    let before = *live;
    let after = entries::capture(before, words, ram, host, stream, backlog);
    *live = after.live;
    CallResult {
        answer: after.answer,
        queue: after.queue,
        count: after.count,
    }
}

// The event call: the guest is told of an event with this code and data. It counts 0.
pub fn wekshurag_card_event(board: &mut Board, ram: &mut [u8], code: u32, data: u32) -> CallResult
    requires { FitBoard board.old.live board.old.parts }
    ensures { EventsOn board.old code «data» ram.old ram.new (told_board result board.new) }
{
    let before = *board;
    let after = entries::event(before, ram, code, data);
    *board = after.board;
    CallResult {
        answer: after.answer,
        queue: after.queue,
        count: after.count,
    }
}
