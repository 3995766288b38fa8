// What a monitor in C links: each function of the card's (`wekshurag`) under its own name, in an archive. A crate is a
// library for Rattle crates or an archive for C, not both. Each contract is that of the function that is called, whole.
#![tactic(auto)]

ghost use Rattle.std.specs.Prelude.{◌≡◌};
ghost use Rattle.live.specs.Live.{read_live, write_live, powered_board, FitLive, FitBoard};
ghost use Rattle.meaning.specs.Fit.{Fits, Ready};
ghost use Rattle.message.specs.declared.Direction.{Direction};
ghost use Rattle.entries.specs.Entries.{ControlsOn, EventsOn};
ghost use Rattle.pcm.specs.Entry.{TransfersOn};
ghost use Rattle.registers.specs.Rules.{raised};
ghost use Rattle.stream.specs.Queue.{FitOwn};
ghost use Rattle.wekshurag.specs.Told.{told, told_board};

use description::Description;
use live::{Board, Live};
use wekshurag::{CallResult, ReadResult, WriteResult};

// Power-up: the card with `ram_len` bytes of memory; beside answer 10, one with no part. The words of its queues
// may hold anything.
#[unsafe(no_mangle)]
pub extern "C" fn wekshurag_card_power_up(
    board: &mut Board,
    description: &Description,
    ram_len: usize,
) -> u8
    ensures { (record { answer = result; board = board.new } ≡ powered_board description.now ram_len)
        × Ready board.new }
{
    wekshurag::wekshurag_card_power_up(board, description, ram_len)
}

// Whether the interrupt line is raised.
#[unsafe(no_mangle)]
pub extern "C" fn wekshurag_card_interrupt_line(live: &Live) -> bool
    ensures { result ≡ raised live.now.registers }
{
    wekshurag::wekshurag_card_interrupt_line(live)
}

// A read of `width` bytes of the registers at `offset`.
#[unsafe(no_mangle)]
pub extern "C" fn wekshurag_card_read(live: &mut Live, offset: u64, width: u64) -> ReadResult
    requires { FitLive live.old }
    ensures { (record { answer = result.answer; value = result.value; live = live.new } ≡ read_live live.old offset width)
        × FitLive live.new }
{
    wekshurag::wekshurag_card_read(live, offset, width)
}

// A write of `value`, `width` bytes wide, to the registers at `offset`.
#[unsafe(no_mangle)]
pub extern "C" fn wekshurag_card_write(
    live: &mut Live,
    offset: u64,
    width: u64,
    value: u64,
) -> WriteResult
    requires { FitLive live.old }
    ensures { (record { answer = result.answer; rung = result.rung; live = live.new }
        ≡ write_live live.old offset width value)
        × FitLive live.new }
{
    wekshurag::wekshurag_card_write(live, offset, width, value)
}

// The control call: one message of the control queue.
#[unsafe(no_mangle)]
pub extern "C" fn wekshurag_card_control(
    board: &mut Board,
    play_words: &mut [u64],
    capture_words: &mut [u64],
    ram: &mut [u8],
) -> CallResult
    requires { Fits board.old.live board.old.parts play_words.old capture_words.old }
    ensures { ControlsOn board.old play_words.old capture_words.old ram.old
        play_words.new capture_words.new ram.new (told_board result board.new) }
{
    wekshurag::wekshurag_card_control(board, play_words, capture_words, ram)
}

// The play call: payload of a stream of the play queue handed to the host buffer. The backlog is the host's, in bytes.
#[unsafe(no_mangle)]
pub extern "C" fn wekshurag_card_play(
    live: &mut Live,
    words: &mut [u64],
    ram: &mut [u8],
    host: &mut [u8],
    stream: u32,
    backlog: u32,
) -> CallResult
    requires { FitOwn Direction.Output live.old words.old }
    ensures { TransfersOn Direction.Output stream backlog live.old
        words.old ram.old host.old
        words.new ram.new host.new (told result live.new) }
{
    wekshurag::wekshurag_card_play(live, words, ram, host, stream, backlog)
}

// The capture call: host bytes recorded into the payload of a stream of the capture queue. They are only read.
#[unsafe(no_mangle)]
pub extern "C" fn wekshurag_card_capture(
    live: &mut Live,
    words: &mut [u64],
    ram: &mut [u8],
    host: &mut [u8],
    stream: u32,
    backlog: u32,
) -> CallResult
    requires { FitOwn Direction.Input live.old words.old }
    ensures { TransfersOn Direction.Input stream backlog live.old
        words.old ram.old host.old
        words.new ram.new host.new (told result live.new) × (host.new ≡ host.old) }
{
    wekshurag::wekshurag_card_capture(live, words, ram, host, stream, backlog)
}

// The event call: the guest is told of an event with this code and data. It counts 0.
#[unsafe(no_mangle)]
pub extern "C" fn wekshurag_card_event(
    board: &mut Board,
    ram: &mut [u8],
    code: u32,
    data: u32,
) -> CallResult
    requires { FitBoard board.old.live board.old.parts }
    ensures { EventsOn board.old code «data» ram.old ram.new (told_board result board.new) }
{
    wekshurag::wekshurag_card_event(board, ram, code, data)
}
