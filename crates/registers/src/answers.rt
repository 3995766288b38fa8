// The monitor's answers, as 01 and order 6 number them.
ghost use Rattle.std.specs.Prelude.{◌≡◌};
ghost use Rattle.registers.specs.Answers.{plain};

pub const DONE: u8 = 0;

pub const LENGTH_DIFFERS: u8 = 1;

pub const NO_SUCH_ACCESS: u8 = 2;

pub const WRONG_DIRECTION: u8 = 3;

pub const VALUE_TOO_WIDE: u8 = 4;

pub const NOT_LIVE: u8 = 5;

pub const NOT_RUNNING: u8 = 6;

pub const EVENT_NOT_ALLOWED: u8 = 7;

pub const NO_EVENT_BUFFER: u8 = 8;

pub const BAD_DESCRIPTION: u8 = 10;

// How a queue broke (order 6).
pub const REGION_PAST_RAM: u8 = 9;

pub const TOO_MANY_ENTRIES: u8 = 11;

pub const HEAD_PAST_TABLE: u8 = 12;

// The queue that an answer names where it names none.
pub const NO_QUEUE: u8 = 255;

// An answer: its number, and the queue that broke.
#[repr(C)]
#[derive(Clone, Copy)]
pub struct Answer {
    pub number: u8,
    pub queue: u8,
}

// An answer that names no queue.
pub fn plain(number: u8) -> Answer
    ensures { result ≡ plain number }
{
    Answer {
        number,
        queue: NO_QUEUE,
    }
}
