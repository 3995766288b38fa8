// Document 01 as definitions (specs/) and what is proved of them (proofs/). The code of the calls is in the crates above; here stand
// the numbers of the texts (001, Device Operation; VIRTIO 1.2, Sound Device) for it, as specs/Numbers has them for the rules, and what
// a control request can ask, for both.
#![tactic(auto)]

ghost use Rattle.std.specs.Prelude.{◌≡◌};
ghost use Rattle.device.specs.Answers.{broken_answer};

use registers::Answer;
use ring::Cause;

// Control requests.
pub const JACK_INFO: u32 = 1;

pub const JACK_REMAP: u32 = 2;

pub const PCM_INFO: u32 = 256;

pub const PCM_SET_PARAMS: u32 = 257;

pub const PCM_PREPARE: u32 = 258;

pub const PCM_RELEASE: u32 = 259;

pub const PCM_START: u32 = 260;

pub const PCM_STOP: u32 = 261;

pub const CHMAP_INFO: u32 = 512;

// Statuses of control requests and of I/O messages.
pub const OK: u32 = 32768;

pub const BAD_MSG: u32 = 32769;

pub const NOT_SUPP: u32 = 32770;

pub const IO_ERR: u32 = 32771;

// Events.
pub const JACK_CONNECTED: u32 = 4096;

pub const JACK_DISCONNECTED: u32 = 4097;

pub const PCM_XRUN: u32 = 4353;

// The answer of a call whose queue is broken: the cause's number, and the queue (order 6).
pub fn broken_answer(queue: u8, cause: Cause) -> Answer
    ensures { result ≡ broken_answer queue cause }
{
    let number = match cause {
        Cause::Region => registers::REGION_PAST_RAM,
        Cause::Entries => registers::TOO_MANY_ENTRIES,
        Cause::Head => registers::HEAD_PAST_TABLE,
    };
    Answer { number, queue }
}

// What a request for information lists.
#[derive(Clone, Copy)]
pub enum Listing {
    Jacks,
    Streams,
    Maps,
}

// The commands of a stream, in the order of its lifecycle (000, PCM Command Lifecycle).
#[derive(Clone, Copy)]
pub enum Command {
    SetParams,
    Prepare,
    Start,
    Stop,
    Release,
}

// What a request asks.
#[derive(Clone, Copy)]
pub enum Asked {
    Information(Listing),
    Remap,
    Pcm(Command),
}
