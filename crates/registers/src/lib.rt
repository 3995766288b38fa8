// The register file of the legacy transport (002, 1.3 to 2.1): a struct with methods by value that
// hand the next state back. What a write means for the rest of the card is told as an effect.
#![tactic(auto)]

ghost use Rattle.std.specs.Prelude.{◌≡◌, ◌+◌, ◌*◌, ◌/◌, ◌%◌, ◌<◌, get_or, set};
ghost use Rattle.registers.specs.Rules.{read_of, write_of, power_on, live, raised, signalled, broken};
ghost use Rattle.registers.specs.Rules.{refused_read, value_read, page_read, isr_read, config_bytes, config_value};
ghost use Rattle.registers.specs.Rules.{refused_write, wrote, fitting, wrote_features, wrote_page, wrote_selector, wrote_notify};
ghost use Rattle.registers.specs.Rules.{wrote_status};
ghost use Rattle.registers.specs.Rules.{has_bit, with_bit, only_offered, stored_status, indirect_negotiated};

use counts::PageNumber;
pub use register_map::{
    CAPTURE_QUEUE, CONTROL_QUEUE, EVENT_QUEUE, PLAY_QUEUE, Register, queue_size, register_at,
};

mod answers;

pub use answers::{
    Answer, BAD_DESCRIPTION, DONE, EVENT_NOT_ALLOWED, HEAD_PAST_TABLE, LENGTH_DIFFERS,
    NO_EVENT_BUFFER, NO_QUEUE, NO_SUCH_ACCESS, NOT_LIVE, NOT_RUNNING, REGION_PAST_RAM,
    TOO_MANY_ENTRIES, VALUE_TOO_WIDE, WRONG_DIRECTION, plain,
};

// VIRTIO_RING_F_INDIRECT_DESC, the one feature that is offered.
pub const HOST_FEATURES: u32 = 268435456;

// What the guest sees and sets. `pages` holds the base of each queue.
#[repr(C)]
#[derive(Clone, Copy)]
pub struct Registers {
    pub status: u8,
    pub isr: u8,
    pub selector: u16,
    pub features: u32,
    pub pages: [PageNumber; 4],
}

// The device's own configuration: how many jacks, streams and channel maps it has.
#[repr(C)]
#[derive(Clone, Copy)]
pub struct Config {
    pub jacks: u32,
    pub streams: u32,
    pub chmaps: u32,
}

// What a write asks of the rest of the card.
#[derive(Clone, Copy)]
pub enum Effect {
    Nothing,
    Reset,
    Based(u16),
    Rung(u16),
}

#[derive(Clone, Copy)]
pub struct Read {
    pub answer: u8,
    pub value: u32,
    pub registers: Registers,
}

#[derive(Clone, Copy)]
pub struct Written {
    pub answer: u8,
    pub effect: Effect,
    pub registers: Registers,
}

// Bit `i` of a register.
fn has_bit(x: u8, i: u32) -> bool
    requires { i < 8 }
    ensures { result ≡ has_bit x i }
{
    (x >> i) % 2 == 1
}

// STATUS with NEEDS_RESET set.
fn needs_reset(status: u8) -> u8
    ensures { result ≡ with_bit status 6 }
{
    if has_bit(status, 6) {
        status
    } else {
        status + 64
    }
}

// ISR with bit 1 set.
fn config_changed(isr: u8) -> u8
    ensures { result ≡ with_bit isr 1 }
{
    if has_bit(isr, 1) { isr } else { isr + 2 }
}

// Whether no feature was accepted that was not offered.
fn only_offered(features: u32) -> bool
    ensures { result ≡ only_offered features }
{
    features == 0 || features == HOST_FEATURES
}

// What a write of `v` makes of STATUS, where `good` says that only offered features were accepted.
#[tactic(auto, unfolding(crate::specs::Rules::stored_status))]
fn stored_status(old: u8, good: bool, v: u8) -> u8
    ensures { result ≡ stored_status old good v }
{
    let kept = v % 8 + old / 64 % 2 * 64 + v / 128 * 128;
    if good { kept + v / 8 % 2 * 8 } else { kept }
}

// The device's configuration as the guest sees it.
#[tactic(auto, unfolding(crate::specs::Rules::config_bytes))]
fn config_bytes(c: Config) -> [u8; 12]
    ensures { result ≡ config_bytes c }
{
    let mut bytes = [0u8; 12];
    memory::set(&mut bytes, 0, c.jacks);
    memory::set(&mut bytes, 4, c.streams);
    memory::set(&mut bytes, 8, c.chmaps);
    bytes
}

// `width` bytes of it at `at`.
#[tactic(auto, unfolding(crate::specs::Rules::config_value))]
fn config_value(c: Config, at: usize, width: u64) -> u32
    ensures { result ≡ config_value c at width }
{
    let bytes = config_bytes(c);
    match width {
        1 => memory::number::<u8>(&bytes, at) as u32,
        2 => memory::number::<u16>(&bytes, at) as u32,
        _ => memory::number(&bytes, at),
    }
}

fn refused_read(r: Registers, answer: u8) -> Read
    ensures { result ≡ refused_read r answer }
{
    Read {
        answer,
        value: 0,
        registers: r,
    }
}

fn value_read(r: Registers, value: u32) -> Read
    ensures { result ≡ value_read r value }
{
    Read {
        answer: DONE,
        value,
        registers: r,
    }
}

fn refused_write(r: Registers, answer: u8) -> Written
    ensures { result ≡ refused_write r answer }
{
    Written {
        answer,
        effect: Effect::Nothing,
        registers: r,
    }
}

fn wrote_with(r: Registers, effect: Effect) -> Written
    ensures { result ≡ wrote r effect }
{
    Written {
        answer: DONE,
        effect,
        registers: r,
    }
}

// The page of a queue, by its number: no index that is not known, so that the pages can stand in machine registers.
fn page_of(pages: [PageNumber; 4], queue: u16) -> PageNumber
    requires { queue < 4 }
    ensures { result ≡ get_or pages queue (record { 0 = 0 }) }
{
    match queue {
        CONTROL_QUEUE => pages[0],
        EVENT_QUEUE => pages[1],
        PLAY_QUEUE => pages[2],
        _ => pages[3],
    }
}

// The pages with another one of a queue.
fn with_page(pages: [PageNumber; 4], queue: u16, page: PageNumber) -> [PageNumber; 4]
    requires { queue < 4 }
    ensures { result ≡ set pages queue page }
{
    let mut next = pages;
    match queue {
        CONTROL_QUEUE => next[0] = page,
        EVENT_QUEUE => next[1] = page,
        PLAY_QUEUE => next[2] = page,
        _ => next[3] = page,
    }
    next
}

impl Registers {
    // The file at power-up and after a reset.
    pub fn power_on() -> Registers
        ensures { result ≡ power_on }
    {
        Registers {
            status: 0,
            isr: 0,
            selector: 0,
            features: 0,
            pages: [PageNumber::of(0); 4],
        }
    }

    // Whether the driver may use the queues.
    #[tactic(auto, unfolding(crate::specs::Rules::live))]
    pub fn is_live(self) -> bool
        ensures { result ≡ live self }
    {
        has_bit(self.status, 2)
            && has_bit(self.status, 3)
            && !has_bit(self.status, 6)
            && !has_bit(self.status, 7)
    }

    // Whether the guest may name indirect tables: bit 28 of its features.
    pub fn indirect(self) -> bool
        ensures { result ≡ indirect_negotiated self }
    {
        self.features / HOST_FEATURES % 2 == 1
    }

    // Whether the interrupt line is raised.
    #[tactic(auto, unfolding(crate::specs::Rules::raised))]
    pub fn line(self) -> bool
        ensures { result ≡ raised self }
    {
        self.isr != 0
    }

    // ISR bit 0 set: a used entry was added.
    #[tactic(auto, unfolding(crate::specs::Rules::signalled))]
    pub fn signal(mut self) -> Registers
        ensures { result ≡ signalled self }
    {
        if self.isr % 2 == 0 {
            self.isr += 1;
        }
        self
    }

    // A queue is broken: NEEDS_RESET and ISR bit 1 set.
    #[tactic(auto, unfolding(crate::specs::Rules::broken))]
    pub fn break_down(mut self) -> Registers
        ensures { result ≡ broken self }
    {
        self.status = needs_reset(self.status);
        self.isr = config_changed(self.isr);
        self
    }

    // A read of `width` bytes at `offset`.
    #[tactic(auto, unfolding(crate::specs::Rules::read_of))]
    pub fn read(self, config: Config, offset: u64, width: u64) -> Read
        ensures { result ≡ read_of self config offset width }
    {
        match register_at(offset, width) {
            Register::HostFeatures => value_read(self, HOST_FEATURES),
            Register::GuestFeatures => refused_read(self, WRONG_DIRECTION),
            Register::QueuePfn => value_read(self, self.page()),
            Register::QueueNum => value_read(self, queue_size(self.selector) as u32),
            Register::QueueSel => value_read(self, self.selector as u32),
            Register::QueueNotify => refused_read(self, WRONG_DIRECTION),
            Register::Status => value_read(self, self.status as u32),
            Register::Isr => self.acknowledged(),
            Register::DeviceConfig(at) => value_read(self, config_value(config, at, width)),
            Register::Absent => refused_read(self, NO_SUCH_ACCESS),
        }
    }

    // The page of the queue selected.
    #[tactic(auto, unfolding(crate::specs::Rules::page_read))]
    fn page(self) -> u32
        ensures { result ≡ page_read self }
    {
        if self.selector < 4 {
            page_of(self.pages, self.selector).number()
        } else {
            0
        }
    }

    // ISR, which a read clears.
    #[tactic(auto, unfolding(crate::specs::Rules::isr_read))]
    fn acknowledged(mut self) -> Read
        ensures { result ≡ isr_read self }
    {
        let bits = self.isr as u32;
        self.isr = 0;
        value_read(self, bits)
    }

    // A write of `value`, `width` bytes wide, at `offset`.
    #[tactic(auto, unfolding(crate::specs::Rules::write_of))]
    pub fn write(self, offset: u64, width: u64, value: u64) -> Written
        ensures { result ≡ write_of self offset width value }
    {
        match register_at(offset, width) {
            Register::HostFeatures => refused_write(self, WRONG_DIRECTION),
            Register::GuestFeatures => self.write_features(value),
            Register::QueuePfn => self.write_page(value),
            Register::QueueNum => refused_write(self, WRONG_DIRECTION),
            Register::QueueSel => self.write_selector(value),
            Register::QueueNotify => self.notify(value),
            Register::Status => self.write_status(value),
            Register::Isr => refused_write(self, WRONG_DIRECTION),
            Register::DeviceConfig(_) => refused_write(self, WRONG_DIRECTION),
            Register::Absent => refused_write(self, NO_SUCH_ACCESS),
        }
    }

    #[tactic(auto, unfolding(crate::specs::Rules::wrote_features))]
    fn write_features(mut self, value: u64) -> Written
        ensures { result ≡ fitting self 4 value (wrote_features self value) }
    {
        let Ok(features) = u32::try_from(value) else {
            return refused_write(self, VALUE_TOO_WIDE);
        };
        if !has_bit(self.status, 3) {
            self.features = features;
        }
        wrote_with(self, Effect::Nothing)
    }

    #[tactic(auto, unfolding(crate::specs::Rules::wrote_page))]
    fn write_page(mut self, value: u64) -> Written
        ensures { result ≡ fitting self 4 value (wrote_page self value) }
    {
        let Ok(page) = u32::try_from(value) else {
            return refused_write(self, VALUE_TOO_WIDE);
        };
        let queue = self.selector;
        if 4 <= queue || has_bit(self.status, 2) {
            return wrote_with(self, Effect::Nothing);
        }
        self.pages = with_page(self.pages, queue, PageNumber::of(page));
        wrote_with(self, Effect::Based(queue))
    }

    #[tactic(auto, unfolding(crate::specs::Rules::wrote_selector))]
    fn write_selector(mut self, value: u64) -> Written
        ensures { result ≡ fitting self 2 value (wrote_selector self value) }
    {
        let Ok(selector) = u16::try_from(value) else {
            return refused_write(self, VALUE_TOO_WIDE);
        };
        self.selector = selector;
        wrote_with(self, Effect::Nothing)
    }

    #[tactic(auto, unfolding(crate::specs::Rules::wrote_notify))]
    fn notify(self, value: u64) -> Written
        ensures { result ≡ fitting self 2 value (wrote_notify self value) }
    {
        let Ok(queue) = u16::try_from(value) else {
            return refused_write(self, VALUE_TOO_WIDE);
        };
        let effect = if queue < 4 {
            Effect::Rung(queue)
        } else {
            Effect::Nothing
        };
        wrote_with(self, effect)
    }

    #[tactic(auto, unfolding(crate::specs::Rules::wrote_status))]
    fn write_status(mut self, value: u64) -> Written
        ensures { result ≡ fitting self 1 value (wrote_status self value) }
    {
        let Ok(status) = u8::try_from(value) else {
            return refused_write(self, VALUE_TOO_WIDE);
        };
        if status == 0 {
            return wrote_with(Registers::power_on(), Effect::Reset);
        }
        self.status = stored_status(self.status, only_offered(self.features), status);
        wrote_with(self, Effect::Nothing)
    }
}
