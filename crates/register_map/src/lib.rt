// The map of the legacy transport's registers (002, 1.3): which one an access reaches, and the sizes
// of the queues.
#![tactic(auto)]

ghost use Rattle.std.specs.Prelude.{◌≡◌, ◌+◌, ◌&&◌, leb};
ghost use Rattle.register_map.specs.Map.{register_at, exactly, config_at, size_of};

// The queues' numbers (002, 3.4.2).
pub const CONTROL_QUEUE: u16 = 0;

pub const EVENT_QUEUE: u16 = 1;

pub const PLAY_QUEUE: u16 = 2;

pub const CAPTURE_QUEUE: u16 = 3;

// What an access reaches.
#[derive(Clone, Copy)]
pub enum Register {
    HostFeatures,
    GuestFeatures,
    QueuePfn,
    QueueNum,
    QueueSel,
    QueueNotify,
    Status,
    Isr,
    DeviceConfig(usize),
    Absent,
}

// The register that an access of `width` bytes at `offset` reaches.
#[tactic(auto, unfolding(crate::specs::Map::register_at))]
pub fn register_at(offset: u64, width: u64) -> Register
    ensures { result ≡ register_at offset width }
{
    match offset {
        0 => exact(width, 4, Register::HostFeatures),
        4 => exact(width, 4, Register::GuestFeatures),
        8 => exact(width, 4, Register::QueuePfn),
        12 => exact(width, 2, Register::QueueNum),
        14 => exact(width, 2, Register::QueueSel),
        16 => exact(width, 2, Register::QueueNotify),
        18 => exact(width, 1, Register::Status),
        19 => exact(width, 1, Register::Isr),
        _ => config_at(offset, width),
    }
}

// A register is there for an access of exactly its width.
fn exact(width: u64, size: u64, register: Register) -> Register
    ensures { result ≡ exactly width size register }
{
    if width == size {
        register
    } else {
        Register::Absent
    }
}

// The device's configuration takes 1, 2 or 4 bytes wholly inside 0x14 to 0xff.
#[tactic(auto, unfolding(crate::specs::Map::config_at))]
fn config_at(offset: u64, width: u64) -> Register
    ensures { result ≡ config_at offset width }
{
    if is_inside(offset, width) && (width == 1 || width == 2 || width == 4) {
        Register::DeviceConfig((offset - 20) as usize)
    } else {
        Register::Absent
    }
}

// Whether an access lies wholly inside 0x14 to 0xff; no sum of offset and width is formed.
fn is_inside(offset: u64, width: u64) -> bool
    ensures { result ≡ (leb 20 offset && leb (offset + width) 256) }
{
    20 <= offset && offset <= 256 && width <= 256 - offset
}

// How many descriptors a queue has; none for a number that no queue has.
#[tactic(auto, unfolding(crate::specs::Map::size_of))]
pub fn queue_size(queue: u16) -> u16
    ensures { result ≡ size_of queue }
{
    match queue {
        CONTROL_QUEUE => 64,
        EVENT_QUEUE => 64,
        PLAY_QUEUE => 256,
        CAPTURE_QUEUE => 64,
        _ => 0,
    }
}
