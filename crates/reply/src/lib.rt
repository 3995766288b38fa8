// A control message that is taken, and its completion (01, "Completing", "Control messages"): the status,
// or more, into the reply's ranges, then the used entry.
#![tactic(auto)]

ghost use Rattle.std.specs.Prelude.{◌≡◌};
ghost use Rattle.ranges.specs.Ranges.{ranges_of, places, put_at};
ghost use Rattle.ring.specs.Rules.{completion};
ghost use Rattle.rules.specs.Control.{status};
ghost use Rattle.reply.specs.Reply.{completion_of, closed_of, outcome, completed_with};

use card::Parts;
use counts::{DescriptorNumber, PageNumber};
use ranges::Ranges;
use ring::Posted;

// What the completion of a control message needs: the queue's page, how many were completed before, the
// message's head and its writable side.
#[derive(Clone, Copy)]
pub struct Pending {
    pub page: PageNumber,
    pub completed: u16,
    pub head: DescriptorNumber,
    pub reply: Ranges,
}

// What a request comes to: its message is completed, or a stream is to be released first.
#[derive(Clone, Copy)]
pub enum Kind {
    Completed(Posted),
    Release(u32),
}

// The parts after a request; at a Release nothing is changed or written yet.
#[derive(Clone, Copy)]
pub struct Served {
    pub parts: Parts,
    pub kind: Kind,
}

// The used entry of a message whose reply is written, `len` bytes long.
pub fn close(m: &mut [u8], pending: Pending, len: u32) -> Posted
    ensures { completion m.new result ≡ closed_of pending len m.old }
{
    let size = registers::queue_size(registers::CONTROL_QUEUE);
    ring::post(m, pending.page, size, pending.completed, pending.head, len)
}

// A status in the first four bytes of a reply.
pub fn write_status(m: &mut [u8], list: &[u64], reply: Ranges, code: u32)
    ensures { m.new ≡ put_at m.old (places (ranges_of list.now reply)) (status code) }
{
    ranges::scatter(m, list, reply, 0, &code.to_le_bytes(), 0, 4);
}

// A message completed with a reply of four bytes.
pub fn complete(m: &mut [u8], list: &[u64], pending: Pending, code: u32) -> Posted
    ensures { completion m.new result ≡ completion_of list.now pending (status code) m.old }
{
    write_status(m, list, pending.reply, code);
    close(m, pending, 4)
}

// A request answered with a status; these are the parts after it.
pub fn answer(m: &mut [u8], list: &[u64], parts: Parts, pending: Pending, code: u32) -> Served
    ensures { outcome m.new result ≡ completed_with list.now pending parts (status code) m.old }
{
    let posted = complete(m, list, pending, code);
    Served {
        parts,
        kind: Kind::Completed(posted),
    }
}
