// The marks of a stream on its queue (order 8), in eleven lent words: its message in work and where its line stands.
// Nothing else knows the places.
#![tactic(auto)]

ghost use Rattle.std.specs.Prelude.{◌≡◌, length};
ghost use Rattle.marks.specs.Marks.{message_in, line_in};

use card::Message;
use counts::DescriptorNumber;
use ranges::Ranges;
use waiting::Line;

// How many words they take.
pub const WORDS: usize = 11;

// The message in work.
#[tactic(auto, unfolding(crate::specs::Marks::message_in))]
pub fn message(w: &[u64]) -> Message
    requires { length w.now ≡ 11 }
    ensures { result ≡ message_in w.now }
{
    Message {
        count: (w[0] % 65536) as u16,
        head: DescriptorNumber::of((w[1] % 65536) as u16),
        done: (w[2] % 4294967296) as u32,
        request: Ranges {
            first: (w[3] % 4294967296) as u32,
            count: (w[4] % 4294967296) as u32,
            bytes: (w[5] % 4294967296) as u32,
        },
        reply: Ranges {
            first: (w[6] % 4294967296) as u32,
            count: (w[7] % 4294967296) as u32,
            bytes: (w[8] % 4294967296) as u32,
        },
    }
}

// Another message in work; the line stays.
pub fn store(w: &mut [u64], m: Message)
    requires { length w.old ≡ 11 }
    ensures { (message_in w.new ≡ m) × (line_in w.new ≡ line_in w.old) }
{
    w[0] = m.count as u64;
    w[1] = m.head.number() as u64;
    w[2] = m.done as u64;
    w[3] = m.request.first as u64;
    w[4] = m.request.count as u64;
    w[5] = m.request.bytes as u64;
    w[6] = m.reply.first as u64;
    w[7] = m.reply.count as u64;
    w[8] = m.reply.bytes as u64;
}

// The line.
#[tactic(auto, unfolding(crate::specs::Marks::line_in))]
pub fn line(w: &[u64]) -> Line
    requires { length w.now ≡ 11 }
    ensures { result ≡ line_in w.now }
{
    Line {
        start: (w[9] % 65536) as u16,
        count: (w[10] % 65536) as u16,
    }
}

// Another line; the message stays.
pub fn store_line(w: &mut [u64], line: Line)
    requires { length w.old ≡ 11 }
    ensures { (line_in w.new ≡ line) × (message_in w.new ≡ message_in w.old) }
{
    w[9] = line.start as u64;
    w[10] = line.count as u64;
}
