// The line of a stream's waiting messages (order 8: "Taken messages wait in a line per stream"): their heads in a
// ring of lent places. Nothing is moved when a message joins or leaves.
#![tactic(auto)]

ghost use Rattle.std.specs.Prelude.{◌≡◌, [], ◌∷◌, ◌++◌, ◌≤◌, ◌<◌, length, drop, get_or};
ghost use Rattle.waiting.specs.Waiting.{heads_in, FitLine, place_behind};

use counts::DescriptorNumber;

// Where the front stands in the ring, and how many wait.
#[repr(C)]
#[derive(Clone, Copy)]
pub struct Line {
    pub start: u16,
    pub count: u16,
}

// The place so many behind another in a ring of `size` places.
fn place_behind(size: usize, start: u16, n: u16) -> usize
    requires { (start < size) × (n ≤ size) }
    ensures { (result ≡ place_behind size start n) × (result < size) }
{
    let at = start as usize + n as usize;
    if at < size { at } else { at - size }
}

impl Line {
    // No message waits.
    pub fn empty() -> Line
        ensures { result ≡ record { start = 0; count = 0 } }
    {
        Line { start: 0, count: 0 }
    }

    // The head at the front, where somebody waits.
    pub fn front(self, ring: &[u64]) -> DescriptorNumber
        requires { FitLine (length ring.now) self }
        ensures { 0 < self.count → heads_in ring.now self ≡ result.0 ∷ drop 1 (heads_in ring.now self) }
    {
        DescriptorNumber::of((ring[self.start as usize] % 65536) as u16)
    }

    // A message more at the end, where the line is not full.
    pub fn join(self, ring: &mut [u64], head: DescriptorNumber) -> Line
        requires { FitLine (length ring.old) self × (self.count < length ring.old) }
        ensures { (heads_in ring.new result ≡ heads_in ring.old self ++ head.0 ∷ [])
            × FitLine (length ring.new) result }
    {
        let at = place_behind(ring.len(), self.start, self.count);
        ring[at] = head.number() as u64;
        Line {
            count: self.count + 1,
            ..self
        }
    }

    // The line without its front; of an empty line nobody leaves.
    pub fn leave(self, ring: &[u64]) -> Line
        requires { FitLine (length ring.now) self }
        ensures { (heads_in ring.now result ≡ drop 1 (heads_in ring.now self))
            × FitLine (length ring.now) result }
    {
        if self.count == 0 {
            return self;
        }
        Line {
            start: place_behind(ring.len(), self.start, 1) as u16,
            count: self.count - 1,
        }
    }
}
