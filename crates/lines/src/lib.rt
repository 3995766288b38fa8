// The lines of a text: where a line ends, and where the next one starts.
#![tactic(auto)]

ghost use Rattle.std.specs.Prelude.{◌≡◌, ◌+◌, length, drop};
ghost use Rattle.lines.specs.Lines.{span_of, behind_of};

// The place of the first `byte` from `at` on, or the end.
pub fn find(s: &[u8], at: usize, byte: u8) -> usize
    ensures { result ≡ at + span_of byte (drop at s.now) }
{
    for i in at..s.len() {
        if s[i] == byte {
            return i;
        }
    }
    at.max(s.len())
}

// The place of the first line feed from `at` on, or the end.
pub fn line_end(s: &[u8], at: usize) -> usize
    ensures { result ≡ at + span_of 10 (drop at s.now) }
{
    find(s, at, b'\n')
}

// The place behind a line that ends at `end`: past its line feed, or the end.
pub fn behind(s: &[u8], end: usize) -> usize
    ensures { result ≡ behind_of (length s.now) end }
{
    if end < s.len() { end + 1 } else { s.len() }
}
