// What the programs read and write, as far as a contract can name it: a read that fails counts as the input's end, and a write that fails
// is told of. Any reader and writer will do: standard input and output, a file, bytes in memory.
#![tactic(auto)]

ghost use Rattle.std.specs.Prelude.{◌≡◌, take, true, decimal};
ghost use Rattle.std.specs.Io.KnownBytes.{Appends, Consumes};
ghost use Rattle.io.specs.Counts.{IsPrefixLen};

use std::io::{Read, Write};

// One read, into the start of `block`, and how many bytes it gave: none at the end of the input, or where it failed.
pub fn read_some<R: Read>(input: &mut R, block: &mut [u8]) -> usize
    ensures prefix_len { IsPrefixLen result block.new }
    ensures bytes { Consumes (R.remaining input.old) (R.remaining input.new) (take result block.new) }
{
    input.read(block).unwrap_or(0)
}

// Reads until `block` is full, the input ends or a read fails, and how many bytes were put at its start.
pub fn read_full<R: Read>(input: &mut R, block: &mut [u8]) -> usize
    ensures prefix_len { IsPrefixLen result block.new }
    ensures bytes { Consumes (R.remaining input.old) (R.remaining input.new) (take result block.new) }
{
    let mut done = 0;
    while done < block.len() {
        let count = read_some(input, &mut block[done..]);
        if count == 0 {
            break;
        }
        done += count;
    }
    done
}

// Writes all bytes of `s`, and whether that went well; where it did not, some of them may have been written.
pub fn write_all<W: Write>(output: &mut W, s: &[u8]) -> bool
    ensures { result ≡ true → Appends (W.contents output.old) (W.contents output.new) s.now }
{
    output.write_all(s).is_ok()
}

// Writes `n` in decimal, and whether that went well.
pub fn write_number<W: Write>(output: &mut W, n: u64) -> bool
    ensures { result ≡ true → Appends (W.contents output.old) (W.contents output.new) (decimal n) }
{
    write!(output, "{n}").is_ok()
}
