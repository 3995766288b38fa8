// The program `convert FORMAT FROM TO`: the samples of a file, as S16, into another file, a block at a time.
#![tactic(auto)]

ghost use Rattle.std.specs.Prelude.{◌≡◌, ◌<◌, length, OnOk, IfOk};
ghost use Rattle.std.specs.Io.KnownBytes.{Appends};
ghost use Rattle.samples.specs.Formats.{coding};
ghost use Rattle.convert_run.specs.Blocks.{MadeBy};
ghost use Rattle.convert_run.specs.Reports.{report_of, line_of, length_answer, FormatFirst};

use files::Refusal;
use samples::Format;
use std::fs::File;
use std::io::{ErrorKind, Write};

// The bytes read at a time: whole samples of every format.
const BLOCK: usize = 49152;

// A number that was found, or why nothing was converted.
type Answer = Result<u64, Refusal<samples::Refusal>>;

// A block of samples, converted: answers how many bytes of `out` are to be written.
fn convert_block(format: Format, block: &[u8], out: &mut [u8]) -> Result<usize, samples::Refusal>
    ensures { MadeBy (coding format) block.now out.old result out.new }
{
    format.to_s16(block, out)?;
    Ok(2 * (block.len() / format.bytes()))
}

// All of `source`, which had so many bytes, converted into `sink`.
fn write_samples(
    format: Format,
    source: &mut File,
    bytes: u64,
    sink: &mut File,
) -> std::io::Result<()> {
    files::rewind(source, 0)?;
    let mut out = [0u8; 98304];
    let again = files::pass(source, &mut [0u8; BLOCK], |block| {
        match convert_block(format, block, &mut out) {
            Ok(made) => sink.write_all(&out[..made]),
            Err(_) => Err(ErrorKind::InvalidData.into()),
        }
    })?;
    if again == bytes {
        Ok(())
    } else {
        Err(ErrorKind::InvalidData.into())
    }
}

// FROM's length judged: 98 unless it was read to its end, 31 unless it is whole samples.
#[tactic(auto, unfolding(crate::specs::Reports::length_answer))]
fn judge_length(length: std::io::Result<u64>, bytes: u64) -> Answer
    requires { 0 < bytes }
    ensures answer { (report_of result).answer ≡ length_answer length bytes }
    ensures judged { IfOk result (λ n. length ≡ Ok n) }
{
    let length = length?;
    if length % bytes != 0 {
        return Err(Refusal::Refused(samples::Refusal::NotWhole));
    }
    Ok(length)
}

// The order past FROM's opening: FROM can't be read, not whole samples, TO can't be used.
fn convert_open(rt: &HostRuntime, source: &mut File, format: Format, to: &[u8]) -> Answer
    ensures { (report_of result).answer ≡ 30 → ⊥ }
{
    let bytes = format.bytes() as u64;
    let length = judge_length(files::pass(source, &mut [0u8; BLOCK], |_| Ok(())), bytes)?;
    files::replace(rt, to, |sink| write_samples(format, source, length, sink))?;
    Ok(length / bytes)
}

// The order past FORMAT's reading: not in the list (30, then only), FROM can't be opened.
fn convert_file(rt: &HostRuntime, format: u32, from: &[u8], to: &[u8]) -> Answer
    ensures { FormatFirst format (report_of result) }
{
    let format = Format::try_from(format).map_err(Refusal::Refused)?;
    let mut source = files::open_read(rt, from)?;
    convert_open(rt, &mut source, format, to)
}

// The arguments: FORMAT, 1 to 10 digits; FROM; TO. One that is too long for its buffer is read as empty.
fn from_arguments(rt: &HostRuntime) -> Answer {
    if !files::is_last_argument(rt, 3) {
        return Err(Refusal::Usage);
    }
    let Some(format) = files::number_argument(rt, 1) else {
        return Err(Refusal::Usage);
    };
    let Ok(format) = u32::try_from(format) else {
        return Err(Refusal::Refused(samples::Refusal::OtherFormat));
    };
    let mut from = io::buffer();
    let mut to = io::buffer();
    convert_file(
        rt,
        format,
        files::argument_word(rt, 2, &mut from),
        files::argument_word(rt, 3, &mut to),
    )
}

// What is answered, as a line.
fn print<W: Write>(output: &mut W, answer: Answer) -> std::io::Result<()>
    ensures { OnOk result (Appends (W.contents output.old) (W.contents output.new) (line_of answer)) }
{
    match answer {
        Ok(samples) => writeln!(output, "0 {samples}"),
        Err(refusal) => writeln!(output, "{refusal}"),
    }
}

// The whole program.
pub fn run(rt: &HostRuntime) {
    let _printed = print(&mut rt.stdout(), from_arguments(rt));
}
