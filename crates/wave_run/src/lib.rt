// The program `wave write FORMAT CHANNELS RATE FROM TO`, `wave read FROM TO`: what was played as a WAVE file, and back, a block at a time.
#![tactic(auto)]

ghost use Rattle.std.specs.Prelude.{◌≡◌, OnOk, Some};
ghost use Rattle.std.specs.Io.KnownBytes.{Appends};
ghost use Rattle.wave.specs.Outcome.{judged};
ghost use Rattle.wave_run.specs.Reports.{answer_of, report_text, line_of};

use files::Refusal;
use std::fmt;
use std::fs::File;
use std::io::{ErrorKind, Write};
use wave::Form;

// What was done: so many bytes written as a WAVE file, or so many taken out of one of this form.
#[derive(Clone, Copy)]
enum Report {
    Written(u64),
    Read(Form, u64),
}

// What is printed of it, behind the answer 0.
impl fmt::Display for Report {
    ghost output = { λ report. Some (report_text report) };

    fn fmt<W: fmt::Write>(&self, f: &mut fmt::Formatter<W>) -> fmt::Result {
        match self {
            Report::Written(len) => write!(f, "{len}"),
            Report::Read(form, len) => {
                write!(f, "{} {} {} {len}", form.format, form.channels, form.rate)
            }
        }
    }
}

type Answer = Result<Report, Refusal<wave::Refusal>>;

// A file, by how many bytes it has and the last of them.
#[derive(Clone, Copy)]
struct Looked {
    bytes: u64,
    last: u8,
}

// A pass that only looks at what it reads.
fn look(source: &mut File) -> std::io::Result<Looked> {
    let mut last: u8 = 0;
    let bytes = files::pass(source, &mut io::large_buffer(), |block| {
        if let Some(byte) = block.last() {
            last = *byte;
        }
        Ok(())
    })?;
    Ok(Looked { bytes, last })
}

// `limit` of the `bytes` bytes of `source` past `start`, written to `sink`.
fn copy_part(
    source: &mut File,
    start: u64,
    bytes: u64,
    sink: &mut File,
    limit: u64,
) -> std::io::Result<()> {
    files::rewind(source, start)?;
    let mut left = limit;
    let again = files::pass(source, &mut io::large_buffer(), |block| {
        let n = left.min(block.len() as u64);
        left -= n;
        sink.write_all(&block[..n as usize])
    })?;
    if again == bytes {
        Ok(())
    } else {
        Err(ErrorKind::InvalidData.into())
    }
}

// The file of all of `source`: its header, the bytes, and the pad byte of an odd length.
fn write_wave(source: &mut File, bytes: u64, head: &[u8], sink: &mut File) -> std::io::Result<()> {
    sink.write_all(head)?;
    copy_part(source, 0, bytes, sink, bytes)?;
    sink.write_all(&[0u8; 1][..(bytes % 2) as usize])
}

// The order past FROM's opening: FROM can't be read, data too long, TO can't be used.
fn write_open(rt: &HostRuntime, form: Form, source: &mut File, to: &[u8]) -> Answer {
    let Looked { bytes, .. } = look(source)?;
    let mut head = [0u8; 44];
    form.header(bytes, &mut head).map_err(Refusal::Refused)?;
    files::replace(rt, to, |sink| write_wave(source, bytes, &head, sink))?;
    Ok(Report::Written(bytes))
}

// The order past the arguments: not in the list, whatever FROM and TO are; then FROM can't be opened.
fn write_file(rt: &HostRuntime, form: Form, from: &[u8], to: &[u8]) -> Answer
    ensures { (judged form.format form.channels form.rate 0 ≡ 0 → ⊥)
        → answer_of result ≡ judged form.format form.channels form.rate 0 }
{
    form.judge(0).map_err(Refusal::Refused)?;
    let mut source = files::open_read(rt, from)?;
    write_open(rt, form, &mut source, to)
}

// The order past FROM's opening: FROM can't be read, 23 to 27, TO can't be used.
fn read_open(rt: &HostRuntime, source: &mut File, to: &[u8]) -> Answer {
    let file = look(source)?;
    files::rewind(source, 0)?;
    let mut head = [0u8; 44];
    let n = streams::read_full(source, &mut head);
    let sound = wave::read_header(&head[..n], file.bytes, file.last).map_err(Refusal::Refused)?;
    let rest = file.bytes.saturating_sub(44);
    files::replace(rt, to, |sink| copy_part(source, 44, rest, sink, sound.len))?;
    Ok(Report::Read(sound.form, sound.len))
}

// The last two arguments are FROM and TO. One that is too long for its buffer is read as empty.
fn read_named(rt: &HostRuntime) -> Answer {
    let mut from = io::buffer();
    let mut to = io::buffer();
    let mut source = files::open_read(rt, files::argument_word(rt, 2, &mut from))?;
    read_open(rt, &mut source, files::argument_word(rt, 3, &mut to))
}

fn write_named(rt: &HostRuntime, form: Form) -> Answer {
    let mut from = io::buffer();
    let mut to = io::buffer();
    write_file(
        rt,
        form,
        files::argument_word(rt, 5, &mut from),
        files::argument_word(rt, 6, &mut to),
    )
}

// A number of the form; one of more than 32 bits is in no list.
fn form_number(n: u64) -> Result<u32, Refusal<wave::Refusal>> {
    u32::try_from(n).map_err(|_| Refusal::Refused(wave::Refusal::NotListed))
}

// FORMAT, CHANNELS and RATE, 1 to 10 digits each.
fn write_arguments(rt: &HostRuntime) -> Answer {
    let Some(format) = files::number_argument(rt, 2) else {
        return Err(Refusal::Usage);
    };
    let Some(channels) = files::number_argument(rt, 3) else {
        return Err(Refusal::Usage);
    };
    let Some(rate) = files::number_argument(rt, 4) else {
        return Err(Refusal::Usage);
    };
    let form = Form {
        format: form_number(format)?,
        channels: form_number(channels)?,
        rate: form_number(rate)?,
    };
    write_named(rt, form)
}

// Whether the first argument is this word.
fn is_command(rt: &HostRuntime, word: &[u8]) -> bool {
    files::argument_word(rt, 1, &mut io::buffer()) == word
}

fn from_arguments(rt: &HostRuntime) -> Answer {
    if files::is_last_argument(rt, 6) && is_command(rt, b"write") {
        write_arguments(rt)
    } else if files::is_last_argument(rt, 3) && is_command(rt, b"read") {
        read_named(rt)
    } else {
        Err(Refusal::Usage)
    }
}

// What is answered, as a line.
fn print<W: Write>(output: &mut W, answer: Answer) -> std::io::Result<()>
    ensures { OnOk result (Appends (W.contents output.old) (W.contents output.new) (line_of answer)) }
{
    match answer {
        Ok(report) => writeln!(output, "0 {report}"),
        Err(refusal) => writeln!(output, "{refusal}"),
    }
}

// The whole program.
pub fn run(rt: &HostRuntime) {
    let _printed = print(&mut rt.stdout(), from_arguments(rt));
}
