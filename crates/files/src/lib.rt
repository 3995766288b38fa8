// Files of the programs that make one file from another: a file read block by block, a new file that takes the other's place once it is
// whole, the arguments, and why nothing was done.
#![tactic(auto)]

ghost use Rattle.std.specs.Prelude.{◌≡◌, ℕ, ◌^◌, ◌<◌, ◌≤◌, List, [], length, take, OnOk, IfOk};
ghost use Rattle.std.specs.Io.KnownBytes.{Consumes, IsAtEnd};
ghost use Rattle.io.specs.Counts.{IsPrefixLen};
ghost use Rattle.files.specs.declared.Refusal.TheVariants.{Unusable};
ghost use Rattle.files.specs.Blocks.{HandedOn};
ghost use Rattle.files.specs.Refusals.{output_of};

use std::env::FillError;
use std::fs::{self, File, OpenOptions};
use std::io::{Error, ErrorKind, Read, Result, Seek, SeekFrom};
use std::rt::Env;
use std::{fmt, process};

// Wrong arguments, and a file that can't be used.
const USAGE: u32 = 99;

const UNUSABLE: u32 = 98;

// Why a program did nothing: its arguments are wrong (99), a file can't be used (98), or what a library says of the numbers or the data.
#[derive(Clone, Copy, Debug)]
pub enum Refusal<E> {
    Usage,
    Unusable,
    Refused(E),
}

impl<E> From<Error> for Refusal<E> {
    ghost from_gives = { λ _ r. r ≡ Unusable };

    fn from(_: Error) -> Refusal<E> {
        Refusal::Unusable
    }
}

impl<E: fmt::Display> fmt::Display for Refusal<E> {
    ghost output = { λ refusal. output_of E.output refusal };

    fn fmt<W: fmt::Write>(&self, f: &mut fmt::Formatter<W>) -> fmt::Result {
        match self {
            Refusal::Usage => write!(f, "{USAGE}"),
            Refusal::Unusable => write!(f, "{UNUSABLE}"),
            Refusal::Refused(e) => write!(f, "{e}"),
        }
    }
}

// Bytes at the start of a buffer, and whether all went well.
#[derive(Clone, Copy)]
pub struct Block {
    pub count: usize,
    pub sound: Result<()>,
}

// The file that is written: TO itself where it is a device or a pipe, else one beside it, by its name.
#[derive(Drop)]
struct Sink<'a> {
    file: File,
    beside: Option<&'a str>,
}

// At the end of a file; an error where a byte more came, or reading failed.
fn at_end<R: Read>(file: &mut R) -> Result<()>
    ensures end { OnOk result (IsAtEnd (R.remaining file.new)) }
    ensures none { OnOk result (Consumes (R.remaining file.old) (R.remaining file.new) []) }
{
    let mut more = [0u8; 1];
    match file.read(&mut more)? {
        0 => Ok(()),
        _ => Err(ErrorKind::FileTooLarge.into()),
    }
}

// The next block of a file. A short one is the last, unless reading failed.
pub fn read_block<R: Read>(file: &mut R, block: &mut [u8]) -> Block
    ensures count_in_bounds { result.count ≤ length block.new }
    ensures bytes { OnOk result.sound (Consumes (R.remaining file.old) (R.remaining file.new) (take result.count block.new)) }
    ensures last { OnOk result.sound (result.count < length block.new → IsAtEnd (R.remaining file.new)) }
{
    let count = streams::read_full(file, block);
    let sound = if count < block.len() {
        at_end(file)
    } else {
        Ok(())
    };
    Block { count, sound }
}

// Reads a file to its end and hands it to `take`, block by block, the last one too; answers how many bytes it had.
pub fn pass<R: Read, F: FnMut(&[u8]) -> Result<()>>(
    file: &mut R,
    block: &mut [u8],
    mut take: F,
) -> Result<u64>
    requires { F.IsAlwaysCallable take }
    ensures bytes { IfOk result (λ n. (read : List ℕ) × Consumes (R.remaining file.old) (R.remaining file.new) read
        × (n ≡ length read)) }
    ensures end { OnOk result (IsAtEnd (R.remaining file.new)) }
    ensures handed { IfOk result (λ n. (last : F) × HandedOn F.FnMut take last (R.remaining file.old) (R.remaining file.new) n) }
{
    let mut bytes: u64 = 0;
    for _ in 0..u64::MAX {
        let read = read_block(file, block);
        take(&block[..read.count])?;
        read.sound?;
        bytes = bytes
            .checked_add(read.count as u64)
            .ok_or(ErrorKind::FileTooLarge)?;
        if read.count < block.len() {
            return Ok(bytes);
        }
    }
    Err(ErrorKind::FileTooLarge.into())
}

// The file read again from `at` on.
pub fn rewind<S: Seek>(file: &mut S, at: u64) -> Result<()> {
    if file.seek(SeekFrom::Start(at))? == at {
        Ok(())
    } else {
        Err(ErrorKind::NotSeekable.into())
    }
}

fn process_number(rt: &HostRuntime) -> u64 {
    u64::from(process::id(rt.process()))
}

// `s` put into `name` at `at`, as far as it goes; answers the place behind it.
fn put_at(s: &[u8], at: usize, name: &mut [u8]) -> usize
    requires { at ≤ length name.old }
    ensures { IsPrefixLen result name.new }
{
    let end = at + s.len().min(name.len() - at);
    name[at..end].copy_from_slice(&s[..end - at]);
    end
}

// The name of the file that is written before it takes TO's place: TO, a dot and the process's number. One that does not fit fills the
// 4,096 bytes, which is too long for a path.
fn part_name(number: u64, to: &[u8], name: &mut [u8]) -> usize
    ensures { IsPrefixLen result name.new }
{
    let mut digits = [0u8; 20];
    let count = io::decimal(number, &mut digits);
    let named = put_at(to, 0, name);
    let dotted = put_at(b".", named, name);
    put_at(&digits[..count], dotted, name)
}

// Whether what is open is a device, a pipe or the like, which can't be cut to a length and is not to be replaced.
fn is_special(file: &mut File) -> bool {
    match file.seek(SeekFrom::End(0)) {
        Ok(size) => file.set_len(size).is_err(),
        Err(_) => true,
    }
}

// A path is UTF-8 text; there is no file at any other.
fn path(bytes: &[u8]) -> Result<&str> {
    str::from_utf8(bytes).map_err(|_| ErrorKind::InvalidFilename.into())
}

// The file at `at`, opened for reading.
pub fn open_read(rt: &HostRuntime, at: &[u8]) -> Result<File> {
    File::open(rt, path(at)?)
}

fn create_beside<'a>(rt: &HostRuntime, to: &[u8], name: &'a mut [u8]) -> Result<Sink<'a>> {
    let n = part_name(process_number(rt), to, name);
    let beside = path(&name[..n])?;
    let file = OpenOptions::new()
        .write(true)
        .create_new(true)
        .open(rt, beside)?;
    Ok(Sink {
        file,
        beside: Some(beside),
    })
}

// What is to become TO, opened; an error where none can be had. TO is as it was.
fn open_sink<'a>(rt: &HostRuntime, to: &[u8], name: &'a mut [u8]) -> Result<Sink<'a>> {
    match OpenOptions::new().append(true).open(rt, path(to)?) {
        Ok(mut file) => {
            if is_special(&mut file) {
                return Ok(Sink { file, beside: None });
            }
        }
        Err(e) => {
            if e.kind() != ErrorKind::NotFound {
                return Err(e);
            }
        }
    }
    create_beside(rt, to, name)
}

// What was written takes TO's place where all went well; else TO is as it was, and nothing stray is left.
fn close_sink(rt: &HostRuntime, sink: Sink<'_>, to: &[u8], wrote: Result<()>) -> Result<()> {
    let Some(beside) = sink.beside else {
        return wrote;
    };
    let placed = put_in_place(rt, &sink.file, beside, to, wrote);
    if placed.is_err() {
        let _removed = fs::remove_file(rt, beside);
    }
    placed
}

fn put_in_place(
    rt: &HostRuntime,
    file: &File,
    beside: &str,
    to: &[u8],
    wrote: Result<()>,
) -> Result<()> {
    wrote?;
    file.sync_all()?;
    fs::rename(rt, beside, path(to)?)
}

// TO made to hold what `write` writes. Where that fails TO is as it was, unless it is a device or a pipe.
pub fn replace<F: FnOnce(&mut File) -> Result<()>>(
    rt: &HostRuntime,
    to: &[u8],
    write: F,
) -> Result<()>
    requires { F.IsAlwaysCallable write }
{
    let mut name = io::buffer();
    let mut sink = open_sink(rt, to, &mut name)?;
    let wrote = write(&mut sink.file);
    close_sink(rt, sink, to, wrote)
}

// The program's argument i, in `word`; none of its bytes where it is missing or does not fit.
pub fn argument_word<'a>(rt: &HostRuntime, i: usize, word: &'a mut [u8]) -> &'a [u8]
    ensures { length result.now ≤ length word.old }
{
    let n = word_len(rt, i, word);
    &word[..n]
}

fn word_len(rt: &HostRuntime, i: usize, word: &mut [u8]) -> usize
    ensures { IsPrefixLen result word.new }
{
    rt.arg(i, word).unwrap_or(0)
}

// The program's argument i, as a number.
pub fn number_argument(rt: &HostRuntime, i: usize) -> Option<u64> {
    let mut word = io::buffer();
    argument::read_number(argument_word(rt, i, &mut word))
}

// Whether there is an argument i; argument 0 is the program's name.
fn has_argument(rt: &HostRuntime, i: usize) -> bool {
    !matches!(rt.arg(i, &mut []), Err(FillError::NotPresent))
}

// Whether `last` is the last argument.
pub fn is_last_argument(rt: &HostRuntime, last: usize) -> bool
    requires { last < 2 ^ 32 }
{
    has_argument(rt, last) && !has_argument(rt, last + 1)
}
