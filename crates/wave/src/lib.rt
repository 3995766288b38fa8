// Sound as a WAVE file, written and read: the RIFF form with a 16-byte format part, tag 1. Formats and rates go by their virtio numbers.
#![tactic(auto)]

ghost use Rattle.std.specs.Prelude.{◌≡◌, ◌+◌, ◌/◌, ◌≤◌, ◌<◌, length, get_or, ◌==◌, Some, IfSome, decimal};
ghost use Rattle.std.specs.List.{position};
ghost use Rattle.wave.specs.Lists.{listed, bits_of, hz_of, known, format_with, rates, rate_with};
ghost use Rattle.wave.specs.File.{block_align, byte_rate, riff_part, format_part, data_part, header_of, file_len_of, file_of};
ghost use Rattle.wave.specs.Outcome.{number_of, answer_of, max_data, judged, laid, after, written_of, headed_of};
ghost use Rattle.wave.specs.Outcome.{holds, has_words, has_numbers, has_pad, found_of, read_with, read_by, file_read, told_of};

use samples::{S16, S24_3, S32, U8};
use std::fmt;

// The answers for C.
pub const DONE: u32 = 0;

pub const NOT_LISTED: u32 = 20;

pub const TOO_LONG: u32 = 21;

pub const NO_ROOM: u32 = 22;

pub const NO_HEADER: u32 = 23;

pub const WRONG_WORD: u32 = 24;

pub const WRONG_NUMBER: u32 = 25;

pub const WRONG_LENGTH: u32 = 26;

pub const WRONG_PAD: u32 = 27;

// The bytes before the data, and the most data: with these the RIFF size is below 2^32.
pub const HEADER: usize = 44;

const MAX_DATA: u64 = 4294967258;

// The number of no format, and of no rate.
const NO_FORMAT: u8 = 25;

const NO_RATE: u32 = 14;

// Frames a second, by virtio's number (VIRTIO_SND_PCM_RATE_).
const RATES: [u32; 14] = [
    5512, 8000, 11025, 16000, 22050, 32000, 44100, 48000, 64000, 88200, 96000, 176400, 192000,
    384000,
];

// The size of the format part, and the tag of linear samples.
const FORMAT_SIZE: u32 = 16;

const LINEAR: u16 = 1;

// Where the header has what the reader needs.
const CHANNELS_AT: usize = 22;

const RATE_AT: usize = 24;

const BITS_AT: usize = 34;

const LENGTH_AT: usize = 40;

// Why nothing was written, and why a file is none that is written.
#[derive(Clone, Copy, Debug, PartialEq, Eq)]
pub enum Refusal {
    // Format, channels or rate are not in the list.
    NotListed,
    TooLong,
    NoRoom,
    // The file has under 44 bytes.
    NoHeader,
    WrongWord,
    // The writer would not have put it there.
    WrongNumber,
    // The file is shorter or longer than its numbers ask.
    WrongLength,
    // The pad byte is not zero.
    WrongPad,
}

impl From<Refusal> for u32 {
    ghost from_gives = { λ refusal answer. answer ≡ number_of refusal };

    fn from(refusal: Refusal) -> u32 {
        match refusal {
            Refusal::NotListed => NOT_LISTED,
            Refusal::TooLong => TOO_LONG,
            Refusal::NoRoom => NO_ROOM,
            Refusal::NoHeader => NO_HEADER,
            Refusal::WrongWord => WRONG_WORD,
            Refusal::WrongNumber => WRONG_NUMBER,
            Refusal::WrongLength => WRONG_LENGTH,
            Refusal::WrongPad => WRONG_PAD,
        }
    }
}

// Its number.
impl fmt::Display for Refusal {
    ghost output = { λ refusal. Some (decimal (number_of refusal)) };

    fn fmt<W: fmt::Write>(&self, f: &mut fmt::Formatter<W>) -> fmt::Result {
        write!(f, "{}", u32::from(*self))
    }
}

// The form of sound: format, channels and rate.
#[derive(Clone, Copy)]
pub struct Form {
    pub format: u32,
    pub channels: u32,
    pub rate: u32,
}

// The sound of a file: its form, where in the file the data stands, and how long it is.
#[derive(Clone, Copy)]
pub struct Sound {
    pub form: Form,
    pub start: u64,
    pub len: u64,
}

#[tactic(auto, unfolding(crate::specs::Lists::listed))]
fn listed_format(format: u32) -> u8
    ensures { result ≡ listed format }
{
    match format {
        U8 => 4,
        S16 => 5,
        S24_3 => 11,
        S32 => 17,
        _ => NO_FORMAT,
    }
}

// The format with so many bits a sample, and the rate of so many frames a second.
#[tactic(auto, unfolding(crate::specs::Lists::format_with))]
fn format_with(bits: u16) -> u32
    ensures { result ≡ format_with bits }
{
    match bits {
        8 => U8,
        16 => S16,
        24 => S24_3,
        32 => S32,
        _ => u32::from(NO_FORMAT),
    }
}

fn rate_place(hz: u32) -> Option<usize>
    ensures place { result ≡ position (λ x. hz == x) rates }
    ensures bound { IfSome result (λ i. i < 14) }
{
    RATES.iter().position(|known| hz == *known)
}

fn rate_with(hz: u32) -> u32
    ensures { result ≡ rate_with hz }
{
    rate_place(hz).map_or(NO_RATE, |i| i as u32)
}

// `s`, stored from `at` on.
fn put_bytes(out: &mut [u8], at: usize, s: &[u8])
    requires { at + length s.now ≤ length out.old }
    ensures { out.new ≡ laid out.old at s.now }
{
    out[at..at + s.len()].copy_from_slice(s);
}

// The header's parts. The pad byte of an odd length counts in the RIFF size, and nowhere else.
#[tactic(auto, unfolding(crate::specs::File::riff_part, crate::specs::File::bytes, memory::specs::Bytes::put, crate::specs::Outcome::laid))]
fn riff_part(data_len: u32) -> [u8; 12]
    requires { data_len ≤ max_data }
    ensures { result ≡ riff_part data_len }
{
    let mut part = [0u8; 12];
    put_bytes(&mut part, 0, b"RIFF");
    memory::set(&mut part, 4, 36 + data_len + data_len % 2);
    put_bytes(&mut part, 8, b"WAVE");
    part
}

#[tactic(auto, unfolding(crate::specs::File::data_part, crate::specs::File::bytes, memory::specs::Bytes::put, crate::specs::Outcome::laid))]
fn data_part(data_len: u32) -> [u8; 8]
    ensures { result ≡ data_part data_len }
{
    let mut part = [0u8; 8];
    put_bytes(&mut part, 0, b"data");
    memory::set(&mut part, 4, data_len);
    part
}

impl Form {
    // The bits of a sample; 0 for a format that is not taken.
    fn sample_bits(self) -> u32
        ensures { (result ≡ bits_of self.format) × (result ≤ 32) }
    {
        u32::from(formats::physical_bits(listed_format(self.format)))
    }

    // Frames a second; 0 for a number that is no rate.
    fn rate_hz(self) -> u32
        ensures { (result ≡ hz_of self.rate) × (result ≤ 384000) }
    {
        RATES.get(self.rate as usize).copied().unwrap_or(0)
    }

    // The bytes of a frame, and those of a second.
    fn block_align(self) -> u32
        requires { self.channels ≤ 18 }
        ensures { (result ≡ block_align self.format self.channels) × (result ≤ 72) }
    {
        self.channels * (self.sample_bits() / 8)
    }

    fn byte_rate(self) -> u32
        requires { self.channels ≤ 18 }
        ensures { result ≡ byte_rate self.format self.channels self.rate }
    {
        self.rate_hz() * self.block_align()
    }

    #[tactic(auto, unfolding(crate::specs::Lists::known))]
    fn is_listed(self) -> bool
        ensures { result ≡ known self.format self.channels self.rate }
    {
        0 < self.sample_bits() && 1 <= self.channels && self.channels <= 18 && self.rate < NO_RATE
    }

    // What can be said before anything is written.
    #[tactic(auto, unfolding(crate::specs::Outcome::judged))]
    pub fn judge(self, data_len: u64) -> Result<(), Refusal>
        ensures { answer_of result ≡ judged self.format self.channels self.rate data_len }
    {
        if !self.is_listed() {
            return Err(Refusal::NotListed);
        }
        if MAX_DATA < data_len {
            return Err(Refusal::TooLong);
        }
        Ok(())
    }

    fn format_part(self) -> [u8; 24]
        requires { self.channels ≤ 18 }
        ensures { result ≡ format_part self.format self.channels self.rate }
    {
        let mut part = [0u8; 24];
        put_bytes(&mut part, 0, b"fmt ");
        memory::set(&mut part, 4, FORMAT_SIZE);
        memory::set(&mut part, 8, LINEAR);
        memory::set(&mut part, 10, self.channels as u16);
        memory::set(&mut part, 12, self.rate_hz());
        memory::set(&mut part, 16, self.byte_rate());
        memory::set(&mut part, 20, self.block_align() as u16);
        memory::set(&mut part, 22, self.sample_bits() as u16);
        part
    }

    // The header, stored at the start.
    fn put_header(self, data_len: u32, out: &mut [u8])
        requires { (self.channels ≤ 18) × (data_len ≤ max_data) × (44 ≤ length out.old) }
        ensures { out.new ≡ laid out.old 0 (header_of self.format self.channels self.rate data_len) }
    {
        put_bytes(out, 0, &riff_part(data_len));
        put_bytes(out, 12, &self.format_part());
        put_bytes(out, 36, &data_part(data_len));
    }

    // The file of `data`, stored at the start.
    fn put_file(self, data: &[u8], out: &mut [u8])
        requires { (self.channels ≤ 18) × (length «data».now ≤ max_data) × (file_len_of (length «data».now) ≤ length out.old) }
        ensures { out.new ≡ laid out.old 0 (file_of self.format self.channels self.rate «data».now) }
    {
        let n = data.len();
        self.put_header(n as u32, out);
        put_bytes(out, HEADER, data);
        put_bytes(out, HEADER + n, &[0u8; 1][..n % 2]);
    }

    // The 44 bytes before `data_len` bytes of data, at the start of `out`, for a file that is not in memory as a whole; answers how many
    // bytes were written. Refused are, in this order, a form that is not in the list, data too long, and no room, and `out` is as it was.
    pub fn header(self, data_len: u64, out: &mut [u8]) -> Result<usize, Refusal>
        ensures { after result out.new ≡ headed_of self.format self.channels self.rate data_len out.old }
    {
        self.judge(data_len)?;
        if out.len() < HEADER {
            return Err(Refusal::NoRoom);
        }
        self.put_header(data_len as u32, out);
        Ok(HEADER)
    }

    // The file of `data` at the start of `out`; the refusals are those of `header`.
    pub fn write(self, data: &[u8], out: &mut [u8]) -> Result<usize, Refusal>
        ensures { after result out.new ≡ written_of self.format self.channels self.rate «data».now out.old }
    {
        let n = data.len();
        self.judge(n as u64)?;
        let len = HEADER + n + n % 2;
        if out.len() < len {
            return Err(Refusal::NoRoom);
        }
        self.put_file(data, out);
        Ok(len)
    }

    // Whether the header is the one that the writer gives for what was read.
    fn has_numbers(self, data_len: u32, head: &[u8]) -> bool
        requires { 44 ≤ length head.now }
        ensures { result ≡ has_numbers self.format self.channels self.rate data_len head.now }
    {
        if self.judge(u64::from(data_len)).is_err() {
            return false;
        }
        let mut expected = [0u8; 44];
        self.put_header(data_len, &mut expected);
        holds(head, 0, &expected)
    }

    // The order of the reader's refusals, past what its numbers say.
    #[tactic(auto, unfolding(crate::specs::Outcome::read_with))]
    fn read_with(
        self,
        data_len: u32,
        head: &[u8],
        file_len: u64,
        last: u8,
    ) -> Result<Sound, Refusal>
        ensures { found_of result ≡ read_with self.format self.channels self.rate data_len head.now file_len last }
    {
        if head.len() < HEADER {
            return Err(Refusal::NoHeader);
        }
        if !has_words(head) {
            return Err(Refusal::WrongWord);
        }
        if !self.has_numbers(data_len, head) {
            return Err(Refusal::WrongNumber);
        }
        let n = u64::from(data_len);
        if file_len != 44 + n + n % 2 {
            return Err(Refusal::WrongLength);
        }
        if !has_pad(n, last) {
            return Err(Refusal::WrongPad);
        }
        Ok(Sound {
            form: self,
            start: 44,
            len: n,
        })
    }
}

// Whether `s` stands in `head` at `at`.
fn holds(head: &[u8], at: usize, s: &[u8]) -> bool
    requires { at + length s.now ≤ length head.now }
    ensures { result ≡ holds head.now at s.now }
{
    &head[at..at + s.len()] == s
}

#[tactic(auto, unfolding(crate::specs::Outcome::has_words))]
fn has_words(head: &[u8]) -> bool
    requires { 44 ≤ length head.now }
    ensures { result ≡ has_words head.now }
{
    holds(head, 0, b"RIFF")
        && holds(head, 8, b"WAVE")
        && holds(head, 12, b"fmt ")
        && holds(head, 36, b"data")
}

// Whether the last byte can be the pad byte of so much data, where there is one.
#[tactic(auto, unfolding(crate::specs::Outcome::has_pad))]
fn has_pad(data_len: u64, last: u8) -> bool
    ensures { result ≡ has_pad data_len last }
{
    data_len % 2 == 0 || last == 0
}

// A file by its first 44 bytes, or all where it has fewer, its length and its last byte, where it is not in memory as a whole.
pub fn read_header(head: &[u8], file_len: u64, last: u8) -> Result<Sound, Refusal>
    ensures { found_of result ≡ read_by head.now file_len last }
{
    let form = Form {
        format: format_with(memory::number::<u16>(head, BITS_AT)),
        channels: u32::from(memory::number::<u16>(head, CHANNELS_AT)),
        rate: rate_with(memory::number::<u32>(head, RATE_AT)),
    };
    form.read_with(memory::number::<u32>(head, LENGTH_AT), head, file_len, last)
}

// A file that is in memory as a whole.
pub fn read(file: &[u8]) -> Result<Sound, Refusal>
    ensures { found_of result ≡ file_read file.now }
{
    let len = file.len();
    if len < HEADER {
        return Err(Refusal::NoHeader);
    }
    read_header(&file[..HEADER], len as u64, file[len - 1])
}

// `header`, for C: the answer.
pub fn wekshurag_wave_header(
    format: u32,
    channels: u32,
    rate: u32,
    data_len: u64,
    out: &mut [u8],
) -> u32
    ensures { let o = headed_of format channels rate data_len out.old in
        (result ≡ o.answer) × (out.new ≡ o.out) }
{
    let form = Form {
        format,
        channels,
        rate,
    };
    match form.header(data_len, out) {
        Ok(_) => DONE,
        Err(refusal) => refusal.into(),
    }
}

// `read`, for C: the answer, and beside 0 in `found` the format, channels, rate, where the data starts and how long it is.
pub fn wekshurag_wave_read(file: &[u8], found: &mut [u64; 5]) -> u32
    ensures { let o = file_read file.now in
        (result ≡ o.answer) × (found.new ≡ told_of o found.old) }
{
    match read(file) {
        Ok(Sound { form, start, len }) => {
            found[0] = u64::from(form.format);
            found[1] = u64::from(form.channels);
            found[2] = u64::from(form.rate);
            found[3] = start;
            found[4] = len;
            DONE
        }
        Err(refusal) => refusal.into(),
    }
}
