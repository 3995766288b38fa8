// Samples converted to S16, for the mixer. The formats go by their virtio numbers; samples stand in byte slices, the lowest byte first.
#![tactic(auto)]

ghost use Rattle.std.specs.Prelude.{◌≡◌, ℕ, ◌+◌, ◌*◌, ◌/◌, ◌≤◌, List, length, Some, decimal};
ghost use Rattle.std.specs.Fn.{FnReturnsAt};
ghost use Rattle.memory.specs.Bytes.{put};
ghost use Rattle.samples.specs.Values.{bits};
ghost use Rattle.samples.specs.MuLaw.{mu_law, MuLawTable};
ghost use Rattle.samples.specs.Formats.{Coding, coding, coding_of, width, format_found};
ghost use Rattle.samples.specs.Loops.{Converts};
ghost use Rattle.samples.specs.Outcome.{written, number_of, answer_of, outcome, converted_by, converted};

use std::fmt;

// VIRTIO_SND_PCM_FMT_: the formats taken.
pub const MU_LAW: u32 = 1;

pub const S8: u32 = 3;

pub const U8: u32 = 4;

pub const S16: u32 = 5;

pub const U16: u32 = 6;

pub const S24_3: u32 = 11;

pub const S32: u32 = 17;

// The answers for C.
pub const DONE: u32 = 0;

pub const OTHER_FORMAT: u32 = 30;

pub const NOT_WHOLE: u32 = 31;

pub const NO_ROOM: u32 = 32;

// Why nothing was converted: the format is not in the list; the input does not hold whole samples; the output has no room for them.
#[derive(Clone, Copy, Debug, PartialEq, Eq)]
pub enum Refusal {
    OtherFormat,
    NotWhole,
    NoRoom,
}

impl From<Refusal> for u32 {
    ghost from_gives = { λ refusal answer. answer ≡ number_of refusal };

    fn from(refusal: Refusal) -> u32 {
        match refusal {
            Refusal::OtherFormat => OTHER_FORMAT,
            Refusal::NotWhole => NOT_WHOLE,
            Refusal::NoRoom => NO_ROOM,
        }
    }
}

// Its number.
impl fmt::Display for Refusal {
    ghost output = { λ refusal. Some (decimal (number_of refusal)) };

    fn fmt<W: fmt::Write>(&self, f: &mut fmt::Formatter<W>) -> fmt::Result {
        write!(f, "{}", u32::from(*self))
    }
}

// A format of the list.
#[derive(Clone, Copy, Debug, PartialEq, Eq)]
pub enum Format {
    MuLaw,
    S8,
    U8,
    S16,
    U16,
    S24_3,
    S32,
}

impl TryFrom<u32> for Format {
    type Error = Refusal;

    ghost try_from_gives = { format_found };

    #[tactic(auto, unfolding(crate::specs::Formats::coding_of))]
    fn try_from(number: u32) -> Result<Format, Refusal> {
        match number {
            MU_LAW => Ok(Format::MuLaw),
            S8 => Ok(Format::S8),
            U8 => Ok(Format::U8),
            S16 => Ok(Format::S16),
            U16 => Ok(Format::U16),
            S24_3 => Ok(Format::S24_3),
            S32 => Ok(Format::S32),
            _ => Err(Refusal::OtherFormat),
        }
    }
}

// Mu-law: the 16-bit number of each code (ITU-T G.711).
const MU_LAW_TABLE: [i16; 256] = [
    -32124, -31100, -30076, -29052, -28028, -27004, -25980, -24956, -23932, -22908, -21884, -20860,
    -19836, -18812, -17788, -16764, -15996, -15484, -14972, -14460, -13948, -13436, -12924, -12412,
    -11900, -11388, -10876, -10364, -9852, -9340, -8828, -8316, -7932, -7676, -7420, -7164, -6908,
    -6652, -6396, -6140, -5884, -5628, -5372, -5116, -4860, -4604, -4348, -4092, -3900, -3772,
    -3644, -3516, -3388, -3260, -3132, -3004, -2876, -2748, -2620, -2492, -2364, -2236, -2108,
    -1980, -1884, -1820, -1756, -1692, -1628, -1564, -1500, -1436, -1372, -1308, -1244, -1180,
    -1116, -1052, -988, -924, -876, -844, -812, -780, -748, -716, -684, -652, -620, -588, -556,
    -524, -492, -460, -428, -396, -372, -356, -340, -324, -308, -292, -276, -260, -244, -228, -212,
    -196, -180, -164, -148, -132, -120, -112, -104, -96, -88, -80, -72, -64, -56, -48, -40, -32,
    -24, -16, -8, 0, 32124, 31100, 30076, 29052, 28028, 27004, 25980, 24956, 23932, 22908, 21884,
    20860, 19836, 18812, 17788, 16764, 15996, 15484, 14972, 14460, 13948, 13436, 12924, 12412,
    11900, 11388, 10876, 10364, 9852, 9340, 8828, 8316, 7932, 7676, 7420, 7164, 6908, 6652, 6396,
    6140, 5884, 5628, 5372, 5116, 4860, 4604, 4348, 4092, 3900, 3772, 3644, 3516, 3388, 3260, 3132,
    3004, 2876, 2748, 2620, 2492, 2364, 2236, 2108, 1980, 1884, 1820, 1756, 1692, 1628, 1564, 1500,
    1436, 1372, 1308, 1244, 1180, 1116, 1052, 988, 924, 876, 844, 812, 780, 748, 716, 684, 652,
    620, 588, 556, 524, 492, 460, 428, 396, 372, 356, 340, 324, 308, 292, 276, 260, 244, 228, 212,
    196, 180, 164, 148, 132, 120, 112, 104, 96, 88, 80, 72, 64, 56, 48, 40, 32, 24, 16, 8, 0,
];

// The table in a local, so that a loop over samples has it made once.
fn mu_law_table() -> [i16; 256]
    ensures { MuLawTable result }
{
    MU_LAW_TABLE
}

// The 16 bits of a mu-law code's number.
fn decoded(table: &[i16; 256], code: u8) -> u16
    requires { MuLawTable table.now }
    ensures { result ≡ bits (mu_law code) }
{
    table[usize::from(code)].cast_unsigned()
}

// What turns the top bit of an unsigned sample, so that its middle becomes 0.
const MIDDLE: u16 = 32768;

// `v`, stored in two bytes at `at`. It asks that they are there, so that the loop tests nothing at a sample.
#[tactic(auto, unfolding(memory::specs::Bytes::put))]
fn store(s: &mut [u8], at: usize, v: u16)
    requires { at + 2 ≤ length s.old }
    ensures { s.new ≡ put 2 s.old at v }
{
    let [low, high] = v.to_le_bytes();
    s[at] = low;
    s[at + 1] = high;
}

// The 16 bits that `convert` makes of each sample, at the start of `to`.
fn convert_each<S, F: Fn(&S) -> u16>(samples: &[S], to: &mut [u8], convert: F)
    requires room { 2 * length samples.now ≤ length to.old }
    requires callable { F.IsAlwaysCallable convert }
    ensures { (c : Coding) (from : List ℕ) → Converts c from samples.now (FnReturnsAt F.Fn convert)
        → to.new ≡ written c from 0 (length samples.now) to.old }
{
    for (i, sample) in samples.iter().enumerate() {
        store(to, 2 * i, convert(sample));
    }
}

impl Format {
    // The bytes of a sample.
    pub fn bytes(self) -> usize
        ensures { result ≡ width (coding self) }
    {
        match self {
            Format::MuLaw | Format::S8 | Format::U8 => 1,
            Format::S16 | Format::U16 => 2,
            Format::S24_3 => 3,
            Format::S32 => 4,
        }
    }

    // The whole samples of `from`, converted to the start of `to`: of a linear sample its top 16 bits.
    fn convert(self, from: &[u8], to: &mut [u8])
        requires { 2 * (length from.now / width (coding self)) ≤ length to.old }
        ensures { to.new ≡ written (coding self) from.now 0 (length from.now / width (coding self)) to.old }
    {
        match self {
            Format::MuLaw => {
                let table = mu_law_table();
                convert_each(from, to, |code| decoded(&table, *code));
            }
            Format::S8 => convert_each(from, to, |top| u16::from_le_bytes([0, *top])),
            Format::U8 => convert_each(from, to, |top| {
                u16::from_le_bytes([0, *top]).wrapping_add(MIDDLE)
            }),
            Format::S16 => convert_each(from.as_chunks::<2>().0, to, |bytes| {
                u16::from_le_bytes(*bytes)
            }),
            Format::U16 => convert_each(from.as_chunks::<2>().0, to, |bytes| {
                u16::from_le_bytes(*bytes).wrapping_add(MIDDLE)
            }),
            Format::S24_3 => convert_each(from.as_chunks::<3>().0, to, |[_, low, high]| {
                u16::from_le_bytes([*low, *high])
            }),
            Format::S32 => convert_each(from.as_chunks::<4>().0, to, |[_, _, low, high]| {
                u16::from_le_bytes([*low, *high])
            }),
        }
    }

    // Samples of `from` as S16 at the start of `to`. A refusal leaves `to` as it was.
    #[tactic(auto, unfolding(crate::specs::Outcome::converted_by))]
    pub fn to_s16(self, from: &[u8], to: &mut [u8]) -> Result<(), Refusal>
        ensures { outcome (answer_of result) to.new ≡ converted_by (coding self) from.now to.old }
    {
        let bytes = self.bytes();
        if from.len() % bytes != 0 {
            return Err(Refusal::NotWhole);
        }
        if to.len() / 2 < from.len() / bytes {
            return Err(Refusal::NoRoom);
        }
        self.convert(from, to);
        Ok(())
    }
}

// The bytes of a sample; 0 for a format that is not taken.
pub fn sample_bytes(format: u32) -> usize
    ensures { result ≡ width (coding_of format) }
{
    Format::try_from(format).map_or(0, Format::bytes)
}

// Samples of `from`, in a format of the list by its number, as S16 at the start of `to`. A refusal leaves `to` as it was.
#[tactic(auto, unfolding(crate::specs::Outcome::converted_by))]
pub fn to_s16(format: u32, from: &[u8], to: &mut [u8]) -> Result<(), Refusal>
    ensures { outcome (answer_of result) to.new ≡ converted format from.now to.old }
{
    Format::try_from(format)?.to_s16(from, to)
}

// The same with a number for the answer. 30: the format is not in the list; 31: `from` does not hold whole samples; 32: `to` has no room
// for them.
pub fn wekshurag_to_s16(format: u32, from: &[u8], to: &mut [u8]) -> u32
    ensures { outcome result to.new ≡ converted format from.now to.old }
{
    match to_s16(format, from, to) {
        Ok(()) => DONE,
        Err(refusal) => refusal.into(),
    }
}
