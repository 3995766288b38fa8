// The sample formats by their virtio numbers (VIRTIO_SND_PCM_FMT_), and the physical width of each.
#![tactic(auto)]

ghost use Rattle.std.specs.Prelude.{◌≡◌};
ghost use Rattle.formats.specs.Widths.{physical_bits};

// The bits that a sample takes, by the format's number.
const PHYSICAL_BITS: [u8; 25] = [
    4, // IMA_ADPCM
    8, // MU_LAW
    8, // A_LAW
    8, // S8
    8, // U8
    16, // S16
    16, // U16
    24, // S18_3
    24, // U18_3
    24, // S20_3
    24, // U20_3
    24, // S24_3
    24, // U24_3
    32, // S20
    32, // U20
    32, // S24
    32, // U24
    32, // S32
    32, // U32
    32, // FLOAT
    64, // FLOAT64
    8, // DSD_U8
    16, // DSD_U16
    32, // DSD_U32
    32, // IEC958_SUBFRAME
];

// The physical width of a format in bits; 0 for a number that is no format.
#[tactic(auto, unfolding(crate::specs::Widths::physical_bits))]
pub fn physical_bits(format: u8) -> u8
    ensures { result ≡ physical_bits format }
{
    PHYSICAL_BITS.get(format as usize).copied().unwrap_or(0)
}
