// A 64-bit mask of formats: its lowest bit set, and how many are set.
#![tactic(auto)]

ghost use Rattle.std.specs.Prelude.{◌≡◌};
ghost use Rattle.format_mask.specs.Mask.{lowest_bit, bits_set};

// The lowest bit set, 64 for a mask of 0.
pub fn lowest(mask: u64) -> u32
    ensures { result ≡ lowest_bit mask }
{
    mask.trailing_zeros()
}

// How many bits are set.
pub fn count(mask: u64) -> u32
    ensures { result ≡ bits_set mask }
{
    mask.count_ones()
}
