// What a monitor's mixer in C links: the converter (`samples`) under its own name, in an archive. A crate is a library for
// Rattle crates or an archive for C, not both. The contract is that of the function that is called, whole.
#![tactic(auto)]

ghost use Rattle.std.specs.Prelude.{◌≡◌};
ghost use Rattle.samples.specs.Outcome.{outcome, converted};

// Samples of `from`, in a format of the list, as S16 at the start of `to`. 30: the format is not in the list; 31: `from` does not hold
// whole samples; 32: `to` has no room for them. A refusal leaves `to` as it was.
#[unsafe(no_mangle)]
pub extern "C" fn wekshurag_to_s16(format: u32, from: &[u8], to: &mut [u8]) -> u32
    ensures { outcome result to.new ≡ converted format from.now to.old }
{
    samples::wekshurag_to_s16(format, from, to)
}
