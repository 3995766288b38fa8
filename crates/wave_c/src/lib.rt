// What a monitor in C links of `wave`: its two functions for C under their own names, in an archive. A crate is a library for
// Rattle crates or an archive for C, not both. Each contract is that of the function that is called, whole.
#![tactic(auto)]

ghost use Rattle.std.specs.Prelude.{◌≡◌};
ghost use Rattle.wave.specs.Outcome.{headed_of, file_read, told_of};

// `header`, for C: the answer.
#[unsafe(no_mangle)]
pub extern "C" fn wekshurag_wave_header(
    format: u32,
    channels: u32,
    rate: u32,
    data_len: u64,
    out: &mut [u8],
) -> u32
    ensures { let o = headed_of format channels rate data_len out.old in
        (result ≡ o.answer) × (out.new ≡ o.out) }
{
    wave::wekshurag_wave_header(format, channels, rate, data_len, out)
}

// `read`, for C: the answer, and beside 0 in `found` the format, channels, rate, where the data starts and how long it is.
#[unsafe(no_mangle)]
pub extern "C" fn wekshurag_wave_read(file: &[u8], found: &mut [u64; 5]) -> u32
    ensures { let o = file_read file.now in
        (result ≡ o.answer) × (found.new ≡ told_of o found.old) }
{
    wave::wekshurag_wave_read(file, found)
}
