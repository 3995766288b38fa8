// The host buffers that the calls of a script lend.
#![tactic(auto)]

ghost use Rattle.std.specs.Prelude.{◌≡◌, ◌-◌, ◌/◌, length};
ghost use Rattle.io.specs.Counts.{IsPrefixLen};
ghost use Rattle.replay_host.specs.Host.{host_buffer, host_filled, host_count, hex_filled, hex_count};

use replay_line::Call;

// What each byte of a host buffer is before a play call.
const HOST_BYTE: u8 = 238;

// The most bytes that are played or captured at once.
pub fn host_buffer() -> [u8; 65536]
    ensures value { 65536 ≡ length result }
    ensures value_2 { result ≡ host_buffer }
{
    [HOST_BYTE; 65536]
}

// How many bytes the HEX is that a text ends with, from `at` on.
fn hex_count(s: &[u8], at: usize) -> usize
    ensures { result ≡ (length s.now - at) / 2 }
{
    s.len().saturating_sub(at) / 2
}

// The bytes of the HEX that a text ends with, from `at` on, written to the host buffer; how many they are.
fn lend_hex(s: &[u8], at: usize, host: &mut [u8]) -> usize
    ensures prefix_len { IsPrefixLen result host.new }
    ensures value { (result ≡ hex_count s.now at (length host.old))
        × (host.new ≡ hex_filled s.now at host.old) }
{
    replay_field::pour_hex(s, at, host, 0);
    replay_memory::within(hex_count(s, at), host)
}

// How many bytes of the host buffer a call of the line `s` lends: a play's count; those of a capture's HEX,
// which are written there; none for the others.
pub fn lend(call: Call, s: &[u8], host: &mut [u8]) -> usize
    ensures prefix_len { IsPrefixLen result host.new }
    ensures value { (result ≡ host_count call s.now (length host.old))
        × (host.new ≡ host_filled call s.now host.old) }
{
    match call {
        Call::Play { count, .. } => replay_memory::within(count, host),
        Call::Capture { place, behind, .. } => {
            let end = replay_memory::within(behind, s);
            lend_hex(&s[..end], place, host)
        }
        Call::Read { .. } | Call::Write { .. } | Call::Control | Call::Event { .. } => 0,
    }
}
