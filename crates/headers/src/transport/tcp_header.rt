// The TCP header (RFC 9293, section 3.1). Its payload ends with its room.
ghost use Rattle.std.specs.Prelude.{◌≡◌, ℕ};
ghost use Rattle.headers.specs.Says.{read_on_paper, tcp_says};

use crate::fits;
use crate::transport::TransportHeader;
use big_endian::byte;
use rules::{Fault, Kind, field, length};

// `TCP-1` to `TCP-5`
pub fn read_tcp(w: &[u8]) -> Result<TransportHeader, Fault>
    ensures answer { (v : ℕ) → read_on_paper result ≡ tcp_says v w.now }
    ensures unwritten { w.exit.now ≡ w.entry.now }
{
    let have = w.len();
    fits(Kind::Tcp, length::TCP, have)?;
    let value = usize::from(byte(w, field::TCP_DATA_OFFSET)) / 16;
    if value < length::LEAST_WORDS {
        return Err(Fault::SmallDataOffset { value });
    }
    let len = value * 4;
    fits(Kind::Tcp, len, have)?;
    Ok(TransportHeader { len, end: have })
}
