// The UDP header (RFC 768). A length of 0 means the rest of the room (RFC 2675, section 4).
ghost use Rattle.std.specs.Prelude.{◌≡◌, ℕ};
ghost use Rattle.headers.specs.Says.{read_on_paper, udp_says};

use crate::fits;
use crate::transport::TransportHeader;
use big_endian::be16;
use rules::{Bound, Fault, Kind, Layer, field, length};

// `UDP-1` to `UDP-5`
pub fn read_udp(w: &[u8]) -> Result<TransportHeader, Fault>
    ensures answer { (v : ℕ) → read_on_paper result ≡ udp_says v w.now }
    ensures unwritten { w.exit.now ≡ w.entry.now }
{
    let have = w.len();
    fits(Kind::Udp, length::UDP, have)?;
    let end = usize::from(be16(w, field::UDP_LENGTH));
    if end == 0 {
        return Ok(TransportHeader {
            len: length::UDP,
            end: have,
        });
    }
    if end < length::UDP {
        return Err(Fault::TooShort {
            required: length::UDP,
            have: end,
            layer: Layer::Of(Kind::Udp),
            bound: Bound::UdpLength,
        });
    }
    if have < end {
        return Err(Fault::TooShort {
            required: end,
            have,
            layer: Layer::UdpPayload,
            bound: Bound::Room,
        });
    }
    Ok(TransportHeader {
        len: length::UDP,
        end,
    })
}
