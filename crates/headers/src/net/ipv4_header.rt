// The IPv4 header (RFC 791, section 3.1).
ghost use Rattle.std.specs.Prelude.{◌≡◌, ℕ};
ghost use Rattle.headers.specs.Says.{read_on_paper, ip_says};
ghost use Rattle.rules.specs.declared.kind.Kind.TheVariants as K;

use crate::fits;
use crate::net::IpHeader;
use big_endian::{be16, byte};
use rules::{Bound, Fault, Fragment, IpNumber, Kind, Layer, field, length};

// `IP4-1` to `IP4-8`
pub fn read_ipv4(w: &[u8]) -> Result<IpHeader, Fault>
    ensures answer { (v : ℕ) → read_on_paper result ≡ ip_says K.Ipv4 v w.now }
    ensures unwritten { w.exit.now ≡ w.entry.now }
{
    let have = w.len();
    fits(Kind::Ipv4, length::IPV4, have)?;
    let first = usize::from(byte(w, field::IPV4_VERSION_IHL));
    let version = first / 16;
    if version != 4 {
        return Err(Fault::Ipv4Version { version });
    }
    let ihl = first % 16;
    if ihl < length::LEAST_WORDS {
        return Err(Fault::SmallIhl { ihl });
    }
    let len = ihl * 4;
    fits(Kind::Ipv4, len, have)?;
    let total = usize::from(be16(w, field::IPV4_TOTAL_LENGTH));
    if total < len {
        return Err(Fault::TooShort {
            required: len,
            have: total,
            layer: Layer::Ipv4Packet,
            bound: Bound::Ipv4TotalLength,
        });
    }
    if have < total {
        return Err(Fault::TooShort {
            required: total,
            have,
            layer: Layer::Ipv4Packet,
            bound: Bound::Room,
        });
    }
    let word = be16(w, field::IPV4_FRAGMENT);
    let fragment = Fragment::by(word % 0x2000, word / 0x2000 % 2);
    Ok(IpHeader {
        len,
        declared: Some(total),
        names: IpNumber(byte(w, field::IPV4_PROTOCOL)),
        fragment,
    })
}
