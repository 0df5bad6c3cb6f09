// The IPv6 header (RFC 8200, section 3).
ghost use Rattle.std.specs.Prelude.{◌≡◌, ℕ};
ghost use Rattle.headers.specs.Says.{read_on_paper, ip_says};
ghost use Rattle.rules.specs.declared.kind.Kind.TheVariants as K;

use crate::fits;
use crate::net::IpHeader;
use big_endian::{be16, byte};
use rules::{Bound, Fault, Fragment, IpNumber, Kind, Layer, field, length};

// `IP6-1` to `IP6-4`
pub fn read_ipv6(w: &[u8]) -> Result<IpHeader, Fault>
    ensures answer { (v : ℕ) → read_on_paper result ≡ ip_says K.Ipv6 v w.now }
    ensures unwritten { w.exit.now ≡ w.entry.now }
{
    let have = w.len();
    fits(Kind::Ipv6, length::IPV6, have)?;
    let version = usize::from(byte(w, field::IPV6_VERSION)) / 16;
    if version != 6 {
        return Err(Fault::Ipv6Version { version });
    }
    let payload = usize::from(be16(w, field::IPV6_PAYLOAD_LENGTH));
    let names = IpNumber(byte(w, field::IPV6_NEXT_HEADER));
    if payload == 0 {
        return Ok(IpHeader {
            len: length::IPV6,
            declared: None,
            names,
            fragment: Fragment::Not,
        });
    }
    let declared = length::IPV6 + payload;
    if have < declared {
        return Err(Fault::TooShort {
            required: declared,
            have,
            layer: Layer::Ipv6Packet,
            bound: Bound::Room,
        });
    }
    Ok(IpHeader {
        len: length::IPV6,
        declared: Some(declared),
        names,
        fragment: Fragment::Not,
    })
}
