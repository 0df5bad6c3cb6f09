// The IPv6 fragment header (RFC 8200, section 4.5).
ghost use Rattle.std.specs.Prelude.{◌≡◌, ℕ};
ghost use Rattle.headers.specs.Says.{read_on_paper, ext_says};
ghost use Rattle.rules.specs.declared.kind.Kind.TheVariants as K;

use crate::fits;
use crate::net::ExtHeader;
use big_endian::{be16, byte};
use rules::{Fault, Fragment, IpNumber, Kind, field, length};

// `FRAG-1` to `FRAG-3`
pub fn read_fragment(w: &[u8]) -> Result<ExtHeader, Fault>
    ensures answer { (v : ℕ) → read_on_paper result ≡ ext_says K.Fragment v w.now }
    ensures unwritten { w.exit.now ≡ w.entry.now }
{
    let have = w.len();
    fits(Kind::Fragment, length::FRAGMENT, have)?;
    let word = be16(w, field::FRAGMENT_OFFSET);
    let fragment = Fragment::by(word / 8, word % 2);
    Ok(ExtHeader {
        len: length::FRAGMENT,
        names: IpNumber(byte(w, field::EXT_NEXT_HEADER)),
        fragment,
    })
}
