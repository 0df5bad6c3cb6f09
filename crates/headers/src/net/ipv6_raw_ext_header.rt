// The three extension headers of one shape: hop-by-hop options, routing, destination options (RFC 8200, sections 4.3, 4.4, 4.6).
// Their length byte counts units of eight bytes, the first left out.
ghost use Rattle.std.specs.Prelude.{◌≡◌, ℕ};
ghost use Rattle.headers.specs.Says.{read_on_paper, raw_says};

use crate::fits;
use crate::net::ExtHeader;
use big_endian::byte;
use rules::{Fault, Fragment, IpNumber, Kind, field, length};

// `kind` is only the name that a refusal gives the header.
// `RAW-1` to `RAW-3`
pub fn read_raw_ext(w: &[u8], kind: Kind) -> Result<ExtHeader, Fault>
    ensures answer { (v : ℕ) → read_on_paper result ≡ raw_says kind v w.now }
    ensures unwritten { w.exit.now ≡ w.entry.now }
{
    let have = w.len();
    fits(kind, length::RAW_EXT, have)?;
    let units = usize::from(byte(w, field::EXT_LENGTH));
    let len = (units + 1) * 8;
    fits(kind, len, have)?;
    Ok(ExtHeader {
        len,
        names: IpNumber(byte(w, field::EXT_NEXT_HEADER)),
        fragment: Fragment::Not,
    })
}
