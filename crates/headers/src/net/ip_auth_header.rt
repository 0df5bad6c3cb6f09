// The IP authentication header (RFC 4302, section 2). Its length byte counts words of four bytes, two less than there are.
ghost use Rattle.std.specs.Prelude.{◌≡◌, ℕ};
ghost use Rattle.headers.specs.Says.{read_on_paper, ext_says};
ghost use Rattle.rules.specs.declared.kind.Kind.TheVariants as K;

use crate::fits;
use crate::net::ExtHeader;
use big_endian::byte;
use rules::{Fault, Fragment, IpNumber, Kind, field, length};

// `AUTH-1` to `AUTH-4`
pub fn read_auth(w: &[u8]) -> Result<ExtHeader, Fault>
    ensures answer { (v : ℕ) → read_on_paper result ≡ ext_says K.Auth v w.now }
    ensures unwritten { w.exit.now ≡ w.entry.now }
{
    let have = w.len();
    fits(Kind::Auth, length::AUTH, have)?;
    let words = usize::from(byte(w, field::EXT_LENGTH));
    if words == 0 {
        return Err(Fault::ZeroAuthLength);
    }
    let len = (words + 2) * 4;
    fits(Kind::Auth, len, have)?;
    Ok(ExtHeader {
        len,
        names: IpNumber(byte(w, field::EXT_NEXT_HEADER)),
        fragment: Fragment::Not,
    })
}
