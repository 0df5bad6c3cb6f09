// Link headers: each has one length, and names what follows by an EtherType.
ghost use Rattle.std.specs.Prelude.{◌≡◌, [], ◌∷◌, length};
ghost use Rattle.rules.specs.declared.kind.Layer.TheVariants as L;
ghost use Rattle.rules.specs.declared.refusal.Bound.TheVariants as B;
ghost use Rattle.rules.specs.Bytes.{byte_at, number};
ghost use Rattle.rules.specs.Test.{judge, fits};
ghost use Rattle.rules.specs.Rules.{ether_type_of};
ghost use Rattle.headers.specs.Says.{read_on_paper};

use crate::fits;
use big_endian::be16;
use rules::{EtherType, Fault, Kind};

pub mod ethernet2_header;
pub mod single_vlan_header;

// The EtherType at a place of a header of this kind, which has so many bytes.
fn read_ether_type(w: &[u8], kind: Kind, required: usize, at: usize) -> Result<EtherType, Fault>
    ensures { read_on_paper result ≡ judge (fits (L.Of kind) required (length w.now) B.Room ∷ []) (ether_type_of (number 2 (byte_at w.now) at)) }
{
    let have = w.len();
    fits(kind, required, have)?;
    Ok(EtherType(be16(w, at)))
}
