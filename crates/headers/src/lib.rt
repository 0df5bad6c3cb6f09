// Header readers, one a header, each on the bytes from its header to the end of its room. Any bytes get an answer:
// what the header says, or the first test of document 01 that failed. A reader knows nothing of a walk.
#![tactic(auto)]

ghost use Rattle.std.specs.Prelude.{◌≡◌, ◌≤◌, ◌<◌, OnOk, IfErr};
ghost use Rattle.rules.specs.Paper.{fault_on_paper};
ghost use Rattle.rules.specs.Test.{short};
ghost use Rattle.rules.specs.declared.kind.Layer.TheVariants as L;
ghost use Rattle.rules.specs.declared.refusal.Bound.TheVariants as B;

use rules::{Bound, Fault, Kind, Layer};

pub mod link;
pub mod net;
pub mod transport;

pub use link::ethernet2_header::read_ethernet2;
pub use link::single_vlan_header::read_vlan;
pub use net::ip_auth_header::read_auth;
pub use net::ipv4_header::read_ipv4;
pub use net::ipv6_fragment_header::read_fragment;
pub use net::ipv6_header::read_ipv6;
pub use net::ipv6_raw_ext_header::read_raw_ext;
pub use net::{ExtHeader, IpHeader};
pub use transport::TransportHeader;
pub use transport::tcp_header::read_tcp;
pub use transport::udp_header::read_udp;

// Whether so many bytes of a header of this kind are there, in its room. A test of another layer or bound is made once, where it stands.
fn fits(kind: Kind, required: usize, have: usize) -> Result<(), Fault>
    ensures ok { OnOk result (required ≤ have) }
    ensures err { IfErr result (λ f. (have < required) × (fault_on_paper f ≡ short (L.Of kind) required have B.Room)) }
{
    if have < required {
        return Err(Fault::TooShort {
            required,
            have,
            layer: Layer::Of(kind),
            bound: Bound::Room,
        });
    }
    Ok(())
}
