// The Ethernet II header: destination and source address, then the EtherType (IEEE 802.3, clause 3.2.6).
ghost use Rattle.std.specs.Prelude.{◌≡◌, ℕ};
ghost use Rattle.headers.specs.Says.{read_on_paper, link_says};
ghost use Rattle.rules.specs.declared.kind.Kind.TheVariants as K;

use crate::link::read_ether_type;
use rules::{EtherType, Fault, Kind, field, length};

// `ETH-1`, `ETH-2`
#[tactic(auto, unfolding(rules::specs::Rules::says, rules::specs::Rules::tests_by, rules::specs::Rules::seen_by))]
pub fn read_ethernet2(w: &[u8]) -> Result<EtherType, Fault>
    ensures answer { (v : ℕ) → read_on_paper result ≡ link_says K.Ethernet2 v w.now }
    ensures unwritten { w.exit.now ≡ w.entry.now }
{
    read_ether_type(w, Kind::Ethernet2, length::ETHERNET2, field::ETHERNET2_TYPE)
}
