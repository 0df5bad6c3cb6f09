// A VLAN tag, behind the tag type: priority and identifier, then the type of what follows (IEEE 802.1Q, clause 9.6).
ghost use Rattle.std.specs.Prelude.{◌≡◌, ℕ};
ghost use Rattle.headers.specs.Says.{read_on_paper, link_says};
ghost use Rattle.rules.specs.declared.kind.Kind.TheVariants as K;

use crate::link::read_ether_type;
use rules::{EtherType, Fault, Kind, field, length};

// `VLAN-1`, `VLAN-2`
#[tactic(auto, unfolding(rules::specs::Rules::says, rules::specs::Rules::tests_by, rules::specs::Rules::seen_by))]
pub fn read_vlan(w: &[u8]) -> Result<EtherType, Fault>
    ensures answer { (v : ℕ) → read_on_paper result ≡ link_says K.Vlan v w.now }
    ensures unwritten { w.exit.now ≡ w.entry.now }
{
    read_ether_type(w, Kind::Vlan, length::VLAN, field::VLAN_TYPE)
}
