// Link headers at a place, and where an EtherType leads.
ghost use Rattle.std.specs.Prelude.{◌≡◌, ℕ};
ghost use Rattle.rules.specs.declared.place.Room.{Room as R};
ghost use Rattle.rules.specs.Rules.{is_tag, link};
ghost use Rattle.headers.specs.Says.{link_says};
ghost use Rattle.one_header.specs.At.{at_on_paper, placing};
ghost use Rattle.one_header.specs.Turns.{link_kind_of, link_turn_on_paper};

use crate::ip::IpKind;
use crate::onward::Onward;
use crate::place::placed;
use rules::ether_type::TAG_LIMIT;
use rules::{EtherType, Kind, Refusal, RoomSource, Stop, Turn, ether_type};

#[derive(Clone, Copy)]
pub enum LinkKind {
    Ethernet2,
    Vlan,
}

// A link header tells the EtherType that it names.
pub fn link_at(
    w: &[u8],
    kind: LinkKind,
    at: usize,
    source: RoomSource,
) -> Result<EtherType, Refusal>
    ensures answer { (v : ℕ) → at_on_paper result ≡ placing (link_says (link_kind_of kind) v w.now) at source }
    ensures unwritten { w.exit.now ≡ w.entry.now }
{
    match kind {
        LinkKind::Ethernet2 => placed(headers::read_ethernet2(w), at, source),
        LinkKind::Vlan => placed(headers::read_vlan(w), at, source),
    }
}

// A tag, or what ends a tag walk: an IP header, or a stop.
#[derive(Clone, Copy)]
pub enum LinkTurn {
    Tag,
    Ends(Onward<IpKind>),
}

impl From<LinkTurn> for Turn {
    ghost from_gives = { λ turn result. result ≡ link_turn_on_paper turn };

    fn from(turn: LinkTurn) -> Turn {
        match turn {
            LinkTurn::Tag => Turn::Opens(Kind::Vlan),
            LinkTurn::Ends(onward) => Turn::from(onward),
        }
    }
}

// `VLAN-3`
#[tactic(auto, unfolding(rules::specs::Rules::is_tag))]
fn is_tag(number: EtherType) -> bool
    ensures { result ≡ is_tag number.0 }
{
    matches!(
        number.0,
        ether_type::VLAN_TAGGED_FRAME
            | ether_type::PROVIDER_BRIDGING
            | ether_type::VLAN_DOUBLE_TAGGED_FRAME
    )
}

// Where an EtherType leads, with so many tags held.
// `LINK-1` to `LINK-3`, `VLAN-4` to `VLAN-6`
#[tactic(auto, unfolding(rules::specs::Rules::link))]
pub fn link_turn(number: EtherType, tags: usize) -> LinkTurn
    ensures { (p : R) → p.tags ≡ tags → link_turn_on_paper result ≡ link p number.0 }
{
    if is_tag(number) {
        if tags < TAG_LIMIT {
            return LinkTurn::Tag;
        }
        return LinkTurn::Ends(Onward::Stops(Stop::TagsFull));
    }
    match number.0 {
        ether_type::IPV4 => LinkTurn::Ends(Onward::Opens(IpKind::Ipv4)),
        ether_type::IPV6 => LinkTurn::Ends(Onward::Opens(IpKind::Ipv6)),
        _ => LinkTurn::Ends(Onward::Stops(Stop::EtherTypeNotOpened)),
    }
}
