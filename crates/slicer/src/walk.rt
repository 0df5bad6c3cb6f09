// Slicing a frame: link, net and transport leg, then the reply in one piece.
ghost use Rattle.std.specs.Prelude.{◌≡◌, Ok};
ghost use Rattle.rules.specs.declared.entry.Entry.TheVariants as E;
ghost use Rattle.rules.specs.Numbers.{ethernet_length, tag_limit};
ghost use Rattle.rules.specs.Place.{ending_on_paper};
ghost use Rattle.slicer.specs.Reply.{packet_on_paper, accepted_by, reply_of, slots};
ghost use Rattle.slicer.specs.Legs.{tags_from, found_by, behind_link};

use crate::link::{LinkFound, slice_link};
use crate::net::slice_ip;
use crate::packet::{IpPart, SlicedPacket};
use crate::transport::slice_transport;
use one_header::{IpKind, Onward};
use rules::ether_type::TAG_LIMIT;
use rules::{Ending, Entry, Header, Kind, Number, Refusal, length};
use std::array;

// Tags stand one behind the other from the Ethernet header on, so their count tells where each is.
fn tag_headers(count: usize) -> [Header; TAG_LIMIT]
    ensures { result ≡ slots tag_limit (tags_from ethernet_length count) }
{
    array::from_fn(|i| {
        if i < count {
            Header {
                kind: Kind::Vlan.number(),
                at: length::ETHERNET2 + i * length::VLAN,
                len: length::VLAN,
            }
        } else {
            Header::default()
        }
    })
}

// The reply of an accepted frame.
fn accepted(
    front: LinkFound,
    net: Option<IpPart>,
    transport: Option<Header>,
    ending: Ending,
) -> SlicedPacket
    ensures { packet_on_paper (Ok result) ≡ accepted_by (found_by front.entry net transport) (ending_on_paper ending) }
{
    SlicedPacket {
        tags: tag_headers(front.tags),
        count: front.tags,
        net,
        link: front.linked.then_some(Header {
            kind: Kind::Ethernet2.number(),
            at: 0,
            len: length::ETHERNET2,
        }),
        transport,
        ending,
    }
}

// From an IP header behind the link on. Apart from `slice`, whose two ways would call `accepted` twice: it takes 401 instructions then for 250.
fn behind_link(front: LinkFound, kind: IpKind) -> Result<SlicedPacket, Refusal>
    ensures { packet_on_paper result ≡ behind_link front.entry kind }
{
    let net = slice_ip(front.room, kind)?;
    let found = slice_transport(net.room, net.number, net.ip.fragmented)?;
    Ok(accepted(front, Some(net.ip), found.transport, found.ending))
}

// Any bytes, of any length, get their reply.
pub fn slice(s: &[u8], entry: Entry) -> Result<SlicedPacket, Refusal>
    ensures reply { packet_on_paper result ≡ reply_of entry s.now }
    ensures unwritten { s.exit.now ≡ s.entry.now }
{
    let front = slice_link(s, entry)?;
    match front.turn {
        Onward::Opens(kind) => behind_link(front, kind),
        Onward::Stops(stop) => {
            let ending = Ending {
                payload: front.room.payload(),
                number: Number::Link(front.number),
                stop,
            };
            Ok(accepted(front, None, None, ending))
        }
    }
}

// A function for each entry, by the names of the crate etherparse, which documents name.
impl SlicedPacket {
    // A whole Ethernet II frame, without the frame check sequence.
    pub fn from_ethernet(s: &[u8]) -> Result<Self, Refusal>
        ensures reply { packet_on_paper result ≡ reply_of E.Ethernet s.now }
        ensures unwritten { s.exit.now ≡ s.entry.now }
    {
        slice(s, Entry::Ethernet)
    }

    // A packet known to be IPv4.
    pub fn from_ipv4(s: &[u8]) -> Result<Self, Refusal>
        ensures reply { packet_on_paper result ≡ reply_of E.Ipv4 s.now }
        ensures unwritten { s.exit.now ≡ s.entry.now }
    {
        slice(s, Entry::Ipv4)
    }

    // A packet known to be IPv6.
    pub fn from_ipv6(s: &[u8]) -> Result<Self, Refusal>
        ensures reply { packet_on_paper result ≡ reply_of E.Ipv6 s.now }
        ensures unwritten { s.exit.now ≡ s.entry.now }
    {
        slice(s, Entry::Ipv6)
    }
}
