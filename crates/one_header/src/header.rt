// A header of any kind at a place, for a walk that goes from header to header.
ghost use Rattle.std.specs.Prelude.{◌≡◌, ℕ, length, eqb};
ghost use Rattle.rules.specs.declared.place.Room.{Room as R};
ghost use Rattle.one_header.specs.At.{at_on_paper};
ghost use Rattle.rules.specs.Rules.{transport};
ghost use Rattle.one_header.specs.Turns.{version_of, first_turn, later_turn, turn_by};
ghost use Rattle.one_header.specs.Header.{
  header_read_on_paper,
  link_header,
  ip_header,
  ext_header,
  transport_header,
  read_part,
};

use crate::ext::{ExtKind, ExtTurn, ext_at, ext_turn};
use crate::ip::{IpFound, IpKind, ip_at, opens_auth};
use crate::link::{LinkKind, link_at, link_turn};
use crate::transport::{TransportKind, stop_behind, transport_at, transport_turn};
use headers::{ExtHeader, TransportHeader};
use rules::{
    ChainPlace, EtherType, IpNumber, Kind, Number, Refusal, Room, RoomSource, Turn, ip_number,
    length,
};

// What a whole header says: its length, the room that it leaves, the number that it names, where that leads, and where the payload
// ends if that is nowhere. Both ends are counted from the header. Flat, since whatever is nested is copied at each step. Between two small fields
// stands a large one: small fields of one word are put together and taken apart at each step, and the count takes 56 instructions an extension for 42.
#[derive(Clone, Copy)]
pub struct HeaderFound {
    pub len: usize,
    pub turn: Turn,
    pub end: usize,
    pub source: RoomSource,
    pub version: usize,
    pub mark: bool,
    pub to: usize,
    pub number: Number,
}

fn link_header(
    read: Result<EtherType, Refusal>,
    len: usize,
    have: usize,
    room: Room,
) -> Result<HeaderFound, Refusal>
    ensures { (at : ℕ) → header_read_on_paper result at room ≡ link_header (at_on_paper read) len have at room }
{
    let number = read?;
    Ok(HeaderFound {
        len,
        end: have,
        to: have,
        version: room.version,
        number: Number::Link(number),
        turn: Turn::from(link_turn(number, room.tags)),
        source: room.source,
        mark: room.mark,
    })
}

// What the number of an IP header of a version opens.
#[tactic(auto, using(crate::specs::Turns::chain6_is, crate::specs::Turns::chain4_auth, crate::specs::Turns::chain4_plain))]
fn first_turn(number: IpNumber, version: IpKind) -> ExtTurn
    ensures { (p : R) → first_turn (version_of version) p number.0 ≡ turn_by result (transport p number.0) }
{
    match version {
        IpKind::Ipv4 => {
            if opens_auth(number) {
                return ExtTurn::Opens(ExtKind::Auth);
            }
            ExtTurn::Ends
        }
        IpKind::Ipv6 => ext_turn(number, ChainPlace::Directly),
    }
}

// What the number of an extension opens, in the chain of an IP version.
#[tactic(auto, using(crate::specs::Turns::chain6_is))]
fn later_turn(number: IpNumber, chain: IpKind) -> ExtTurn
    ensures { (p : R) → later_turn (version_of chain) p number.0 ≡ turn_by result (transport p number.0) }
{
    match chain {
        IpKind::Ipv4 => ExtTurn::Ends,
        IpKind::Ipv6 => ext_turn(number, ChainPlace::Later),
    }
}

// The chain that AUTH belongs to, by the version that a room tells: a room is the caller's, and may tell any number.
fn chain_of(version: usize) -> IpKind
    ensures { eqb (version_of result) 4 ≡ eqb version 4 }
{
    if version == 4 {
        return IpKind::Ipv4;
    }
    IpKind::Ipv6
}

fn net_turn(turn: ExtTurn, number: IpNumber, mark: bool) -> Turn
    ensures { (p : R) → p.mark ≡ mark → result ≡ turn_by turn (transport p number.0) }
{
    match turn {
        ExtTurn::Opens(kind) => Turn::Opens(Kind::from(kind)),
        ExtTurn::LateHopByHop => Turn::LateHopByHop,
        ExtTurn::Ends => Turn::from(transport_turn(number, mark)),
    }
}

fn ip_header(read: Result<IpFound, Refusal>, version: IpKind) -> Result<HeaderFound, Refusal>
    ensures { (at : ℕ) (p : R) → header_read_on_paper result at p ≡ ip_header (at_on_paper read) (version_of version) at p }
{
    let x = read?;
    let mark = x.fragment.marks(false);
    let first = first_turn(x.names, version);
    Ok(HeaderFound {
        len: x.len,
        end: x.end,
        to: x.end,
        version: version.number(),
        number: Number::Ip(x.names),
        turn: net_turn(first, x.names, mark),
        source: x.source,
        mark,
    })
}

// AUTH belongs to the chain of its packet's version; the others are IPv6's.
fn ext_header(
    read: Result<ExtHeader, Refusal>,
    chain: IpKind,
    have: usize,
    room: Room,
) -> Result<HeaderFound, Refusal>
    ensures { (at : ℕ) → header_read_on_paper result at room ≡ ext_header (at_on_paper read) (version_of chain) have at room }
{
    let x = read?;
    let mark = x.fragment.marks(room.mark);
    let later = later_turn(x.names, chain);
    Ok(HeaderFound {
        len: x.len,
        end: have,
        to: have,
        version: room.version,
        number: Number::Ip(x.names),
        turn: net_turn(later, x.names, mark),
        source: room.source,
        mark,
    })
}

fn transport_header(
    read: Result<TransportHeader, Refusal>,
    number: u8,
    have: usize,
    room: Room,
) -> Result<HeaderFound, Refusal>
    ensures { (at : ℕ) → header_read_on_paper result at room ≡ transport_header (at_on_paper read) number have at room }
{
    let x = read?;
    Ok(HeaderFound {
        len: x.len,
        end: have,
        to: x.end,
        version: room.version,
        number: Number::Ip(IpNumber(number)),
        turn: Turn::Stops(stop_behind()),
        source: room.source,
        mark: room.mark,
    })
}

// The header of a kind at the begin of the bytes w, which stand at `at` and reach to their room's end. Where that room ends, `w` says,
// and not `room`. A `match`, since the kinds are closed and each has a step of its own.
pub fn header_at(w: &[u8], kind: Kind, at: usize, room: Room) -> Result<HeaderFound, Refusal>
    ensures answer { header_read_on_paper result at room ≡ read_part w.now kind at room }
    ensures unwritten { w.exit.now ≡ w.entry.now }
{
    let source = room.source;
    let have = w.len();
    match kind {
        Kind::Ethernet2 => link_header(
            link_at(w, LinkKind::Ethernet2, at, source),
            length::ETHERNET2,
            have,
            room,
        ),
        Kind::Vlan => link_header(
            link_at(w, LinkKind::Vlan, at, source),
            length::VLAN,
            have,
            room,
        ),
        Kind::Ipv4 => ip_header(ip_at(w, IpKind::Ipv4, at, source), IpKind::Ipv4),
        Kind::Ipv6 => ip_header(ip_at(w, IpKind::Ipv6, at, source), IpKind::Ipv6),
        Kind::HopByHop => ext_header(
            ext_at(w, ExtKind::HopByHop, at, source),
            IpKind::Ipv6,
            have,
            room,
        ),
        Kind::Routing => ext_header(
            ext_at(w, ExtKind::Routing, at, source),
            IpKind::Ipv6,
            have,
            room,
        ),
        Kind::Destination => ext_header(
            ext_at(w, ExtKind::Destination, at, source),
            IpKind::Ipv6,
            have,
            room,
        ),
        Kind::Fragment => ext_header(
            ext_at(w, ExtKind::Fragment, at, source),
            IpKind::Ipv6,
            have,
            room,
        ),
        Kind::Auth => ext_header(
            ext_at(w, ExtKind::Auth, at, source),
            chain_of(room.version),
            have,
            room,
        ),
        Kind::Udp => transport_header(
            transport_at(w, TransportKind::Udp, at, source),
            ip_number::UDP,
            have,
            room,
        ),
        Kind::Tcp => transport_header(
            transport_at(w, TransportKind::Tcp, at, source),
            ip_number::TCP,
            have,
            room,
        ),
    }
}
