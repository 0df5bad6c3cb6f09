// IP headers at a place: the room that each sets.
ghost use Rattle.std.specs.Prelude.{◌≡◌, ℕ, length, eqb};
ghost use Rattle.rules.specs.Numbers.{auth_number};
ghost use Rattle.headers.specs.Says.{read_on_paper, ip_says};
ghost use Rattle.one_header.specs.At.{at_on_paper, placing, over, setting};
ghost use Rattle.one_header.specs.Turns.{ip_kind_of, sets_of, version_of};

use crate::place::placed;
use headers::IpHeader;
use rules::{Fault, Fragment, IpNumber, Kind, Refusal, RoomSource, ip_number};

#[derive(Clone, Copy)]
pub enum IpKind {
    Ipv4,
    Ipv6,
}

impl From<IpKind> for Kind {
    ghost from_gives = { λ kind result. result ≡ ip_kind_of kind };

    fn from(kind: IpKind) -> Kind {
        match kind {
            IpKind::Ipv4 => Kind::Ipv4,
            IpKind::Ipv6 => Kind::Ipv6,
        }
    }
}

impl IpKind {
    // The version that stands in the header. A method and no `From`: `usize::from(kind)` doesn't say which number.
    pub fn number(self) -> usize
        ensures { result ≡ version_of self }
    {
        match self {
            IpKind::Ipv4 => 4,
            IpKind::Ipv6 => 6,
        }
    }
}

// The room that a header of this kind declares is set by it.
impl From<IpKind> for RoomSource {
    ghost from_gives = { λ kind result. result ≡ sets_of kind };

    fn from(kind: IpKind) -> RoomSource {
        match kind {
            IpKind::Ipv4 => RoomSource::Ipv4,
            IpKind::Ipv6 => RoomSource::Ipv6,
        }
    }
}

// An IP header and the room that it sets: where that ends, counted from the header, and what set it.
#[derive(Clone, Copy)]
pub struct IpFound {
    pub len: usize,
    pub end: usize,
    pub source: RoomSource,
    pub names: IpNumber,
    pub fragment: Fragment,
}

// The room that a header sets, in a room that ends `have` bytes from it: a header that declares no length keeps that room.
// `ROOM-4`, `ROOM-5`
fn set_room(x: IpHeader, have: usize, sets: RoomSource, source: RoomSource) -> IpFound
    ensures { result ≡ setting x have sets source }
{
    let (end, source) = match x.declared {
        None => (have, source),
        Some(end) => (end, sets),
    };
    IpFound {
        len: x.len,
        end,
        source,
        names: x.names,
        fragment: x.fragment,
    }
}

// What was read of a header of this kind, at its place, in a room that ends `have` bytes from it.
fn place_ip(
    read: Result<IpHeader, Fault>,
    have: usize,
    kind: IpKind,
    at: usize,
    source: RoomSource,
) -> Result<IpFound, Refusal>
    ensures { at_on_paper result ≡ placing (over (λ x. setting x have (sets_of kind) source) (read_on_paper read)) at source }
{
    let x = placed(read, at, source)?;
    Ok(set_room(x, have, RoomSource::from(kind), source))
}

pub fn ip_at(w: &[u8], kind: IpKind, at: usize, source: RoomSource) -> Result<IpFound, Refusal>
    ensures answer { (v : ℕ) → at_on_paper result ≡ placing (over (λ x. setting x (length w.now) (sets_of kind) source) (ip_says (ip_kind_of kind) v w.now)) at source }
    ensures unwritten { w.exit.now ≡ w.entry.now }
{
    let have = w.len();
    match kind {
        IpKind::Ipv4 => place_ip(headers::read_ipv4(w), have, IpKind::Ipv4, at, source),
        IpKind::Ipv6 => place_ip(headers::read_ipv6(w), have, IpKind::Ipv6, at, source),
    }
}

// Whether an IPv4 header's number opens its one AUTH header.
// `EXT-5`, `EXT-6`
pub fn opens_auth(number: IpNumber) -> bool
    ensures { result ≡ eqb number.0 auth_number }
{
    number.0 == ip_number::AUTH
}
