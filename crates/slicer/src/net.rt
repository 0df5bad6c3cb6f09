// The net leg: an IPv4 header with its AUTH, or an IPv6 header with its extensions, up to the number that ends them. It takes the
// room that its header stands in.
ghost use Rattle.rules.specs.declared.kind.Kind.TheVariants as K;
ghost use Rattle.one_header.specs.Turns.{ip_kind_of};
ghost use Rattle.slicer.specs.Legs.{Extended, Netted, leg_on_paper};

use crate::packet::IpPart;
use crate::room::RoomSlice;
use one_header::{ExtKind, ExtTurn, IpKind, ext_at, ext_turn, ip_at, opens_auth};
use rules::{ChainPlace, Header, IpNumber, Kind, Range, Refusal};

// An IP header with its extensions, what is left of its room behind them, and the number that names what follows.
#[derive(Clone, Copy)]
pub struct NetFound<'a> {
    pub number: IpNumber,
    pub ip: IpPart,
    pub room: RoomSlice<'a>,
}

// Where an extension chain ends.
#[derive(Clone, Copy)]
pub struct ExtsFound {
    pub at: usize,
    pub number: IpNumber,
    pub mark: bool,
}

// IPv4 opens AUTH at most, and once. Apart from the chain of IPv6: one loop for both was tried and takes more (docs/SPEED.md).
fn ipv4_exts_slice(room: RoomSlice, begin: IpNumber, marked: bool) -> Result<ExtsFound, Refusal>
    ensures { Extended room.entry K.Ipv4 begin marked (leg_on_paper result) }
{
    if !opens_auth(begin) {
        return Ok(ExtsFound {
            at: room.at,
            number: begin,
            mark: marked,
        });
    }
    let x = ext_at(
        &room.frame[room.at..room.end],
        ExtKind::Auth,
        room.at,
        room.source,
    )?;
    Ok(ExtsFound {
        at: room.at + x.len,
        number: x.names,
        mark: x.fragment.marks(marked),
    })
}

// A loop, so that the stack does not grow with the chain.
fn ipv6_exts_slice(room: RoomSlice, begin: IpNumber, marked: bool) -> Result<ExtsFound, Refusal>
    ensures { Extended room.entry K.Ipv6 begin marked (leg_on_paper result) }
{
    let mut number = begin;
    let mut at = room.at;
    let mut mark = marked;
    let mut place = ChainPlace::Directly;
    loop {
        match ext_turn(number, place) {
            ExtTurn::Opens(kind) => {
                let x = ext_at(&room.frame[at..room.end], kind, at, room.source)?;
                number = x.names;
                at += x.len;
                mark = x.fragment.marks(mark);
                place = ChainPlace::Later;
            }
            ExtTurn::LateHopByHop => {
                return Err(Refusal::HopByHopNotAtStart { offset: at });
            }
            ExtTurn::Ends => {
                return Ok(ExtsFound { at, number, mark });
            }
        }
    }
}

// The extensions of an IP header of a version, from the number that it names on.
fn ip_exts_slice(
    room: RoomSlice,
    kind: IpKind,
    begin: IpNumber,
    marked: bool,
) -> Result<ExtsFound, Refusal>
    ensures { Extended room.entry (ip_kind_of kind) begin marked (leg_on_paper result) }
{
    match kind {
        IpKind::Ipv4 => ipv4_exts_slice(room, begin, marked),
        IpKind::Ipv6 => ipv6_exts_slice(room, begin, marked),
    }
}

pub fn slice_ip(room: RoomSlice<'_>, kind: IpKind) -> Result<NetFound<'_>, Refusal>
    ensures { Netted room.entry (ip_kind_of kind) (leg_on_paper result) }
{
    let x = ip_at(&room.frame[room.at..room.end], kind, room.at, room.source)?;
    let inner = RoomSlice {
        frame: room.frame,
        at: room.at + x.len,
        end: room.at + x.end,
        source: x.source,
    };
    let exts = ip_exts_slice(inner, kind, x.names, x.fragment.marks(false))?;
    Ok(NetFound {
        ip: IpPart {
            header: Header {
                kind: Kind::from(kind).number(),
                at: room.at,
                len: x.len,
            },
            exts: Range {
                at: inner.at,
                len: exts.at - inner.at,
            },
            fragmented: exts.mark,
        },
        room: RoomSlice {
            frame: inner.frame,
            at: exts.at,
            end: inner.end,
            source: inner.source,
        },
        number: exts.number,
    })
}
