// Answers made what is handed over the boundary.
ghost use Rattle.std.specs.Prelude.{◌≡◌, [], map, None};
ghost use Rattle.rules.specs.Numbers.{tag_limit};
ghost use Rattle.rules.specs.Paper.{refusal_on_paper};
ghost use Rattle.rules.specs.Place.{ending_on_paper};
ghost use Rattle.slicer.specs.Reply.{refused_by};
ghost use Rattle.steps.specs.Lists.{count_on_paper};
ghost use Rattle.tcp_options.specs.Paper.{kind_on_paper, option_on_paper};
ghost use Rattle.exports.specs.Handed.{
  range_of,
  header_or_none,
  no_net,
  net_by,
  number_of,
  numbering_of,
  no_row,
  unread,
  no_parts,
  accepted_with,
  packet_by,
  slice_for,
  count_answer_by,
  count_for,
  is_known,
  no_option_row,
  option_by,
};

use crate::handed::{
    CountReply, ETHER_TYPE, IP_NUMBER, NO_MORE, NO_SUCH_ENTRY, Net, OptionReply, Packet, REFUSED,
    THERE,
};
use rules::ether_type::TAG_LIMIT;
use rules::{Header, Number, Range, Refusal, Row};
use slicer::{IpPart, SlicedPacket};
use tcp_options::{OptionKind, OptionRefusal, OptionRow, TcpOption};

// A header that was found, or zeros.
fn header_or_none(found: Option<Header>) -> Header
    ensures { result ≡ header_or_none found }
{
    found.unwrap_or_default()
}

impl From<IpPart> for Net {
    ghost from_gives = { λ ip net. net ≡ net_by ip };

    fn from(ip: IpPart) -> Net {
        Net {
            header: ip.header,
            exts: ip.exts,
            fragmented: ip.fragmented,
        }
    }
}

// C's numbers for it: a C struct holds no enum with values.
fn number_of(number: Number) -> usize
    ensures { result ≡ number_of number }
{
    match number {
        Number::Link(ether_type) => usize::from(ether_type.0),
        Number::Ip(ip_number) => usize::from(ip_number.0),
    }
}

fn numbering(number: Number) -> usize
    ensures { result ≡ numbering_of number }
{
    match number {
        Number::Link(_) => ETHER_TYPE,
        Number::Ip(_) => IP_NUMBER,
    }
}

fn ranges(tags: [Header; TAG_LIMIT]) -> [Range; TAG_LIMIT]
    ensures { result ≡ map range_of tags }
{
    tags.map(|tag| Range {
        at: tag.at,
        len: tag.len,
    })
}

// The packet of an accepted frame, its IP header handed over as `net`.
pub fn accepted_packet(sliced: SlicedPacket, net: Net) -> Packet
    ensures { result ≡ accepted_with sliced net (ending_on_paper sliced.ending) }
{
    let ending = sliced.ending;
    Packet {
        status: THERE,
        link: header_or_none(sliced.link),
        count: sliced.count,
        tags: ranges(sliced.tags),
        net,
        transport: header_or_none(sliced.transport),
        payload: ending.payload,
        number: number_of(ending.number),
        numbering: numbering(ending.number),
        stop: ending.stop.number(),
        refusal: Row::default(),
    }
}

// A packet that tells of no part.
#[tactic(auto, unfolding(slicer::specs::Reply::slots))]
fn partless(status: usize, refusal: Row) -> Packet
    ensures { result ≡ no_parts (unread status refusal) }
{
    Packet {
        status,
        refusal,
        ..Packet::default()
    }
}

pub fn refused_packet(refusal: Refusal) -> Packet
    ensures { result ≡ packet_by (refused_by (refusal_on_paper refusal)) }
{
    partless(REFUSED, Row::from(refusal))
}

// The answer to a number that no entry has.
pub fn no_packet() -> Packet
    ensures { result ≡ slice_for None [] }
{
    partless(NO_SUCH_ENTRY, Row::default())
}

impl From<Result<usize, Refusal>> for CountReply {
    ghost from_gives = { λ counted reply. reply ≡ count_answer_by (count_on_paper counted) };

    fn from(counted: Result<usize, Refusal>) -> CountReply {
        match counted {
            Ok(count) => CountReply {
                status: THERE,
                count,
                ..CountReply::default()
            },
            Err(refusal) => CountReply {
                status: REFUSED,
                refusal: Row::from(refusal),
                ..CountReply::default()
            },
        }
    }
}

// The count of a number that no entry has.
pub fn no_count() -> CountReply
    ensures { result ≡ count_for None [] }
{
    CountReply {
        status: NO_SUCH_ENTRY,
        ..CountReply::default()
    }
}

fn is_known(kind: OptionKind) -> bool
    ensures { result ≡ is_known (kind_on_paper kind) }
{
    !matches!(kind, OptionKind::Unknown(_))
}

impl From<Result<Option<TcpOption>, OptionRefusal>> for OptionReply {
    ghost from_gives = { λ answer reply. reply ≡ option_by (option_on_paper answer) };

    fn from(answer: Result<Option<TcpOption>, OptionRefusal>) -> OptionReply {
        match answer {
            Ok(Some(option)) => OptionReply {
                status: THERE,
                kind: usize::from(option.kind.number()),
                at: option.at,
                len: option.len,
                known: is_known(option.kind),
                ..OptionReply::default()
            },
            Ok(None) => OptionReply {
                status: NO_MORE,
                ..OptionReply::default()
            },
            Err(refusal) => OptionReply {
                status: REFUSED,
                refusal: OptionRow::from(refusal),
                ..OptionReply::default()
            },
        }
    }
}
