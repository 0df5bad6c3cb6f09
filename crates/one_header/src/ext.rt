// Extension headers at a place, and where a number of an IPv6 chain leads.
ghost use Rattle.std.specs.Prelude.{◌≡◌, ℕ};
ghost use Rattle.headers.specs.Says.{ext_says};
ghost use Rattle.one_header.specs.At.{at_on_paper, placing};
ghost use Rattle.one_header.specs.Turns.{ext_kind_of, ext_turn};

use crate::place::placed;
use headers::ExtHeader;
use rules::{ChainPlace, IpNumber, Kind, Refusal, RoomSource, ip_number};

#[derive(Clone, Copy)]
pub enum ExtKind {
    HopByHop,
    Routing,
    Destination,
    Fragment,
    Auth,
}

impl From<ExtKind> for Kind {
    ghost from_gives = { λ kind result. result ≡ ext_kind_of kind };

    fn from(kind: ExtKind) -> Kind {
        match kind {
            ExtKind::HopByHop => Kind::HopByHop,
            ExtKind::Routing => Kind::Routing,
            ExtKind::Destination => Kind::Destination,
            ExtKind::Fragment => Kind::Fragment,
            ExtKind::Auth => Kind::Auth,
        }
    }
}

pub fn ext_at(w: &[u8], kind: ExtKind, at: usize, source: RoomSource) -> Result<ExtHeader, Refusal>
    ensures answer { (v : ℕ) → at_on_paper result ≡ placing (ext_says (ext_kind_of kind) v w.now) at source }
    ensures unwritten { w.exit.now ≡ w.entry.now }
{
    match kind {
        ExtKind::HopByHop => placed(headers::read_raw_ext(w, Kind::HopByHop), at, source),
        ExtKind::Routing => placed(headers::read_raw_ext(w, Kind::Routing), at, source),
        ExtKind::Destination => placed(headers::read_raw_ext(w, Kind::Destination), at, source),
        ExtKind::Fragment => placed(headers::read_fragment(w), at, source),
        ExtKind::Auth => placed(headers::read_auth(w), at, source),
    }
}

// A number of a chain: an extension, a hop-by-hop header that is not at the start, or the chain's end.
#[derive(Clone, Copy)]
pub enum ExtTurn {
    Opens(ExtKind),
    LateHopByHop,
    Ends,
}

// `EXT-1` to `EXT-4`
#[tactic(auto, unfolding(crate::specs::Turns::ext_turn))]
pub fn ext_turn(number: IpNumber, place: ChainPlace) -> ExtTurn
    ensures { result ≡ ext_turn place number.0 }
{
    match number.0 {
        ip_number::IPV6_HOP_BY_HOP => match place {
            ChainPlace::Directly => ExtTurn::Opens(ExtKind::HopByHop),
            ChainPlace::Later => ExtTurn::LateHopByHop,
        },
        ip_number::IPV6_ROUTE => ExtTurn::Opens(ExtKind::Routing),
        ip_number::IPV6_DEST_OPTIONS => ExtTurn::Opens(ExtKind::Destination),
        ip_number::IPV6_FRAG => ExtTurn::Opens(ExtKind::Fragment),
        ip_number::AUTH => ExtTurn::Opens(ExtKind::Auth),
        _ => ExtTurn::Ends,
    }
}
