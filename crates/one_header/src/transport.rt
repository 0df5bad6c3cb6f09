// Transport headers at a place, and where the number behind the last extension leads.
ghost use Rattle.std.specs.Prelude.{◌≡◌, ℕ};
ghost use Rattle.rules.specs.declared.place.Room.{Room as R};
ghost use Rattle.rules.specs.declared.stop.Stop.TheVariants as S;
ghost use Rattle.rules.specs.Rules.{transport};
ghost use Rattle.headers.specs.Says.{read_on_paper};
ghost use Rattle.one_header.specs.At.{at_on_paper, placing, transport_says};
ghost use Rattle.one_header.specs.Turns.{transport_kind_of, transport_turn_on_paper};

use crate::onward::Onward;
use crate::place::placed;
use headers::TransportHeader;
use rules::{IpNumber, Kind, Refusal, RoomSource, Stop, Turn, ip_number};

#[derive(Clone, Copy)]
pub enum TransportKind {
    Udp,
    Tcp,
}

impl From<TransportKind> for Kind {
    ghost from_gives = { λ kind result. result ≡ transport_kind_of kind };

    fn from(kind: TransportKind) -> Kind {
        match kind {
            TransportKind::Udp => Kind::Udp,
            TransportKind::Tcp => Kind::Tcp,
        }
    }
}

pub fn transport_at(
    w: &[u8],
    kind: TransportKind,
    at: usize,
    source: RoomSource,
) -> Result<TransportHeader, Refusal>
    ensures answer { (v : ℕ) → at_on_paper result ≡ placing (transport_says kind v w.now) at source }
    ensures unwritten { w.exit.now ≡ w.entry.now }
{
    match kind {
        TransportKind::Udp => placed(headers::read_udp(w), at, source),
        TransportKind::Tcp => placed(headers::read_tcp(w), at, source),
    }
}

// Why a walk stops behind a transport header.
// `TRANS-5`
pub fn stop_behind() -> Stop
    ensures { result ≡ S.TransportRead }
{
    Stop::TransportRead
}

// Where a number leads that opens no extension, in a packet that is marked as fragmented or is not.
// `TRANS-1` to `TRANS-4`
#[tactic(auto, unfolding(rules::specs::Rules::transport))]
pub fn transport_turn(number: IpNumber, mark: bool) -> Onward<TransportKind>
    ensures { (p : R) → p.mark ≡ mark → transport_turn_on_paper result ≡ transport p number.0 }
{
    if mark {
        return Onward::Stops(Stop::Fragment);
    }
    match number.0 {
        ip_number::UDP => Onward::Opens(TransportKind::Udp),
        ip_number::TCP => Onward::Opens(TransportKind::Tcp),
        _ => Onward::Stops(Stop::IpNumberNotOpened),
    }
}
