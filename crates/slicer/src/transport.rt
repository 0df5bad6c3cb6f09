// The transport leg: a UDP or TCP header, or why none is opened.
ghost use Rattle.std.specs.Prelude.{◌≡◌, ◌+◌, ◌≤◌, ◌<◌, ◌^◌};
ghost use Rattle.slicer.specs.Legs.{Carried, leg_on_paper, opened_at, stopped_at};

use crate::room::RoomSlice;
use headers::TransportHeader;
use one_header::{Onward, stop_behind, transport_at, transport_turn};
use rules::{Ending, Header, IpNumber, Kind, Number, Range, Refusal, Stop};

// In the other order of fields a slice takes 251 instructions for 244.
#[derive(Clone, Copy)]
pub struct TransportFound {
    pub transport: Option<Header>,
    pub ending: Ending,
}

// The payload runs to the room's end.
fn unopened(room: RoomSlice, number: IpNumber, stop: Stop) -> TransportFound
    ensures { result ≡ stopped_at number room.entry.at room.entry.end stop }
{
    TransportFound {
        ending: Ending {
            payload: room.payload(),
            number: Number::Ip(number),
            stop,
        },
        transport: None,
    }
}

fn opened(number: IpNumber, kind: Kind, at: usize, x: TransportHeader) -> TransportFound
    requires { (x.len ≤ x.end) × (at + x.end < 2 ^ 64) }
    ensures { result ≡ opened_at number kind at x }
{
    TransportFound {
        ending: Ending {
            payload: Range {
                at: at + x.len,
                len: x.end - x.len,
            },
            number: Number::Ip(number),
            stop: stop_behind(),
        },
        transport: Some(Header {
            kind: kind.number(),
            at,
            len: x.len,
        }),
    }
}

pub fn slice_transport(
    room: RoomSlice,
    number: IpNumber,
    mark: bool,
) -> Result<TransportFound, Refusal>
    ensures { Carried room.entry mark number (leg_on_paper result) }
{
    match transport_turn(number, mark) {
        Onward::Stops(stop) => Ok(unopened(room, number, stop)),
        Onward::Opens(kind) => {
            let x = transport_at(&room.frame[room.at..room.end], kind, room.at, room.source)?;
            Ok(opened(number, Kind::from(kind), room.at, x))
        }
    }
}
