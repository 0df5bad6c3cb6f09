// Places: where a walk begins, and the step from one header to the next, for a caller that lists headers itself.
ghost use Rattle.std.specs.Prelude.{◌≡◌, List, ℕ, ◌+◌, ◌-◌, ◌<◌, ◌^◌};
ghost use Rattle.rules.specs.Place.{tags_with, ips_with, entered, next as next_place, start, opening};
ghost use Rattle.one_header.specs.Header.{left_by};
ghost use Rattle.steps.specs.declared.place.NoStep.TheVariants as NS;
ghost use Rattle.steps.specs.Places.{opens, step_on_paper, step_says};

use one_header::{HeaderFound, header_at};
use rules::ether_type::TAG_LIMIT;
use rules::ip_number::IP_LIMIT;
use rules::{Ending, Entry, Kind, Place, Range, Refusal, Room, RoomSource, Turn};

// What the header at a place leads to: the next place, or the walk's end.
#[derive(Clone, Copy, Debug, PartialEq, Eq)]
pub enum Step {
    Next { len: usize, place: Place },
    Last { len: usize, ending: Ending },
}

// Why there is no step: a refusal, the header's own or that of what it names; or the place is none.
#[derive(Clone, Copy, Debug, PartialEq, Eq)]
pub enum NoStep {
    Refused(Refusal),
    // No walk over this frame stands there: the room is past the frame, the offset past the room, or more is counted than
    // a frame can hold.
    NotAPlace,
}

impl From<Refusal> for NoStep {
    ghost from_gives = { λ refusal result. result ≡ NS.Refused refusal };

    fn from(refusal: Refusal) -> NoStep {
        NoStep::Refused(refusal)
    }
}

fn tags_with(kind: Kind, tags: usize) -> usize
    requires { tags + 1 < 2 ^ 64 }
    ensures { result ≡ tags_with kind tags }
{
    match kind {
        Kind::Vlan => tags + 1,
        _ => tags,
    }
}

fn ips_with(kind: Kind, ips: usize) -> usize
    requires { ips + 1 < 2 ^ 64 }
    ensures { result ≡ ips_with kind ips }
{
    match kind {
        Kind::Ipv4 | Kind::Ipv6 => ips + 1,
        _ => ips,
    }
}

// The room of the next header, of a kind, behind the header x at an offset in a room.
pub fn room_behind(kind: Kind, at: usize, x: HeaderFound, room: Room) -> Room
    requires { (at + x.end < 2 ^ 64) × (room.tags + 1 < 2 ^ 64) × (room.ips + 1 < 2 ^ 64) }
    ensures { result ≡ entered kind (left_by x at room) }
{
    Room {
        end: at + x.end,
        tags: tags_with(kind, room.tags),
        version: x.version,
        ips: ips_with(kind, room.ips),
        source: x.source,
        mark: x.mark,
    }
}

// The kind of a frame's first header.
#[tactic(auto, unfolding(rules::specs::Place::opening))]
fn first_kind(entry: Entry) -> Kind
    ensures { (s : List ℕ) → next_place (start result s) ≡ opening entry s }
{
    match entry {
        Entry::Ethernet => Kind::Ethernet2,
        Entry::Ipv4 => Kind::Ipv4,
        Entry::Ipv6 => Kind::Ipv6,
    }
}

// The place of a frame's first header.
#[tactic(auto, unfolding(rules::specs::Place::start))]
pub fn first(s: &[u8], entry: Entry) -> Place
    ensures answer { opens (next_place result) ≡ opens (opening entry s.now) }
    ensures unwritten { s.exit.now ≡ s.entry.now }
{
    let kind = first_kind(entry);
    let room = Room {
        end: s.len(),
        tags: tags_with(kind, 0),
        version: 0,
        ips: ips_with(kind, 0),
        source: RoomSource::Slice,
        mark: false,
    };
    Place { at: 0, room, kind }
}

// Reads the header at a place, and no other.
pub fn next(s: &[u8], place: Place) -> Result<Step, NoStep>
    ensures answer { step_on_paper result ≡ step_says s.now place }
    ensures unwritten { s.exit.now ≡ s.entry.now }
{
    let room = place.room;
    let at = place.at;
    let end = room.end;
    if s.len() < end {
        return Err(NoStep::NotAPlace);
    }
    if end < at {
        return Err(NoStep::NotAPlace);
    }
    if TAG_LIMIT < room.tags {
        return Err(NoStep::NotAPlace);
    }
    if IP_LIMIT < room.ips {
        return Err(NoStep::NotAPlace);
    }
    let x = header_at(&s[at..end], place.kind, at, room)?;
    let len = x.len;
    let past = at + len;
    match x.turn {
        Turn::Opens(kind) => Ok(Step::Next {
            len,
            place: Place {
                at: past,
                room: room_behind(kind, at, x, room),
                kind,
            },
        }),
        Turn::Stops(stop) => Ok(Step::Last {
            len,
            ending: Ending {
                payload: Range {
                    at: past,
                    len: x.to.saturating_sub(len),
                },
                number: x.number,
                stop,
            },
        }),
        Turn::LateHopByHop => Err(NoStep::Refused(Refusal::HopByHopNotAtStart { offset: past })),
    }
}
