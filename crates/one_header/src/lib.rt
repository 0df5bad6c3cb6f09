// One header at a place: read it, the room that it leaves, where it leads, or its refusal. Both ways to walk stand on this crate:
// the legs of crate slicer call it with a kind that they know, the step of crate steps with any. Each function is handed the bytes
// from the header to its room's end, asks nothing of them, and counts from the header what it answers. Bytes, offset and source stay apart,
// as they are in `header_at`, which documents name and which hands them on.
#![tactic(auto)]

mod ext;
mod header;
mod ip;
mod link;
mod onward;
mod place;
mod transport;

pub use ext::{ExtKind, ExtTurn, ext_at, ext_turn};
pub use header::{HeaderFound, header_at};
pub use ip::{IpFound, IpKind, ip_at, opens_auth};
pub use link::{LinkKind, LinkTurn, link_at, link_turn};
pub use onward::Onward;
pub use transport::{TransportKind, stop_behind, transport_at, transport_turn};
