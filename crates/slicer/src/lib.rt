// The reply to a frame: any bytes, by any entry, get the reply of document 01. It knows one header at a place only by
// what crate one_header promises. The lent bytes are read and never written.
#![tactic(auto)]

mod link;
mod net;
mod options;
pub mod packet;
mod room;
mod transport;
mod walk;

pub use packet::{IpPart, SlicedPacket};
pub use walk::slice;
