// What every crate shares: the types of the answers, the numbers of document 01; and document 01's rules, written
// down once as definitions (specs/). Each function here promises its definition.
#![tactic(auto)]

mod entry;
pub mod ether_type;
pub mod field;
mod fragment;
pub mod ip_number;
mod kind;
pub mod length;
mod place;
mod refusal;
mod stop;
mod turn;

pub use entry::Entry;
pub use ether_type::EtherType;
pub use fragment::Fragment;
pub use ip_number::IpNumber;
pub use kind::{Kind, Layer, RoomSource, Source};
pub use place::{HEADER_WORDS, Header, Number, Place, Range, Room};
pub use refusal::{Bound, Fault, Refusal, Row};
pub use stop::{Ending, Stop};
pub use turn::{ChainPlace, Turn};
