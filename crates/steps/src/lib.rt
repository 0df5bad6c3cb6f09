// The walk header by header: the headers as numbers, header number k, the count of headers, and the step from a place to the
// next. It knows one header at a place only by what crate one_header promises. The frame is read and never written.
#![tactic(auto)]

mod list;
mod place;

pub use list::{clear, count, header, headers};
pub use place::{NoStep, Step, first, next};
