// The collector's functions for C and Rust, over numbers, slices and structs. Any bytes of any length get an answer, and so does
// any number of an entry. No bytes lent are written, only the numbers lent to `bhirkulom_headers`. C calls them by crate `exports_c`.
#![tactic(auto)]

ghost use Rattle.std.specs.Prelude.{◌≡◌, length};
ghost use Rattle.checksum.specs.Sum.{add_slice, answer, without_zero};
ghost use Rattle.tcp_options.specs.Options.{options, option_of};
ghost use Rattle.exports.specs.Handed.{
  interface,
  entry_by,
  slice_for,
  count_for,
  list_for,
  option_by,
};

use crate::handed::{CountReply, INTERFACE, Net, OptionReply, Packet};
use checksum::Sum16BitWords;
use rules::Entry;

pub mod handed;
mod reply;

// An entry by its number: C's number, so no `TryFrom` of `Entry`, which knows none.
fn entry_by(number: usize) -> Option<Entry>
    ensures { result ≡ entry_by number }
{
    match number {
        1 => Some(Entry::Ethernet),
        2 => Some(Entry::Ipv4),
        3 => Some(Entry::Ipv6),
        _ => None,
    }
}

// The version of the interface that this library was built with.
pub fn bhirkulom_interface() -> usize
    ensures { result ≡ interface }
{
    INTERFACE
}

// The whole reply to a frame. Entry 1 is a whole Ethernet II frame, 2 a packet known to be IPv4, 3 one known to be IPv6.
pub fn bhirkulom_slice(frame: &[u8], entry: usize) -> Packet
    ensures answer { result ≡ slice_for (entry_by entry) frame.now }
    ensures unwritten { frame.exit.now ≡ frame.entry.now }
{
    let Some(known) = entry_by(entry) else {
        return reply::no_packet();
    };
    // a `return` in each arm: a value out of the match would be put together in memory and copied (docs/SPEED.md)
    match slicer::slice(frame, known) {
        Ok(sliced) => match sliced.net {
            None => {
                return reply::accepted_packet(sliced, Net::default());
            }
            Some(ip) => {
                return reply::accepted_packet(sliced, Net::from(ip));
            }
        },
        Err(refusal) => {
            return reply::refused_packet(refusal);
        }
    }
}

// The headers of a frame from number k on, three numbers each (kind, offset, length), as many as the lent numbers have room for, and zeros
// behind them; the answer is the count. Of a refused frame, and for a number that no entry has, there are zeros alone.
pub fn bhirkulom_headers(frame: &[u8], entry: usize, k: usize, heads: &mut [usize]) -> CountReply
    ensures answer { result ≡ count_for (entry_by entry) frame.now }
    ensures listed { heads.new ≡ list_for (entry_by entry) frame.now k (length heads.old) }
    ensures unwritten { frame.exit.now ≡ frame.entry.now }
{
    let Some(known) = entry_by(entry) else {
        steps::clear(heads);
        return reply::no_count();
    };
    CountReply::from(steps::headers(frame, known, k, heads))
}

// Option number k, counted from 0, of what follows byte 20 of a TCP header.
pub fn bhirkulom_option(bytes: &[u8], k: usize) -> OptionReply
    ensures answer { result ≡ option_by (option_of (options bytes.now) k) }
    ensures unwritten { bytes.exit.now ≡ bytes.entry.now }
{
    OptionReply::from(tcp_options::option(bytes, k))
}

// The sum with one slice more. The sum of no slices is 0; every number of 16 bits is a sum.
pub fn bhirkulom_sum_add(sum: u16, slice: &[u8]) -> u16
    ensures answer { result ≡ add_slice sum slice.now }
    ensures unwritten { slice.exit.now ≡ slice.entry.now }
{
    let before = Sum16BitWords { sum };
    let after = before.add_slice(slice);
    after.sum
}

// The checksum of what was added: the number that goes into a header, high byte first.
pub fn bhirkulom_sum_answer(sum: u16) -> u16
    ensures { result ≡ answer sum }
{
    let words = Sum16BitWords { sum };
    words.ones_complement()
}

// The same for UDP, where a 0 in the header says that no checksum was made.
pub fn bhirkulom_sum_answer_no_zero(sum: u16) -> u16
    ensures { result ≡ without_zero (answer sum) }
{
    let added = Sum16BitWords { sum };
    added.to_ones_complement_with_no_zero()
}
