// The collector's functions as C calls them: each calls the function of crate `exports` of the same name, and promises the same. `lib/build` makes
// the archive, with crate `exports_by_number_c`; `bin/check-interface` holds the C header and the Rust crate to these functions.
#![tactic(auto)]

ghost use Rattle.std.specs.Prelude.{◌≡◌, length};
ghost use Rattle.checksum.specs.Sum.{add_slice, answer, without_zero};
ghost use Rattle.tcp_options.specs.Options.{options, option_of};
ghost use Rattle.exports.specs.Handed.{
  interface,
  entry_by,
  slice_for,
  count_for,
  list_for,
  option_by,
};

use exports::handed::{CountReply, OptionReply, Packet};

// The version of the interface that this library was built with.
#[unsafe(no_mangle)]
pub extern "C" fn bhirkulom_interface() -> usize
    ensures { result ≡ interface }
{
    exports::bhirkulom_interface()
}

// The whole reply to a frame. Entry 1 is a whole Ethernet II frame, 2 a packet known to be IPv4, 3 one known to be IPv6.
#[unsafe(no_mangle)]
pub extern "C" fn bhirkulom_slice(frame: &[u8], entry: usize) -> Packet
    ensures answer { result ≡ slice_for (entry_by entry) frame.now }
    ensures unwritten { frame.exit.now ≡ frame.entry.now }
{
    exports::bhirkulom_slice(frame, entry)
}

// The headers of a frame from number k on, three numbers each (kind, offset, length), as many as the lent numbers have room for, and zeros
// behind them; the answer is the count. Of a refused frame, and for a number that no entry has, there are zeros alone.
#[unsafe(no_mangle)]
pub extern "C" fn bhirkulom_headers(
    frame: &[u8],
    entry: usize,
    k: usize,
    heads: &mut [usize],
) -> CountReply
    ensures answer { result ≡ count_for (entry_by entry) frame.now }
    ensures listed { heads.new ≡ list_for (entry_by entry) frame.now k (length heads.old) }
    ensures unwritten { frame.exit.now ≡ frame.entry.now }
{
    exports::bhirkulom_headers(frame, entry, k, heads)
}

// Option number k, counted from 0, of what follows byte 20 of a TCP header.
#[unsafe(no_mangle)]
pub extern "C" fn bhirkulom_option(bytes: &[u8], k: usize) -> OptionReply
    ensures answer { result ≡ option_by (option_of (options bytes.now) k) }
    ensures unwritten { bytes.exit.now ≡ bytes.entry.now }
{
    exports::bhirkulom_option(bytes, k)
}

// The sum with one slice more. The sum of no slices is 0; every number of 16 bits is a sum.
#[unsafe(no_mangle)]
pub extern "C" fn bhirkulom_sum_add(sum: u16, slice: &[u8]) -> u16
    ensures answer { result ≡ add_slice sum slice.now }
    ensures unwritten { slice.exit.now ≡ slice.entry.now }
{
    exports::bhirkulom_sum_add(sum, slice)
}

// The checksum of what was added: the number that goes into a header, high byte first.
#[unsafe(no_mangle)]
pub extern "C" fn bhirkulom_sum_answer(sum: u16) -> u16
    ensures { result ≡ answer sum }
{
    exports::bhirkulom_sum_answer(sum)
}

// The same for UDP, where a 0 in the header says that no checksum was made.
#[unsafe(no_mangle)]
pub extern "C" fn bhirkulom_sum_answer_no_zero(sum: u16) -> u16
    ensures { result ≡ without_zero (answer sum) }
{
    exports::bhirkulom_sum_answer_no_zero(sum)
}
