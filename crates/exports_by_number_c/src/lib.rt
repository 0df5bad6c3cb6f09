// Header k and the count as C calls them: each calls the function of crate `exports_by_number` of the same name, and promises the same. An object of
// its own in the archive, since the walk over the headers is taken in by its caller only where it has one in what is compiled together (docs/SPEED.md).
#![tactic(auto)]

ghost use Rattle.std.specs.Prelude.{◌≡◌};
ghost use Rattle.exports.specs.Handed.{entry_by, header_for, count_for};

use exports::handed::{CountReply, HeaderReply};

// Header number k of a frame, counted from 0.
#[unsafe(no_mangle)]
pub extern "C" fn bhirkulom_header(frame: &[u8], entry: usize, k: usize) -> HeaderReply
    ensures answer { result ≡ header_for (entry_by entry) frame.now k }
    ensures unwritten { frame.exit.now ≡ frame.entry.now }
{
    exports_by_number::bhirkulom_header(frame, entry, k)
}

// How many headers a frame has.
#[unsafe(no_mangle)]
pub extern "C" fn bhirkulom_count(frame: &[u8], entry: usize) -> CountReply
    ensures answer { result ≡ count_for (entry_by entry) frame.now }
    ensures unwritten { frame.exit.now ≡ frame.entry.now }
{
    exports_by_number::bhirkulom_count(frame, entry)
}
