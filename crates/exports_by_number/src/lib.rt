// Header k and the count for C and Rust programs: the list of crate `exports` with room for one header and for none. A crate of its
// own, since the walk over the headers is taken in by its caller only where it has one in what is compiled together (docs/SPEED.md). C calls them by
// crate `exports_by_number_c`.
#![tactic(auto)]

ghost use Rattle.std.specs.Prelude.{◌≡◌, eqb};
ghost use Rattle.rules.specs.Test.{pick};
ghost use Rattle.exports.specs.Handed.{there, no_more, entry_by, header_for, count_for};

use exports::bhirkulom_headers;
use exports::handed::{CountReply, HeaderReply, NO_MORE, THERE};
use rules::{HEADER_WORDS, Header};

// The status of a header past the last, where the count has the status given.
fn past(counted: usize) -> usize
    ensures { result ≡ pick (eqb counted there) no_more counted }
{
    if counted == THERE {
        return NO_MORE;
    }
    counted
}

// Header number k of a frame, counted from 0. Its fields are taken out one by one, as in crate `steps`.
pub fn bhirkulom_header(frame: &[u8], entry: usize, k: usize) -> HeaderReply
    ensures answer { result ≡ header_for (entry_by entry) frame.now k }
    ensures unwritten { frame.exit.now ≡ frame.entry.now }
{
    let mut one = [0; HEADER_WORDS];
    let counted = bhirkulom_headers(frame, entry, k, &mut one);
    if k < counted.count {
        return HeaderReply {
            status: THERE,
            header: Header {
                kind: one[0],
                at: one[1],
                len: one[2],
            },
            refusal: counted.refusal,
        };
    }
    HeaderReply {
        status: past(counted.status),
        header: Header::default(),
        refusal: counted.refusal,
    }
}

// How many headers a frame has.
pub fn bhirkulom_count(frame: &[u8], entry: usize) -> CountReply
    ensures answer { result ≡ count_for (entry_by entry) frame.now }
    ensures unwritten { frame.exit.now ≡ frame.entry.now }
{
    bhirkulom_headers(frame, entry, 0, &mut [])
}
