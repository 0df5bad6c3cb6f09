// A frame's reply as the program prints it: the text of specs/Text.antt, written into a lent buffer.
#![tactic(auto)]

ghost use Rattle.std.specs.Prelude.{◌≡◌, length};
ghost use Rattle.rules.specs.Walk.{slices};
ghost use Rattle.slicer.specs.Reply.{outcome_on_paper, reply_of};
ghost use Rattle.printing.specs.Text.{text_of, Accepts};
ghost use Rattle.printing.specs.Put.{Wrote, printed_in, printed_by};

use rules::{Ending, Entry, Refusal};
use slicer::slice;
use steps::{Step, first, next};
use write::Printer;

mod line;
mod name;
mod write;

// The text of an accepted frame: a line for each header, from place to place, and the lines of the ending.
fn accepted_lines(printer: &mut Printer, s: &[u8], entry: Entry)
    requires { Accepts (slices entry s.now) }
    ensures { Wrote (text_of entry s.now) printer.old printer.new }
{
    let mut place = first(s, entry);
    loop {
        match next(s, place) {
            Ok(
                Step::Next {
                    len,
                    place: following,
                },
            ) => {
                printer.header_line(place.kind, place.at, len);
                place = following;
            }
            Ok(Step::Last { len, ending }) => {
                printer.header_line(place.kind, place.at, len);
                return printer.ending_lines(ending);
            }
            // An accepted frame has a step from each of its places.
            Err(_) => return,
        }
    }
}

// How the frame's reply ends. The rest of the reply, a large value, is left here.
fn outcome(s: &[u8], entry: Entry) -> Result<Ending, Refusal>
    ensures { outcome_on_paper result ≡ (reply_of entry s.now).ended }
{
    slice(s, entry).map(|packet| packet.ending)
}

// A refused frame prints its refusal alone, so the frame is sliced before any header is printed.
fn lines(printer: &mut Printer, s: &[u8], entry: Entry)
    ensures { Wrote (text_of entry s.now) printer.old printer.new }
{
    match outcome(s, entry) {
        Ok(_) => accepted_lines(printer, s, entry),
        Err(refusal) => printer.refused_line(refusal),
    }
}

// The buffer's first so many bytes are the whole text, or it does not fit the buffer.
// A cut text reads as a whole one, and so does a short text in front of the rest of an earlier, longer one. So `out` is cleared
// before the text is written, and again where the text does not fit.
pub fn print(s: &[u8], entry: Entry, out: &mut [u8]) -> Option<usize>
    ensures text { out.new ≡ printed_in (text_of entry s.now) (length out.old) }
    ensures answer { result ≡ printed_by (text_of entry s.now) (length out.old) }
    ensures unwritten { s.exit.now ≡ s.entry.now }
{
    out.fill(0);
    let mut printer = Printer { out, len: Some(0) };
    lines(&mut printer, s, entry);
    let len = printer.len;
    if len.is_none() {
        out.fill(0);
    }
    len
}
