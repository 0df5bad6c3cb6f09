// Whether a frame's text is a given one: what the programs that compare answers count.
ghost use Rattle.std.specs.Prelude.{◌≡◌, ◌≤◌, ◌<◌, true, length, MatchOption};
ghost use Rattle.printing.specs.Text.{text_of};
ghost use Rattle.test_cases.specs.Agreed.{Agrees};

use rules::Entry;

// No text that is compared is as long as this.
pub const ROOM: usize = 4096;

// The text of a frame, which is printed into the buffer. Nothing where it does not fit.
pub fn text<'a>(frame: &[u8], entry: Entry, buffer: &'a mut [u8]) -> Option<&'a [u8]>
    ensures { MatchOption result (length buffer.old < length (text_of entry frame.now)) (λ t. (length t.now ≤ length buffer.old) × (t.now ≡ text_of entry frame.now)) }
{
    let len = printing::print(frame, entry, buffer)?;
    Some(&buffer[..len])
}

// A text that does not fit agrees with no answer.
pub fn agrees(frame: &[u8], entry: Entry, answer: &[u8]) -> bool
    ensures { (result ≡ true → Agrees (text_of entry frame.now) answer.now) × (Agrees (text_of entry frame.now) answer.now → result ≡ true) }
{
    let mut buffer = [0; ROOM];
    text(frame, entry, &mut buffer).is_some_and(|text| text == answer)
}
