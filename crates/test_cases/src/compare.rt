// One case: the answer compared with the listed one, and the outcome printed. Each answers whether they are the same.
use crate::agree::{ROOM, agrees, text};
use crate::buffer::Buffer;
use checksum::Sum16BitWords;
use rules::Entry;

fn print_frame(frame: &[u8], entry: Entry) {
    let mut buffer = [0; ROOM];
    match text(frame, entry, &mut buffer) {
        Some(text) => io::write_all(1, text),
        None => io::write_all(1, b"a text that is too long to be compared\n"),
    };
}

// What stands in the list and what is printed for the frame, for a reader who looks for the difference.
fn differs(frame: &[u8], entry: Entry, answer: &[u8]) {
    io::write_all(1, b" DIFFERENT\nlisted:\n");
    io::write_all(1, answer);
    io::write_all(1, b"printed:\n");
    print_frame(frame, entry);
}

// A line that is no case as it stands: a fault of the list, which counts as a difference.
pub fn not_understood() -> bool {
    io::write_all(1, b" NOT UNDERSTOOD");
    false
}

// The answer is put together in a lent buffer: one of its own would be filled with zeros for each case.
pub fn sliced(frame: &[u8], entry: Entry, listed: &[u8], buffer: &mut Buffer<ROOM>) -> bool {
    buffer.clear();
    buffer.push_lines(listed);
    let answer = buffer.bytes();
    let same = agrees(frame, entry, answer);
    if same {
        io::write_all(1, b" same");
    } else {
        differs(frame, entry, answer);
    }
    same
}

// The checksum and its no-zero form, listed as the four bytes that go into headers.
pub fn summed(sum: Sum16BitWords, listed: &[u8]) -> bool {
    let mut answer = Buffer::<4>::new();
    answer.push_hex(listed);
    let [a, b, c, d] = *answer.room();
    let plain = sum.ones_complement() == u16::from_be_bytes([a, b]);
    let no_zero = sum.to_ones_complement_with_no_zero() == u16::from_be_bytes([c, d]);
    let same = plain && no_zero;
    if same {
        io::write_all(1, b" same");
    } else {
        io::write_all(1, b" DIFFERENT");
    }
    same
}
