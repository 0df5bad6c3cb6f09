// A list of cases as text, which reads as data and is proved once for all lists. A line is a letter, a space and what belongs to it:
//   n NAME       a new group of cases: the name is printed, and there are no bytes
//   x DIGITS     these bytes behind those that are there
//   z N          N zero bytes behind those that are there
//   b N VALUE    the byte at N has this value; bytes up to it are there then
//   1 N ANSWER   a case: the first N bytes (with zeros behind those that are there) as an Ethernet frame print this answer, whose lines
//                have slashes between them; 2 the same as a packet known to be IPv4, 3 as one known to be IPv6
//   +            the bytes are a slice that is added to the sum, and then there are none
//   s DIGITS     a case: the sum's checksum and its no-zero form; then the sum is that of nothing
use crate::agree;
use crate::buffer::Buffer;
use crate::compare::{not_understood, sliced, summed};
use crate::tally::Tally;
use crate::text::{behind, number};
use checksum::Sum16BitWords;
use rules::Entry;
use std::mem;

// More than the longest packet that a length field can tell of: 40 + 65,535 bytes.
const ROOM: usize = 65600;

// Between two lines: the bytes that are there, whether bytes behind the room's end should be there too, which are lost, and the sum of the
// slices added; and the buffer in which each case puts its answer together.
#[derive(Drop)]
struct State {
    bytes: Buffer<ROOM>,
    lost: bool,
    sum: Sum16BitWords,
    answer: Buffer<{ agree::ROOM }>,
}

impl State {
    fn new() -> Self {
        State {
            bytes: Buffer::new(),
            lost: false,
            sum: Sum16BitWords::new(),
            answer: Buffer::new(),
        }
    }

    fn begin(&mut self, name: &[u8]) {
        io::write_all(1, b"\n");
        io::write_all(1, name);
        io::write_all(1, b":");
        self.bytes.clear();
        self.lost = false;
        self.sum = Sum16BitWords::new();
    }

    // A value that no byte has is a fault of the list. At the room's end the byte itself is lost, and none of those up to it.
    fn set(&mut self, rest: &[u8]) -> Option<bool> {
        let (at, rest) = number(rest);
        let (value, _) = number(rest);
        let Ok(byte) = u8::try_from(value) else {
            return Some(not_understood());
        };
        self.bytes.set(at, byte);
        self.lost |= at > ROOM;
        None
    }

    fn frame(&mut self, rest: &[u8], entry: Entry) -> bool {
        let (len, answer) = number(rest);
        match self.bytes.room().get(..len) {
            Some(frame) => sliced(frame, entry, answer, &mut self.answer),
            None => not_understood(),
        }
    }

    // Bytes of which some were lost are no slice to add, until the next group of cases.
    fn add(&mut self) -> Option<bool> {
        if self.lost {
            return Some(not_understood());
        }
        self.sum = self.sum.add_slice(self.bytes.bytes());
        self.bytes.clear();
        None
    }

    fn check(&mut self, rest: &[u8]) -> bool {
        let sum = mem::replace(&mut self.sum, Sum16BitWords::new());
        summed(sum, rest)
    }

    // Does what a line says, each letter in its own way. Where it is a case, or is not understood, the answer is whether the case came out the same.
    fn line(&mut self, line: &[u8]) -> Option<bool> {
        let (letter, rest) = line.split_first()?;
        let rest = behind(rest);
        match *letter {
            b'n' => self.begin(rest),
            b'x' => self.bytes.push_hex(rest),
            b'z' => self.bytes.skip(number(rest).0),
            b'b' => return self.set(rest),
            b'1' => return Some(self.frame(rest, Entry::Ethernet)),
            b'2' => return Some(self.frame(rest, Entry::Ipv4)),
            b'3' => return Some(self.frame(rest, Entry::Ipv6)),
            b'+' => return self.add(),
            b's' => return Some(self.check(rest)),
            _ => return Some(not_understood()),
        }
        None
    }
}

// Runs a list: every case is printed and counted.
pub fn run(tally: &mut Tally, list: &[u8]) {
    let mut state = State::new();
    for line in list.split(|c| *c == b'\n') {
        if let Some(same) = state.line(line) {
            *tally = tally.counted(same);
        }
    }
}
