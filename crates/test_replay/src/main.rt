// Reads a list of frames, each with the answer that another slicer gave, and compares that answer with the text printed here. The list
// on standard input is made by compare/replay: a case is the entry's number, the frame's length in two bytes and the frame, the answer's
// length in two bytes and the answer.
// Where a read fails there is nothing to report, and standard error says so.
#![tactic(auto)]

ghost use Rattle.std.specs.Prelude.{◌≤◌, length, IfOk};

use rules::Entry;
use std::io::{Error, Read};
use test_cases::Tally;

// So many cases are compared; where the list goes on, that is told.
const MOST: usize = 65_536;

// What is said of a case has no more bytes than this: of its frame, and of its answer.
const ROOM: usize = 4096;

// Why no case could be read where one begins: it is not whole, or longer than the room; or a read failed.
enum Broken {
    Cut,
    Failed(Error),
}

impl From<Error> for Broken {
    fn from(error: Error) -> Broken {
        Broken::Failed(error)
    }
}

// How a list ended: behind its last case, inside a case, or not where the comparison did.
#[derive(Clone, Copy)]
enum End {
    Whole,
    Cut,
    On,
}

impl End {
    fn text(self) -> &'static [u8] {
        match self {
            End::Whole => b"the list is whole\n",
            End::Cut => b"the list is cut: a case follows that is not whole\n",
            End::On => b"the list may go on\n",
        }
    }
}

// What was seen of a list. `first` is the number of the first case that differs, from 1.
#[derive(Clone, Copy)]
struct Seen {
    tally: Tally,
    first: Option<u64>,
    end: End,
}

impl Seen {
    fn count(&mut self, same: bool) {
        self.tally = self.tally.counted(same);
        if !same {
            self.first = self.first.or(Some(self.tally.compared));
        }
    }

    // Whether all of it was written.
    fn report(&self) -> bool {
        line(b"cases compared: ", self.tally.compared)
            && line(b"the same: ", self.tally.same)
            && different(self.first)
            && io::write_all(1, self.end.text())
    }
}

// Written by crate `io`, as standard error is: a write that a signal interrupts counts as one that failed, where `println!` would try it again.
// And the text, the number and the line's end are a write each, where `println!` has one for all.
fn line(text: &[u8], number: u64) -> bool {
    io::write_all(1, text) && io::print_decimal(1, number) && io::write_all(1, b"\n")
}

fn different(first: Option<u64>) -> bool {
    match first {
        Some(first) => line(b"first different case: ", first),
        None => io::write_all(1, b"first different case: none\n"),
    }
}

// The entry by its number in the list. The numbers are the list's, so no `TryFrom` of `Entry`, which knows none.
fn entry_of(number: u8) -> Option<Entry> {
    match number {
        1 => Some(Entry::Ethernet),
        2 => Some(Entry::Ipv4),
        3 => Some(Entry::Ipv6),
        _ => None,
    }
}

// Fills a part of a case.
fn fill<R: Read>(list: &mut R, part: &mut [u8]) -> Result<(), Broken> {
    let len = input::read(list, part)?;
    if len < part.len() {
        return Err(Broken::Cut);
    }
    Ok(())
}

// Reads bytes whose number stands before them, in two bytes. Where the room has fewer, none of them is read.
fn counted<'a, R: Read>(list: &mut R, room: &'a mut [u8; ROOM]) -> Result<&'a [u8], Broken>
    ensures { IfOk result (λ part. length part.now ≤ length room.old) }
{
    let mut head = [0; 2];
    fill(list, &mut head)?;
    let len = usize::from(u16::from_be_bytes(head));
    let Some(part) = room.get_mut(..len) else {
        return Err(Broken::Cut);
    };
    fill(list, part)?;
    Ok(part)
}

// Reads a case behind its number, and answers whether it is the same: no list is ever held as a whole, so the program needs little room.
// An entry that is none of the three makes a case that differs: the other slicer wrote no such case.
fn case<R: Read>(list: &mut R, number: u8) -> Result<bool, Broken> {
    let mut frame = [0; ROOM];
    let mut answer = [0; ROOM];
    let frame = counted(list, &mut frame)?;
    let answer = counted(list, &mut answer)?;
    let Some(entry) = entry_of(number) else {
        return Ok(false);
    };
    Ok(test_cases::agrees(frame, entry, answer))
}

// Nothing at the list's end.
fn next_case<R: Read>(list: &mut R) -> Result<Option<bool>, Broken> {
    let mut number = [0; 1];
    if input::read(list, &mut number)? == 0 {
        return Ok(None);
    }
    Ok(Some(case(list, number[0])?))
}

fn compare<R: Read>(list: &mut R) -> Result<Seen, Error> {
    let mut seen = Seen {
        tally: Tally::new(),
        first: None,
        end: End::On,
    };
    for _ in 0..MOST {
        match next_case(list) {
            Ok(Some(same)) => seen.count(same),
            Ok(None) => {
                seen.end = End::Whole;
                break;
            }
            Err(Broken::Cut) => {
                seen.end = End::Cut;
                break;
            }
            Err(Broken::Failed(error)) => return Err(error),
        }
    }
    Ok(seen)
}

fn main(rt: HostRuntime) {
    let Ok(seen) = compare(&mut rt.stdin()) else {
        io::write_all(2, b"test_replay: standard input can't be read\n");
        return;
    };
    if !seen.report() {
        io::write_all(2, b"test_replay: standard output can't be written\n");
    }
}
