// Bytes in a room of a fixed size, which is filled from its begin; those that are not filled yet are zero. Where the room ends, nothing more
// goes in.
ghost use Rattle.std.specs.Prelude.{◌≤◌};

use crate::text::{pair, unslashed};

#[derive(Drop)]
pub struct Buffer<const N: usize> {
    room: [u8; N],
    len: usize,
    ghost inside: { len ≤ N },
}

impl<const N: usize> Buffer<N> {
    pub fn new() -> Self {
        Buffer {
            room: [0; N],
            len: 0,
        }
    }

    // The whole room, with the zeros behind what was filled.
    pub fn room(&self) -> &[u8; N] {
        &self.room
    }

    pub fn bytes(&self) -> &[u8] {
        &self.room[..self.len]
    }

    pub fn push(&mut self, byte: u8) {
        if self.len < N {
            self.room[self.len] = byte;
            self.len += 1;
        }
    }

    // Two hexadecimal digits make a byte; spaces may stand between bytes. A space behind a byte's first digit is its second one, and a lone
    // digit at the end makes no byte.
    pub fn push_hex(&mut self, digits: &[u8]) {
        let mut first = None;
        for c in digits {
            first = match first {
                Some(high) => {
                    self.push(pair(high, *c));
                    None
                }
                None if *c == b' ' => None,
                None => Some(*c),
            };
        }
    }

    // An answer of several lines, which stand in a list with slashes between them.
    pub fn push_lines(&mut self, listed: &[u8]) {
        // A slice, since no part of an array of N bytes is lent to a loop.
        let room = &mut self.room[..];
        for (place, c) in room[self.len..].iter_mut().zip(listed) {
            *place = unslashed(*c);
        }
        self.len = self.len.saturating_add(listed.len()).min(N);
        self.push(b'\n');
    }

    // Zero bytes behind those that are there.
    pub fn skip(&mut self, n: usize) {
        if n <= N - self.len {
            self.len += n;
        }
    }

    // The byte at a place; bytes up to it are there then. Behind the room's end the byte is lost, and the room is full.
    pub fn set(&mut self, at: usize, byte: u8) {
        if at < N {
            self.room[at] = byte;
            self.len = self.len.max(at + 1);
        } else {
            self.len = N;
        }
    }

    // Only what was filled is filled anew: what is behind it is zero already, and most lists fill little of their room.
    pub fn clear(&mut self) {
        self.room[..self.len].fill(0);
        self.len = 0;
    }
}
