// Where a leg begins and where it ends: the bytes of a frame from a place to its room's end.
ghost use Rattle.std.specs.Prelude.{◌≡◌, ◌-◌, ◌≤◌, length};
ghost use Rattle.slicer.specs.Reply.{range};

use rules::{Range, RoomSource};

// The place and the room's end count from the frame's start; `source` is what set that end. In another order of fields a slice takes
// more: 254 to 255 instructions for 251, or two more an extension (docs/SPEED.md, One home for one header).
#[derive(Clone, Copy)]
pub struct RoomSlice<'a> {
    pub source: RoomSource,
    pub at: usize,
    pub end: usize,
    pub frame: &'a [u8],
    ghost ordered: { at ≤ end },
    ghost inside: { end ≤ length frame.now },
}

impl RoomSlice<'_> {
    // Those bytes as a payload.
    pub fn payload(self) -> Range
        ensures { result ≡ range self.entry.at (self.entry.end - self.entry.at) }
    {
        Range {
            at: self.at,
            len: self.end - self.at,
        }
    }
}
