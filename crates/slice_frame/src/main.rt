// Reads one Ethernet frame from standard input, to the input's end, and prints its headers, its payload and why the walk
// stopped, or its refusal (document 01, F12). An input of more than 65,536 bytes prints `too long`. Where a read fails
// nothing is printed, whatever arrived before it, and standard error says so. It says too where the answer can't be written.
// Its exit status is 0 all the same: bin/slice gives 2 where there is no answer.
#![tactic(auto)]

ghost use Rattle.std.specs.Prelude.{◌≤◌, ◌≡◌, length};
ghost use Rattle.rules.specs.declared.entry.Entry.TheVariants.{Ethernet};
ghost use Rattle.printing.specs.Text.{text_of};
ghost use Rattle.printing.specs.Values.{frame_limit};
ghost use Rattle.printing.specs.Fits.{text_limit};

use rules::Entry;

// One byte more than a frame may have, so that a longer input shows.
const ROOM: usize = 65537;

// `text_limit`: the text of no frame has more bytes, by `text-fits` in printing's specs/Fits.antt.
const TEXT: usize = 262211;

// The whole text of a frame, which is printed into the buffer. Nothing is cut off: `unwrap` is proved.
fn printed<'a>(frame: &[u8], buffer: &'a mut [u8]) -> &'a [u8]
    requires frame { length frame.now ≤ frame_limit }
    requires buffer { length buffer.old ≡ text_limit }
    ensures { result.now ≡ text_of Ethernet frame.now }
{
    let len = printing::print(frame, Entry::Ethernet, buffer).unwrap();
    &buffer[..len]
}

// Written by crate `io`, as standard error is: a write that a signal interrupts counts as one that failed, where the runtime would try it again.
fn answer(text: &[u8]) {
    if !io::write_all(1, text) {
        io::write_all(2, b"slice_frame: standard output can't be written\n");
    }
}

fn main(rt: HostRuntime) {
    let mut frame = [0; ROOM];
    let Ok(len) = input::read(&mut rt.stdin(), &mut frame) else {
        io::write_all(2, b"slice_frame: standard input can't be read\n");
        return;
    };
    if len == ROOM {
        answer(b"too long\n");
        return;
    }
    let mut buffer = [0; TEXT];
    answer(printed(&frame[..len], &mut buffer));
}
