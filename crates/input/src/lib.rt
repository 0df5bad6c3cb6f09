// A reader such as standard input, read so that a read that failed is told from the input's end.
#![tactic(auto)]

ghost use Rattle.std.specs.Prelude.{◌≤◌, length, IfOk};

use std::io;
use std::io::Read;

// `Ok`: so many bytes came, and then the input ended or the buffer was full. `Err`: a read failed, and what came before it is not to be
// taken for the input. An interrupted read failed too, where the reader's own methods would try again: so the loop stands here.
pub fn read<R: Read>(from: &mut R, buf: &mut [u8]) -> io::Result<usize>
    ensures { IfOk result (λ k. k ≤ length buf.old) }
{
    let len = buf.len();
    let mut done: usize = 0;
    while done < len {
        let more = from.read(&mut buf[done..len])?;
        if more == 0 {
            break;
        }
        done += more;
    }
    Ok(done)
}
