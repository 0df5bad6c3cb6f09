// A reader's answer at its place. Each arm of a match on a header's kind calls this by itself: where the arms join before it, the
// compiler looks up again which kind it was (docs/SPEED.md).
ghost use Rattle.std.specs.Prelude.{◌≡◌};
ghost use Rattle.headers.specs.Says.{read_on_paper};
ghost use Rattle.one_header.specs.At.{at_on_paper, placing};

use rules::{Fault, Refusal, RoomSource};

pub fn placed<T>(read: Result<T, Fault>, at: usize, source: RoomSource) -> Result<T, Refusal>
    ensures { at_on_paper result ≡ placing (read_on_paper read) at source }
{
    read.map_err(|fault| fault.at(at, source))
}
