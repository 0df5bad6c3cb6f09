// The printed text: that of the chain or of the refusal, whole or not at all.
ghost use Rattle.std.specs.Prelude.{◌≡◌, List, ℕ, length};
ghost use Rattle.printing.specs.Put.{printed_in, printed_by};
ghost use Rattle.chain.specs.Printed.{TextTells};

use rules::Entry;

pub fn print(s: &[u8], entry: Entry, out: &mut [u8]) -> Option<usize>
    ensures { (t : List ℕ) × TextTells entry s.now t × (out.new ≡ printed_in t (length out.old)) × (result ≡ printed_by t (length out.old)) }
{
    printing::print(s, entry, out)
}
