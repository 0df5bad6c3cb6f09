// The list of headers: the chain's, in order; of a refused frame nothing that reads as a header.
ghost use Rattle.std.specs.Prelude.{◌≡◌, length, Err};
ghost use Rattle.rules.specs.declared.refusal.Refusal.{Refusal};
ghost use Rattle.chain.specs.Headers.{CountIsLength, ListInOrder};
ghost use Rattle.chain.specs.Refused.{RefusedForAReason};

use rules::{Entry, Refusal};

#[tactic(auto, using(crate::specs::Headers::count_is_length, crate::specs::Headers::list_in_order))]
pub fn headers(s: &[u8], entry: Entry, k: usize, out: &mut [usize]) -> Result<usize, Refusal>
    ensures counted { CountIsLength entry s.now result }
    ensures refused { RefusedForAReason entry s.now (λ (q : Refusal). result ≡ Err q) }
    ensures listed { ListInOrder entry s.now k (length out.old) out.new }
{
    steps::headers(s, entry, k, out)
}
