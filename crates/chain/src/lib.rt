// Demand 3, said of the answers that code gives: each function hands on an answer of a public function, and its contract is the theorem, so
// that a change of a contract that would break a theorem breaks the check. The theorems themselves stand in specs. Here are the
// reply, header k and the count; the other entries, the list, options, sums and exports have a file each.
#![tactic(auto)]

ghost use Rattle.std.specs.Prelude.{◌≡◌, Err};
ghost use Rattle.rules.specs.declared.refusal.Refusal.{Refusal};
ghost use Rattle.chain.specs.Answers.{outcome_of};
ghost use Rattle.chain.specs.Accepted.{AcceptedIffChain};
ghost use Rattle.chain.specs.Headers.{HeadersInOrder, CountIsLength};
ghost use Rattle.chain.specs.Refused.{RefusedForAReason};

use rules::{Ending, Entry, Header, Refusal};
use slicer::SlicedPacket;

pub mod entries;
pub mod exported;
pub mod lists;
pub mod options;
pub mod sums;
pub mod texts;

// How a reply ends.
fn outcome_of(reply: Result<SlicedPacket, Refusal>) -> Result<Ending, Refusal>
    ensures { result ≡ outcome_of reply }
{
    reply.map(|packet| packet.ending)
}

// How the walk of a frame ends: accepted exactly when there is a chain; refused exactly where the walk breaks.
pub fn outcome(s: &[u8], entry: Entry) -> Result<Ending, Refusal>
    ensures accepted { AcceptedIffChain entry s.now result }
    ensures refused { RefusedForAReason entry s.now (λ (q : Refusal). result ≡ Err q) }
{
    let reply = slicer::slice(s, entry);
    let told = outcome_of(reply);
    told
}

// Every header of the chain, once, in order, and then no more.
pub fn header(s: &[u8], entry: Entry, k: usize) -> Result<Option<Header>, Refusal>
    ensures listed { HeadersInOrder entry s.now k result }
    ensures refused { RefusedForAReason entry s.now (λ (q : Refusal). result ≡ Err q) }
{
    let listed = steps::header(s, entry, k);
    listed
}

// The chain's length.
pub fn count(s: &[u8], entry: Entry) -> Result<usize, Refusal>
    ensures counted { CountIsLength entry s.now result }
    ensures refused { RefusedForAReason entry s.now (λ (q : Refusal). result ≡ Err q) }
{
    let counted = steps::count(s, entry);
    counted
}
