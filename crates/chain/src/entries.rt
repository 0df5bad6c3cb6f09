// The three entries by name, each with its own tie, since each is a public function; and the whole reply: bytes past a declared length alter nothing of it.
ghost use Rattle.std.specs.Prelude.{◌≡◌, List, ℕ, Err};
ghost use Rattle.rules.specs.declared.entry.Entry.TheVariants as E;
ghost use Rattle.rules.specs.declared.refusal.Refusal.{Refusal};
ghost use Rattle.slicer.specs.Reply.{packet_on_paper, reply_of};
ghost use Rattle.chain.specs.Accepted.{AcceptedIffChain};
ghost use Rattle.chain.specs.Alike.{Alike};
ghost use Rattle.chain.specs.Refused.{RefusedForAReason};

use crate::outcome_of;
use rules::{Ending, Entry, Refusal};
use slicer::SlicedPacket;

#[tactic(auto, using(crate::specs::Accepted::accepted_iff_chain))]
pub fn from_ethernet(s: &[u8]) -> Result<Ending, Refusal>
    ensures accepted { AcceptedIffChain E.Ethernet s.now result }
    ensures refused { RefusedForAReason E.Ethernet s.now (λ (q : Refusal). result ≡ Err q) }
{
    let reply = SlicedPacket::from_ethernet(s);
    outcome_of(reply)
}

#[tactic(auto, using(crate::specs::Accepted::accepted_iff_chain))]
pub fn from_ipv4(s: &[u8]) -> Result<Ending, Refusal>
    ensures accepted { AcceptedIffChain E.Ipv4 s.now result }
    ensures refused { RefusedForAReason E.Ipv4 s.now (λ (q : Refusal). result ≡ Err q) }
{
    let reply = SlicedPacket::from_ipv4(s);
    outcome_of(reply)
}

#[tactic(auto, using(crate::specs::Accepted::accepted_iff_chain))]
pub fn from_ipv6(s: &[u8]) -> Result<Ending, Refusal>
    ensures accepted { AcceptedIffChain E.Ipv6 s.now result }
    ensures refused { RefusedForAReason E.Ipv6 s.now (λ (q : Refusal). result ≡ Err q) }
{
    let reply = SlicedPacket::from_ipv6(s);
    outcome_of(reply)
}

// Every frame that is alike gets the same reply.
#[tactic(auto, using(crate::specs::Alike::alike_reply))]
pub fn reply(s: &[u8], entry: Entry) -> Result<SlicedPacket, Refusal>
    ensures { (t : List ℕ) → Alike entry s.now t → packet_on_paper result ≡ reply_of entry t }
{
    slicer::slice(s, entry)
}
