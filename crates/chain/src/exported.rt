// The exports, for every number that is an entry's: accepted, in order, counted and refused as the chain is.
ghost use Rattle.std.specs.Prelude.{◌≡◌, [], ◌∷◌, length, Some};
ghost use Rattle.rules.specs.declared.entry.Entry.{Entry};
ghost use Rattle.exports.specs.Handed.{entry_by};
ghost use Rattle.chain.specs.Exported.{PacketTells, HeaderTells, CountTells, OptionReplyTells};
ghost use Rattle.chain.specs.Frames.{ask, sum as sum_question, no_zero, checksum};
ghost use Rattle.chain.specs.Headers.{ListInOrder};

use exports::handed::{CountReply, HeaderReply, OptionReply, Packet};
use exports::{
    bhirkulom_headers, bhirkulom_option, bhirkulom_slice, bhirkulom_sum_add, bhirkulom_sum_answer,
    bhirkulom_sum_answer_no_zero,
};
use exports_by_number::{bhirkulom_count, bhirkulom_header};

pub fn slice(frame: &[u8], entry: usize) -> Packet
    ensures { (e : Entry) → entry_by entry ≡ Some e → PacketTells e frame.now result }
{
    bhirkulom_slice(frame, entry)
}

pub fn header(frame: &[u8], entry: usize, k: usize) -> HeaderReply
    ensures { (e : Entry) → entry_by entry ≡ Some e → HeaderTells e frame.now k result }
{
    bhirkulom_header(frame, entry, k)
}

#[tactic(auto, using(crate::specs::Exported::count_by))]
pub fn count(frame: &[u8], entry: usize) -> CountReply
    ensures { (e : Entry) → entry_by entry ≡ Some e → CountTells e frame.now result }
{
    bhirkulom_count(frame, entry)
}

#[tactic(auto, using(crate::specs::Exported::count_by, crate::specs::Exported::list_by))]
pub fn headers(frame: &[u8], entry: usize, k: usize, heads: &mut [usize]) -> CountReply
    ensures counted { (e : Entry) → entry_by entry ≡ Some e → CountTells e frame.now result }
    ensures listed { (e : Entry) → entry_by entry ≡ Some e → ListInOrder e frame.now k (length heads.old) heads.new }
{
    bhirkulom_headers(frame, entry, k, heads)
}

#[tactic(auto, using(crate::specs::Exported::option_reply_tells))]
pub fn option(bytes: &[u8], k: usize) -> OptionReply
    ensures { OptionReplyTells bytes.now k result }
{
    bhirkulom_option(bytes, k)
}

// Each of the two answers of a sum has its own tie, since each is a public function.
pub fn sum_of(first: &[u8], second: &[u8]) -> u16
    ensures { checksum result ≡ ask (sum_question (first.now ∷ second.now ∷ [])) }
{
    let one = bhirkulom_sum_add(0, first);
    let both = bhirkulom_sum_add(one, second);
    bhirkulom_sum_answer(both)
}

pub fn no_zero_sum_of(first: &[u8], second: &[u8]) -> u16
    ensures { checksum result ≡ ask (no_zero (first.now ∷ second.now ∷ [])) }
{
    let one = bhirkulom_sum_add(0, first);
    let both = bhirkulom_sum_add(one, second);
    bhirkulom_sum_answer_no_zero(both)
}
