// The headers of a frame as numbers, by number, and their count. All three are one walk, and it is finished before anything
// is answered: a refused frame answers its refusal alone.
ghost use Rattle.std.specs.Prelude.{◌≡◌, length};
ghost use Rattle.rules.specs.Walk.{header_of, count_of, slices};
ghost use Rattle.laws.specs.Zeros.{zeros};
ghost use Rattle.steps.specs.Lists.{
  header_on_paper,
  count_on_paper,
  headers_read,
  written_from,
  list_of,
};

use crate::place::{first, room_behind};
use one_header::header_at;
use rules::{Entry, HEADER_WORDS, Header, Refusal, Turn};

// All the lent numbers become zeros.
pub fn clear(out: &mut [usize])
    ensures { out.new ≡ zeros (length out.old) }
{
    out.fill(0);
}

// The walk of a frame: each header from number k on is written as the walk comes to it, as far as there is room for all of its numbers;
// also those in front of a refusal. The answer is how many headers the frame has.
fn walk(s: &[u8], entry: Entry, k: usize, out: &mut [usize]) -> Result<usize, Refusal>
    ensures answer { count_on_paper result ≡ count_of (slices entry s.now) }
    ensures written { out.new ≡ written_from k (headers_read (slices entry s.now)) out.old }
{
    let begin = first(s, entry);
    let mut kind = begin.kind;
    let mut at = begin.at;
    let mut room = begin.room;
    let mut count: usize = 0;
    let spare = out.len() / HEADER_WORDS;
    loop {
        let x = header_at(&s[at..room.end], kind, at, room)?;
        if k <= count {
            let to = count - k;
            if to < spare {
                let base = HEADER_WORDS * to;
                let second = base + 1;
                let third = base + 2;
                out[base] = kind.number();
                out[second] = at;
                out[third] = x.len;
            }
        }
        count += 1;
        let past = at + x.len;
        match x.turn {
            Turn::Opens(next) => {
                room = room_behind(next, at, x, room);
                kind = next;
                at = past;
            }
            Turn::Stops(_) => {
                return Ok(count);
            }
            Turn::LateHopByHop => {
                return Err(Refusal::HopByHopNotAtStart { offset: past });
            }
        }
    }
}

// The headers of a frame from number k on, three numbers each (kind, offset, length), as many as the lent numbers have room for, and
// zeros behind them; the answer is how many headers the frame has. Of a refused frame there are zeros alone. Numbers and no `Header`s: C lends
// them, as many as it likes.
pub fn headers(s: &[u8], entry: Entry, k: usize, out: &mut [usize]) -> Result<usize, Refusal>
    ensures answer { count_on_paper result ≡ count_of (slices entry s.now) }
    ensures listed { out.new ≡ list_of (slices entry s.now) k (length out.old) }
    ensures unwritten { s.exit.now ≡ s.entry.now }
{
    match walk(s, entry, k, out) {
        Ok(count) => {
            let listed = count.saturating_sub(k).min(out.len() / HEADER_WORDS);
            out[HEADER_WORDS * listed..].fill(0);
            Ok(count)
        }
        Err(refusal) => {
            clear(out);
            Err(refusal)
        }
    }
}

// Header number k of a frame. Its fields are taken out one by one: with a `From` of three numbers any three would make a header.
pub fn header(s: &[u8], entry: Entry, k: usize) -> Result<Option<Header>, Refusal>
    ensures answer { header_on_paper result ≡ header_of (slices entry s.now) k }
    ensures unwritten { s.exit.now ≡ s.entry.now }
{
    let mut one = [0; HEADER_WORDS];
    let count = headers(s, entry, k, &mut one)?;
    if k < count {
        return Ok(Some(Header {
            kind: one[0],
            at: one[1],
            len: one[2],
        }));
    }
    Ok(None)
}

// How many headers a frame has.
pub fn count(s: &[u8], entry: Entry) -> Result<usize, Refusal>
    ensures answer { count_on_paper result ≡ count_of (slices entry s.now) }
    ensures unwritten { s.exit.now ≡ s.entry.now }
{
    headers(s, entry, 0, &mut [])
}
