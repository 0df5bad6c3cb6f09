// The Internet checksum (RFC 1071), with the names of the crate etherparse's src/checksum.rs: any slices may be added, in any number, and
// the answer is that of specs/Sum.antt over the list of them.
#![tactic(auto)]

ghost use Rattle.std.specs.Prelude.{◌≡◌, [], ◌+◌, ◌*◌, ◌≤◌, ◌<◌, ◌^◌, length, sum_by};
ghost use Rattle.std.specs.Int.{from_le_bytes, w16};
ghost use Rattle.checksum.specs.Sum.{base, ones, word, fold, totals, add_slice, answer, without_zero};
ghost use Rattle.checksum.specs.Laws.{block_length};

// Sixteen one bits, the complement of zero.
const ONES: u16 = 0xffff;

// How many bytes are summed up before the sum is folded: 32,768 words, which come to less than 2^31, so that no sum of 32 bits overflows. The
// number is even, so that a block ends where a word ends, and only the slice's own end is padded.
const BLOCK: usize = 65536;

// The sum so far, kept folded: every value of the field is a sum, no sum overflows, and so adding has nothing to refuse.
#[derive(Clone, Copy, Debug, Default, PartialEq, Eq)]
pub struct Sum16BitWords {
    pub sum: u16,
}

// The carry is added twice, which is enough: a number below 2^32 comes to at most 131,070, and that to at most 65,535.
fn folded(x: u32) -> u16
    ensures { result ≡ fold x }
{
    let once = x / 65536 + x % 65536;
    let twice = once / 65536 + once % 65536;
    twice as u16
}

// Adds a sum of words that were taken with the low byte first: 256 times as much counts as the sum of the words themselves. It is folded
// before, so that the product fits 32 bits.
fn add_turned(start: u16, sum: u32) -> u16
    ensures { result ≡ fold (start + sum * base) }
{
    let turned = u32::from(folded(sum)) * 256;
    folded(u32::from(start) + turned)
}

// The sum of pairs of bytes, the first of each as its low byte.
fn low_first(pairs: &[[u8; 2]]) -> u32
    requires { sum_by (from_le_bytes w16) pairs.now < 2 ^ 32 }
    ensures { result ≡ sum_by (from_le_bytes w16) pairs.now }
{
    pairs
        .iter()
        .map(|pair| u32::from(u16::from_le_bytes(*pair)))
        .sum()
}

// The words are taken with the low byte first, so that two bytes are one load, and folded only at the end, so that several can be added side
// by side. RFC 1071, section 2(B), "Byte Order Independence", allows it: with the bytes of every word exchanged, those of the sum are
// exchanged and nothing else, and to exchange them back is to multiply by 256.
fn add_block(start: u16, slice: &[u8]) -> u16
    requires { length slice.now ≤ block_length }
    ensures { result ≡ add_slice start slice.now }
{
    let (pairs, rest) = slice.as_chunks::<2>();
    let last = rest
        .first()
        .map_or(0, |last| u16::from_le_bytes([*last, 0]));
    add_turned(start, low_first(pairs) + u32::from(last))
}

// Block after block, and the state is folded behind each, so that no length of slice is too much. The last block is what is left, up to a
// whole one.
fn add_blocks(start: u16, slice: &[u8]) -> u16
    ensures { result ≡ add_slice start slice.now }
{
    slice.chunks(BLOCK).fold(start, add_block)
}

impl Sum16BitWords {
    // The sum of no slices.
    pub fn new() -> Self
        ensures { result.sum ≡ fold (totals []) }
    {
        Sum16BitWords { sum: 0 }
    }

    // A slice of odd length is padded with one zero byte where it ends, also when another slice follows it.
    pub fn add_slice(self, slice: &[u8]) -> Self
        ensures answer { result.sum ≡ add_slice self.sum slice.now }
        ensures unwritten { slice.exit.now ≡ slice.entry.now }
    {
        Sum16BitWords {
            sum: add_blocks(self.sum, slice),
        }
    }

    // The number that goes into the header, high byte first.
    pub fn ones_complement(self) -> u16
        ensures { result ≡ answer self.sum }
    {
        ONES - self.sum
    }

    // For UDP, where a 0 in the header says that no checksum was made.
    pub fn to_ones_complement_with_no_zero(self) -> u16
        ensures { result ≡ without_zero (answer self.sum) }
    {
        match self.ones_complement() {
            0 => ONES,
            complement => complement,
        }
    }
}
