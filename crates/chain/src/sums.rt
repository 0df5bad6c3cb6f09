// Each of the two answers of a sum has its own tie, since each is a public function. Sums of two slices, added one after the other: what the table of frames has for them (F10, F11).
ghost use Rattle.std.specs.Prelude.{◌≡◌, [], ◌∷◌};
ghost use Rattle.chain.specs.Frames.{ask, sum, no_zero, checksum};

use checksum::Sum16BitWords;

pub fn sum_of(first: &[u8], second: &[u8]) -> u16
    ensures { checksum result ≡ ask (sum (first.now ∷ second.now ∷ [])) }
{
    let none = Sum16BitWords::new();
    let one = none.add_slice(first);
    let both = one.add_slice(second);
    both.ones_complement()
}

pub fn no_zero_sum_of(first: &[u8], second: &[u8]) -> u16
    ensures { checksum result ≡ ask (no_zero (first.now ∷ second.now ∷ [])) }
{
    let none = Sum16BitWords::new();
    let one = none.add_slice(first);
    let both = one.add_slice(second);
    both.to_ones_complement_with_no_zero()
}
