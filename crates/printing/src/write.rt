// A text written piece by piece into a lent buffer.
// Not by `write!` into a `fmt::Write`: it promises nothing of an Err, and `print` answers None exactly where the text does not fit.
ghost use Rattle.std.specs.Prelude.{[], ◌∷◌};
ghost use Rattle.printing.specs.Text.{decimal};
ghost use Rattle.printing.specs.Put.{Wrote};

// As many as the largest number has.
const DIGITS: usize = 20;

#[derive(Drop)]
pub struct Printer<'a> {
    pub out: &'a mut [u8],
    // How long the text is so far. Once a piece did not fit there is no length, and nothing more is stored.
    pub len: Option<usize>,
}

impl Printer<'_> {
    // At once, so that the length, which lies in memory, is read and stored for each piece and not for each byte.
    // A sum that no `usize` holds is behind every buffer's end too.
    fn piece(&mut self, piece: &[u8])
        ensures { Wrote piece.now self.old self.new }
    {
        self.len = match self.len {
            Some(len) if len.saturating_add(piece.len()) <= self.out.len() => {
                self.out[len..len + piece.len()].copy_from_slice(piece);
                Some(len + piece.len())
            }
            _ => None,
        };
    }

    pub fn text(&mut self, text: &str)
        ensures { Wrote text.now self.old self.new }
    {
        self.piece(text.as_bytes());
    }

    // In decimal. The digits are found from the last to the first, so they are put together before they are written.
    pub fn number(&mut self, n: usize)
        ensures { Wrote (decimal n) self.old self.new }
    {
        let mut digits = [0; DIGITS];
        let mut at = DIGITS;
        let mut rest = n;
        while rest >= 10 {
            at -= 1;
            digits[at] = b'0' + (rest % 10) as u8;
            rest /= 10;
        }
        at -= 1;
        digits[at] = b'0' + rest as u8;
        self.piece(&digits[at..]);
    }
}
