// Whether a header says that its packet is a fragment, and which: one at offset 0 is the first, any other a later one.
ghost use Rattle.std.specs.Prelude.{◌≡◌};
ghost use Rattle.rules.specs.Fields.{fragment_by, marking};

#[derive(Clone, Copy, Debug, PartialEq, Eq)]
pub enum Fragment {
    Not,
    First,
    Later,
}

impl Fragment {
    // By a fragment offset and a more-fragments bit.
    pub fn by(offset: u16, more: u16) -> Self
        ensures { result ≡ fragment_by offset more }
    {
        if offset != 0 {
            return Fragment::Later;
        }
        if more != 0 {
            return Fragment::First;
        }
        Fragment::Not
    }

    // The packet's mark behind this header, where `marked` is the mark before it.
    pub fn marks(self, marked: bool) -> bool
        ensures { result ≡ marking self marked }
    {
        match self {
            Fragment::Not => marked,
            Fragment::First => true,
            Fragment::Later => true,
        }
    }
}
