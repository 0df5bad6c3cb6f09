// What is answered of an option: the option itself, or a refusal with its number on paper.
ghost use Rattle.std.specs.Prelude.{◌≡◌};
ghost use Rattle.tcp_options.specs.Paper.{refusal_on_paper};

use crate::kind::OptionKind;

// "A listed option is its kind, offset and size". Offsets count from the start of the lent slice.
#[derive(Clone, Copy, Debug, PartialEq, Eq)]
pub struct TcpOption {
    pub at: usize,
    pub len: usize,
    pub kind: OptionKind,
}

#[derive(Clone, Copy, Debug, PartialEq, Eq)]
pub enum OptionRefusal {
    NoLengthByte { offset: usize },
    // a length below 2 or past the end
    LengthNotSound { offset: usize },
    // a known option of wrong size
    WrongSize { offset: usize },
}

// A refusal as document 01's table has it: its number, and the option's offset, which is all that it carries.
#[repr(C)]
#[derive(Clone, Copy, Debug, Default, Eq, PartialEq)]
pub struct OptionRow {
    pub number: usize,
    pub offset: usize,
}

impl From<OptionRefusal> for OptionRow {
    ghost from_gives = { λ refusal result. result ≡ refusal_on_paper refusal };

    fn from(refusal: OptionRefusal) -> OptionRow {
        match refusal {
            OptionRefusal::NoLengthByte { offset } => OptionRow { number: 8, offset },
            OptionRefusal::LengthNotSound { offset } => OptionRow { number: 9, offset },
            OptionRefusal::WrongSize { offset } => OptionRow { number: 10, offset },
        }
    }
}
