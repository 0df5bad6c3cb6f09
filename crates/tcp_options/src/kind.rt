// The known kinds of TCP option, with their numbers and sizes: RFC 9293 (0, 1, 2), RFC 7323 (3, 8), RFC 2018 (4, 5).
ghost use Rattle.std.specs.Prelude.{◌≡◌};
ghost use Rattle.tcp_options.specs.Options.{named, number_of, sizes_of, fits};
ghost use Rattle.tcp_options.specs.Paper.{kind_on_paper};

// Ends the list, and is no option itself.
pub const END: u8 = 0;

pub const NOOP: u8 = 1;

pub const MAXIMUM_SEGMENT_SIZE: u8 = 2;

pub const WINDOW_SCALE: u8 = 3;

pub const SELECTIVE_ACK_PERMITTED: u8 = 4;

pub const SELECTIVE_ACK: u8 = 5;

pub const TIMESTAMP: u8 = 8;

// Sizes in bytes, kind and length byte counted.
pub const LEN_NOOP: usize = 1;

pub const LEN_MAXIMUM_SEGMENT_SIZE: usize = 4;

pub const LEN_WINDOW_SCALE: usize = 3;

pub const LEN_SELECTIVE_ACK_PERMITTED: usize = 2;

pub const LEN_TIMESTAMP: usize = 10;

// A selective acknowledgement of one, two, three or four blocks.
pub const LEN_SELECTIVE_ACK_1: usize = 10;

pub const LEN_SELECTIVE_ACK_2: usize = 18;

pub const LEN_SELECTIVE_ACK_3: usize = 26;

pub const LEN_SELECTIVE_ACK_4: usize = 34;

// What every option but NOOP has at least: its kind and its length byte.
pub const LEN_LEAST: usize = 2;

#[derive(Clone, Copy, Debug, PartialEq, Eq)]
pub enum OptionKind {
    Noop,
    MaximumSegmentSize,
    WindowScale,
    SelectiveAcknowledgementPermitted,
    SelectiveAcknowledgement,
    Timestamp,
    // any other kind, with its number
    Unknown(u8),
}

impl From<u8> for OptionKind {
    ghost from_gives = { λ number result. kind_on_paper result ≡ named number };

    #[tactic(auto, unfolding(crate::specs::Options::named))]
    fn from(number: u8) -> OptionKind {
        match number {
            NOOP => OptionKind::Noop,
            MAXIMUM_SEGMENT_SIZE => OptionKind::MaximumSegmentSize,
            WINDOW_SCALE => OptionKind::WindowScale,
            SELECTIVE_ACK_PERMITTED => OptionKind::SelectiveAcknowledgementPermitted,
            SELECTIVE_ACK => OptionKind::SelectiveAcknowledgement,
            TIMESTAMP => OptionKind::Timestamp,
            _ => OptionKind::Unknown(number),
        }
    }
}

impl OptionKind {
    // The number that stands in the option's first byte. A method and no `From`: `u8::from(kind)` doesn't say what the byte is.
    pub fn number(self) -> u8
        ensures { result ≡ number_of (kind_on_paper self) }
    {
        match self {
            OptionKind::Noop => NOOP,
            OptionKind::MaximumSegmentSize => MAXIMUM_SEGMENT_SIZE,
            OptionKind::WindowScale => WINDOW_SCALE,
            OptionKind::SelectiveAcknowledgementPermitted => SELECTIVE_ACK_PERMITTED,
            OptionKind::SelectiveAcknowledgement => SELECTIVE_ACK,
            OptionKind::Timestamp => TIMESTAMP,
            OptionKind::Unknown(number) => number,
        }
    }

    // Whether an option of this kind may have this size. An unknown one may have any.
    #[tactic(auto, using(crate::proofs::Laws::test_is), unfolding(crate::specs::Options::sizes_of))]
    pub(crate) fn has_size(self, len: usize) -> bool
        ensures { result ≡ fits len (sizes_of (kind_on_paper self)) }
    {
        match self {
            OptionKind::Noop => len == LEN_NOOP,
            OptionKind::MaximumSegmentSize => len == LEN_MAXIMUM_SEGMENT_SIZE,
            OptionKind::WindowScale => len == LEN_WINDOW_SCALE,
            OptionKind::SelectiveAcknowledgementPermitted => len == LEN_SELECTIVE_ACK_PERMITTED,
            OptionKind::SelectiveAcknowledgement => matches!(
                len,
                LEN_SELECTIVE_ACK_1
                    | LEN_SELECTIVE_ACK_2
                    | LEN_SELECTIVE_ACK_3
                    | LEN_SELECTIVE_ACK_4
            ),
            OptionKind::Timestamp => len == LEN_TIMESTAMP,
            OptionKind::Unknown(_number) => true,
        }
    }
}
