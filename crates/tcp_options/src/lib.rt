// TCP options by number, from a lent slice that holds what follows byte 20 of a TCP header. The slice may have any length and hold any
// bytes. What stands before a refused option is listed all the same.
#![tactic(auto)]

ghost use Rattle.std.specs.Prelude.{◌≡◌, drop};
ghost use Rattle.tcp_options.specs.Options.{sound, read, options, answer_by, option_of};
ghost use Rattle.tcp_options.specs.Paper.{option_on_paper};

use big_endian::byte;

mod answer;
mod kind;

pub use answer::{OptionRefusal, OptionRow, TcpOption};
pub use kind::OptionKind;

// Whether the value of a length byte is at least 2 and not past the end: `have` bytes are there, from the option's kind on.
#[tactic(auto, unfolding(crate::specs::Options::sound))]
fn is_sound(len: usize, have: usize) -> bool
    ensures { result ≡ sound len have }
{
    (kind::LEN_LEAST..=have).contains(&len)
}

// The one option that begins at `at`. Its refusals are tested in the order of their numbers.
#[tactic(auto, using(crate::proofs::Laws::reads))]
fn read_option(s: &[u8], at: usize) -> Result<Option<TcpOption>, OptionRefusal>
    ensures { option_on_paper result ≡ answer_by at (read (drop at s.now)) }
{
    if s.len() <= at {
        return Ok(None);
    }
    let have = s.len() - at;
    let number = byte(s, at);
    let kind = OptionKind::from(number);
    if number == kind::END {
        return Ok(None);
    }
    if number == kind::NOOP {
        return Ok(Some(TcpOption {
            at,
            len: kind::LEN_NOOP,
            kind,
        }));
    }
    if have < kind::LEN_LEAST {
        return Err(OptionRefusal::NoLengthByte { offset: at });
    }
    let len = usize::from(byte(s, at + 1));
    if !is_sound(len, have) {
        return Err(OptionRefusal::LengthNotSound { offset: at });
    }
    if !kind.has_size(len) {
        return Err(OptionRefusal::WrongSize { offset: at });
    }
    Ok(Some(TcpOption { at, len, kind }))
}

// Option number k: places count from 0, and kind 1 has a place like any other. Where the options end or one is refused, that
// answer is the one for every later place too.
#[tactic(auto, using(crate::proofs::Going::going))]
pub fn option(s: &[u8], k: usize) -> Result<Option<TcpOption>, OptionRefusal>
    ensures answer { option_on_paper result ≡ option_of (options s.now) k }
    ensures unwritten { s.exit.now ≡ s.entry.now }
{
    let mut at: usize = 0;
    for _ in 0..k {
        let Some(before) = read_option(s, at)? else {
            return Ok(None);
        };
        at += before.len;
    }
    read_option(s, at)
}
