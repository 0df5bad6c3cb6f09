// The words of a list's lines: numbers, and what a digit or a byte of an answer stands for.
ghost use Rattle.std.specs.Prelude.{◌<◌, ◌≤◌, length};

// The text without its first byte.
pub fn behind(text: &[u8]) -> &[u8]
    ensures { length result.now ≤ length text.now }
{
    text.get(1..).unwrap_or(&[])
}

// No number of a list has more digits than this allows, and so nothing overflows.
fn with_digit(value: usize, c: u8) -> usize {
    match c.checked_sub(b'0') {
        Some(digit) if value < 1_000_000 => value * 10 + usize::from(digit),
        _ => value,
    }
}

// The number at the begin of a text, up to a space or the end, and what stands behind the space.
pub fn number(text: &[u8]) -> (usize, &[u8])
    ensures { length result.1.now ≤ length text.now }
{
    let end = text.iter().position(|c| *c == b' ').unwrap_or(text.len());
    let (digits, rest) = text.split_at(end);
    let value = digits.iter().fold(0, |value, c| with_digit(value, *c));
    (value, behind(rest))
}

// Anything but a digit counts as 0.
fn digit(c: u8) -> u8
    ensures { result < 16 }
{
    match c {
        b'0'..=b'9' => c - b'0',
        b'a'..=b'f' => c - b'a' + 10,
        _ => 0,
    }
}

pub fn pair(high: u8, low: u8) -> u8 {
    digit(high) * 16 + digit(low)
}

pub fn unslashed(c: u8) -> u8 {
    if c == b'/' { b'\n' } else { c }
}
