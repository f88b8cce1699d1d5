// What the lines say: `e SIZE SCALE LIMIT START`, `r BITS SET`, `c TIME`.
ghost use Rattle.std.specs.Prelude.{◌≡◌, ◌≤◌};
ghost use Rattle.gauge_lines.specs.Lines.{size_in, with_sign, scale_in, settings_of, board_of, attributes_in, time_of, letter_of, call_of};

use lines::attributes::Attributes;
use text::Integer;

// What a line asks for: there is no line; it can't be followed; a call.
#[derive(Clone, Copy, Debug, PartialEq, Eq)]
pub enum Call {
    None,
    Unread,
    Start,
    Record,
    Collect,
}

// What a line `e` asks for.
#[derive(Clone, Copy, Debug, PartialEq, Eq)]
pub struct Wanted {
    pub size: u32,
    pub scale: i32,
    pub limit: u64,
    pub start: u64,
}

// What a line `r` brings: the value's bits, and how many attributes.
#[derive(Clone, Copy, Debug, PartialEq, Eq)]
pub struct Board {
    pub bits: u64,
    pub many: usize,
}

// A map's size; no size has more than three digits.
fn size_of(n: Option<u64>) -> Option<u32>
    ensures { result ≡ size_in n }
{
    let x = n?;
    if x > 999 {
        return None;
    }
    Some(x as u32)
}

// A number with its sign; no scale has more than three digits.
fn with_sign(negative: bool, size: u64) -> i32
    requires { size ≤ 999 }
    ensures { result ≡ with_sign negative size }
{
    let n = (size % 1000) as i32;
    if negative { 0 - n } else { n }
}

fn scale_of(n: Option<Integer>) -> Option<i32>
    ensures { result ≡ scale_in n }
{
    let x = n?;
    if x.size > 999 {
        return None;
    }
    Some(with_sign(x.negative, x.size))
}

// The settings of a line `e`.
pub fn settings_in(line: &[u8]) -> Option<Wanted>
    ensures { result ≡ settings_of line.now }
{
    if text::spaces(line) != 4 {
        return None;
    }
    let size = size_of(text::decimal_at(line, 1))?;
    let scale = scale_of(text::signed_at(line, 2))?;
    let limit = text::decimal_at(line, 3)?;
    let start = text::decimal_at(line, 4)?;
    if limit > crate::cells::MOST_LIMIT {
        return None;
    }
    Some(Wanted {
        size,
        scale,
        limit,
        start,
    })
}

// The value and the set of a line `r`: bits have 16 digits, so both stand at their places. The set is read first, so that the bits need
// not be kept while it is.
pub fn board_in(line: &[u8], attrs: &mut Attributes) -> Option<Board>
    ensures value { result ≡ board_of line.now }
    ensures attrs_after { attrs.new ≡ attributes_in line.now attrs.old }
{
    if line.len() < 20 {
        return None;
    }
    if line[18] != b' ' {
        return None;
    }
    let many = lines::attributes::read(&line[19..], attrs)?;
    let bits = text::bits(&line[2..18])?;
    Some(Board { bits, many })
}

// The time of a line `c`.
pub fn time_in(line: &[u8]) -> Option<u64>
    ensures { result ≡ time_of line.now }
{
    if text::spaces(line) != 1 {
        return None;
    }
    text::decimal_at(line, 1)
}

// The letter of a line, which a space follows; 0 where there is none.
fn letter_in(line: &[u8]) -> u8
    ensures { result ≡ letter_of line.now }
{
    if text::byte_at(line, 1) != b' ' {
        return 0;
    }
    text::byte_at(line, 0)
}

// The call that a line asks for, by its letter: before a map is running only `e` is followed. Where the input is over there may be no line.
pub fn call_in(line: &[u8], running: bool, over: bool) -> Call
    ensures { result ≡ call_of line.now running over }
{
    let n = line.len();
    if n == 0 {
        return if over { Call::None } else { Call::Unread };
    }
    if n > 255 {
        return Call::Unread;
    }
    let letter = letter_in(line);
    if letter == b'e' {
        return Call::Start;
    }
    if !running {
        return Call::Unread;
    }
    if letter == b'r' {
        return Call::Record;
    }
    if letter == b'c' {
        Call::Collect
    } else {
        Call::Unread
    }
}
