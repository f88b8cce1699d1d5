// The fields of a line: those that the points of both kinds have, and numbers within limits.
use text::Integer;

// What a point of either kind has.
#[derive(Clone, Copy, Debug, PartialEq)]
pub struct Held {
    pub count: u64,
    pub extremes: bool,
    pub min: Option<f64>,
    pub max: Option<f64>,
    pub sum: f64,
}

// A field of one byte; 0 where it is longer or empty.
fn byte_of(line: &[u8], k: usize) -> u8 {
    let p = text::field(line, k);
    if p.to - p.from != 1 {
        return 0;
    }
    text::byte_at(line, p.from)
}

// The letter that a line begins with.
pub fn letter_in(line: &[u8]) -> u8 {
    byte_of(line, 0)
}

// A field's decimal, at most so great.
pub fn number_at(line: &[u8], k: usize, most: u64) -> Option<u64> {
    let x = text::decimal_at(line, k)?;
    if most < x {
        return None;
    }
    Some(x)
}

// The level of a field's scale: 0 to 30, above 20 of a scale that no point has.
pub fn level_at(line: &[u8], k: usize) -> Option<u64> {
    let Integer { negative, size } = text::signed_at(line, k)?;
    if negative {
        return 10u64.checked_sub(size);
    }
    if 20 < size {
        return None;
    }
    Some(10 + size)
}

// A minimum or a maximum as it is spelled: bits, or `-` where the point has none.
fn extreme_at(line: &[u8], k: usize) -> Option<Option<f64>> {
    if byte_of(line, k) == b'-' {
        return Some(None);
    }
    let bits = text::bits_at(line, k)?;
    Some(Some(floats::of_bits(bits)))
}

// The fields COUNT SWITCH MIN MAX SUM behind the letter.
pub fn held_in(line: &[u8]) -> Option<Held> {
    let count = text::decimal_at(line, 1)?;
    let switch = number_at(line, 2, 1)?;
    let min = extreme_at(line, 3)?;
    let max = extreme_at(line, 4)?;
    let sum = text::bits_at(line, 5)?;
    Some(Held {
        count,
        extremes: switch == 1,
        min,
        max,
        sum: floats::of_bits(sum),
    })
}
