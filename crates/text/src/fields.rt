// A line's fields.
ghost use Rattle.std.specs.Prelude.{◌≡◌, ◌+◌, ◌-◌, ◌≤◌, length, drop, slice_index, slice_range};
ghost use Rattle.text.specs.Numbers.{decimal_of, bits_of, signed_of};
ghost use Rattle.text.specs.Fields.{space, spaces_of, until, start_of, field_of};

use crate::numbers::Integer;

// Where a field starts and ends.
#[derive(Clone, Copy, Debug, PartialEq, Eq)]
pub struct Part {
    pub from: usize,
    pub to: usize,
}

// The byte at a place; 0 behind the end.
pub fn byte_at(bytes: &[u8], i: usize) -> u8
    ensures { result ≡ slice_index bytes.now i }
{
    if i < bytes.len() {
        return bytes[i];
    }
    0
}

fn is_space(byte: u8) -> usize
    ensures value { result ≡ space byte }
    ensures upper_bound { result ≤ 1 }
{
    usize::from(byte == b' ')
}

// How many spaces a line has.
pub fn spaces(line: &[u8]) -> usize
    ensures { result ≡ spaces_of line.now }
{
    let mut n = 0;
    for byte in line {
        n += is_space(*byte);
    }
    n
}

// Where the field that comes after k spaces starts; the line's end where there is none.
fn start(line: &[u8], k: usize) -> usize
    ensures { (result ≤ length line.now) × (result ≡ start_of line.now k) }
{
    let mut left = k;
    for (i, byte) in line.iter().enumerate() {
        if left == 0 {
            return i;
        }
        left -= is_space(*byte);
    }
    line.len()
}

// Where the next byte `mark` stands, from a place on; the end where there is none.
pub fn end(line: &[u8], from: usize, mark: u8) -> usize
    requires { from ≤ length line.now }
    ensures { (result ≤ length line.now) × (result ≡ from + length (until mark (drop from line.now))) }
{
    for i in from..line.len() {
        if line[i] == mark {
            return i;
        }
    }
    line.len()
}

// The field that comes after k spaces; an empty one where there is none.
pub fn field(line: &[u8], k: usize) -> Part
    ensures from_le_to { (result.from ≤ result.to) × (result.to ≤ length line.now) × (result.from ≡ start_of line.now k) }
    ensures to_value { slice_range line.now result.from result.to ≡ field_of line.now k }
{
    let from = start(line, k);
    let to = end(line, from, b' ');
    Part { from, to }
}

// The number that field k spells in decimal, or none.
pub fn decimal_at(line: &[u8], k: usize) -> Option<u64>
    ensures { result ≡ decimal_of (field_of line.now k) }
{
    let p = field(line, k);
    crate::numbers::decimal(&line[p.from..p.to])
}

// The bits that field k spells in 16 hexadecimal digits, or none.
pub fn bits_at(line: &[u8], k: usize) -> Option<u64>
    ensures { result ≡ bits_of (field_of line.now k) }
{
    let p = field(line, k);
    crate::numbers::bits(&line[p.from..p.to])
}

// The signed number that field k spells in decimal, or none.
pub fn signed_at(line: &[u8], k: usize) -> Option<Integer>
    ensures { result ≡ signed_of (field_of line.now k) }
{
    let p = field(line, k);
    crate::numbers::signed(&line[p.from..p.to])
}
