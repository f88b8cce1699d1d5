// Sets as they are spelled: KEY:VALUE joined by commas, `-` the empty one.
ghost use Rattle.std.specs.Prelude.{◌≡◌, ◌+◌, ◌≤◌, min, ltb, length, drop};
ghost use Rattle.text.specs.Fields.{until};
ghost use Rattle.text.specs.Numbers.{digit_of};
ghost use Rattle.lines.specs.Spelled.{parts, attributes_of, is_dash, spelled, next, put, told, kept};
ghost use Rattle.lines.specs.Scanned.{Read, word, word_end, Scanned, attribute, part_end, Parted};

// The attributes of a set, at most nine: one more than any call takes.
pub type Attributes = [[u32; 2]; 9];

// The digits from a place on: what they say, and where they end.
#[derive(Clone, Copy, Debug, PartialEq, Eq)]
struct Number {
    x: u64,
    to: usize,
}

// A number below 2^32, and where the mark behind it stands.
#[derive(Clone, Copy, Debug, PartialEq, Eq)]
struct Word {
    x: u32,
    to: usize,
}

// A key and a value, and where their part ends.
#[derive(Clone, Copy, Debug, PartialEq, Eq)]
struct Part {
    attribute: [u32; 2],
    to: usize,
}

// The digits from a place on, `most` of them where there are more.
fn run(bytes: &[u8], from: usize, most: usize) -> Number
    requires { (from + most ≤ length bytes.now) × (most ≤ 10) }
    ensures { Read bytes.now from (from + most) result.x result.to }
{
    let mut x: u64 = 0;
    for i in from..from + most {
        let Some(d) = text::digit(bytes[i]) else {
            return Number { x, to: i };
        };
        x = x * 10 + d;
    }
    Number { x, to: from + most }
}

// The digits from a place on, ten of them where there are more: no number below 2^32 has eleven. Where ten bytes are left, how many turns
// the loop has is known to the compiler.
fn digits(bytes: &[u8], from: usize) -> Number
    requires { from ≤ length bytes.now }
    ensures { Read bytes.now from (min (from + 10) (length bytes.now)) result.x result.to }
{
    let left = bytes.len() - from;
    if 10 <= left {
        return run(bytes, from, 10);
    }
    run(bytes, from, left)
}

// Whether a byte stands at a place, other than the mark.
fn goes_on(bytes: &[u8], at: usize, mark: u8) -> bool
    ensures { result ≡ ltb 0 (length (until mark (drop at bytes.now))) }
{
    if at < bytes.len() {
        return bytes[at] != mark;
    }
    false
}

// The number from a place up to a mark or the end, or none.
fn word_at(bytes: &[u8], from: usize, mark: u8) -> Option<Word>
    requires { (from ≤ length bytes.now) × (10 ≤ digit_of mark) }
    ensures { Scanned (until mark (drop from bytes.now)) from (word result) (word_end result) }
{
    let Number { x, to } = digits(bytes, from);
    if goes_on(bytes, to, mark) {
        return None;
    }
    if text::ill_led(&bytes[from..to]) {
        return None;
    }
    match u32::try_from(x) {
        Ok(x) => Some(Word { x, to }),
        Err(_) => None,
    }
}

// The attribute that the part from a place on spells, or none.
fn attribute_at(bytes: &[u8], from: usize) -> Option<Part>
    requires { from ≤ length bytes.now }
    ensures { Parted (until 44 (drop from bytes.now)) from (attribute result) (part_end result) }
{
    let key = word_at(bytes, from, b':')?;
    if bytes.len() <= key.to {
        return None;
    }
    let value = word_at(bytes, key.to + 1, b',')?;
    Some(Part {
        attribute: [key.x, value.x],
        to: value.to,
    })
}

// Keeps an attribute if there is a place for it; how many there are then.
fn keep(attrs: &mut Attributes, n: usize, attribute: [u32; 2]) -> usize
    ensures value { result ≡ next n }
    ensures attrs_after { attrs.new ≡ put n attribute attrs.old }
{
    if n < 9 {
        attrs[n] = attribute;
        return n + 1;
    }
    n
}

// The attributes of a text that isn't `-`, one or more: how many.
fn several(bytes: &[u8], attrs: &mut Attributes) -> Option<usize>
    ensures value { result ≡ told 0 (attributes_of (parts bytes.now)) }
    ensures attrs_after { attrs.new ≡ kept 0 (attributes_of (parts bytes.now)) attrs.old }
{
    let mut n: usize = 0;
    let mut i: usize = 0;
    while i < bytes.len() {
        let part = attribute_at(bytes, i)?;
        n = keep(attrs, n, part.attribute);
        if bytes.len() <= part.to {
            return Some(n);
        }
        i = part.to + 1;
    }
    None
}

fn is_dash(bytes: &[u8]) -> bool
    ensures { result ≡ is_dash bytes.now }
{
    if bytes.len() != 1 {
        return false;
    }
    bytes[0] == b'-'
}

// How many attributes a text spells, 9 where there are more; `None` where a part is none: those before it are kept all the same.
pub fn read(bytes: &[u8], attrs: &mut Attributes) -> Option<usize>
    ensures value { result ≡ told 0 (spelled bytes.now) }
    ensures attrs_after { attrs.new ≡ kept 0 (spelled bytes.now) attrs.old }
{
    if is_dash(bytes) {
        return Some(0);
    }
    several(bytes, attrs)
}
