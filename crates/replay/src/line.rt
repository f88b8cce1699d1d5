// A line read: its letter, and its fields as numbers. Lists of bounds and keys go to where they wait, attributes into their store.
use lines::Line;
use lines::attributes::Attributes;
use replay_batches::{Floats, Integers};
use replay_state::stores::Bounds;
use replay_state::{Fields, Keys, State, after, byte, within};
use text::Integer;

// What stands for a letter where a line can't be read, and behind the input's end.
const NONE: u8 = 0;

pub const END: u8 = 1;

// The kind of field k of a line, 0 behind the last; field 0 is the letter:
//     u a u64, w a u32, h a handle, p a kept point; U, W likewise or `-`; s a scale, 128 above it, or `-`
//     x a value: its bits, or an i64's two's complement; l a list of values, read when all else is; v the number or the bits that a cell is set to; H the birth number of a handle; of a set (a) or a list (g, f) how many are there
//     one byte: D of any store, K of a kind, F of a number kind, `-` itself, T of a temporality, S of a switch
fn kind_of(letter: u8, k: usize) -> u8 {
    match letter {
        b's' => text::byte_at(b"s", k),
        b'g' => text::byte_at(b"gg", k),
        b'f' => text::byte_at(b"ff", k),
        b'u' => text::byte_at(b"uH", k),
        b'm' => text::byte_at(b"mUU", k),
        b'r' => text::byte_at(b"rxa", k),
        b'b' => text::byte_at(b"bha", k),
        b'h' => text::byte_at(b"hHx", k),
        b'R' => text::byte_at(b"Rla", k),
        b'H' => text::byte_at(b"HHl", k),
        b'k' => text::byte_at(b"kpw", k),
        b'c' => text::byte_at(b"cuWW", k),
        b'd' => text::byte_at(b"dDwwv", k),
        b'j' => text::byte_at(b"jpppwW", k),
        b'n' => text::byte_at(b"nKFWs-wTSSu", k),
        _ => 0,
    }
}

// ---- fields

fn at_most(x: u64, most: u64) -> Option<u64> {
    if most < x {
        return None;
    }
    Some(x)
}

// A field's decimal, at most so great.
fn number(line: &[u8], k: usize, most: u64) -> Option<u64> {
    at_most(text::decimal_at(line, k)?, most)
}

// A field of one byte; 0 where it is longer or empty.
fn byte_of(line: &[u8], k: usize) -> u8 {
    let p = text::field(line, k);
    if p.to - p.from != 1 {
        return 0;
    }
    text::byte_at(line, p.from)
}

// A field of one byte that is among those given.
fn one_of(line: &[u8], k: usize, all: &[u8]) -> Option<u64> {
    let byte = byte_of(line, k);
    if text::end(all, 0, byte) < all.len() {
        return Some(byte as u64);
    }
    None
}

// A field's decimal, at most so great; the greatest number for `-`.
fn optional(line: &[u8], k: usize, most: u64) -> Option<u64> {
    if byte_of(line, k) == b'-' {
        return Some(u64::MAX);
    }
    number(line, k, most)
}

// A scale from -128 to 127 with 128 added; the greatest number for `-`.
fn scale_of(line: &[u8], k: usize) -> Option<u64> {
    if byte_of(line, k) == b'-' {
        return Some(u64::MAX);
    }
    let Integer { negative, size } = text::signed_at(line, k)?;
    if 128 < size {
        return None;
    }
    if negative {
        return Some(128 - size);
    }
    at_most(128 + size, 255)
}

// What a cell is set to: bits where the store holds f64; the minimum, maximum and sum of a map over i64 are not.
fn cell_of(line: &[u8], k: usize, kind: u8) -> Option<u64> {
    let store = byte_of(line, 1);
    if store == b'm' && replay_state::is_whole(kind) {
        return text::decimal_at(line, k);
    }
    if text::end(b"mbBl", 0, store) < 4 {
        return text::bits_at(line, k);
    }
    text::decimal_at(line, k)
}

// The two's complement of a decimal i64.
fn whole_at(line: &[u8], k: usize) -> Option<u64> {
    let Integer { negative, size } = text::signed_at(line, k)?;
    if !negative {
        return at_most(size, 0x7FFF_FFFF_FFFF_FFFF);
    }
    if size == 0 || 0x8000_0000_0000_0000 < size {
        return None;
    }
    Some(u64::MAX - (size - 1))
}

// A value, of the number kind that was configured.
fn value_at(line: &[u8], k: usize, kind: u8) -> Option<u64> {
    if replay_state::is_whole(kind) {
        return whole_at(line, k);
    }
    text::bits_at(line, k)
}

fn plain(line: &[u8], k: usize, kind: u8) -> Option<u64> {
    match kind {
        b'u' => text::decimal_at(line, k),
        b'w' => number(line, k, 0xFFFF_FFFF),
        b'h' => number(line, k, 99),
        b'p' => number(line, k, 7),
        b'U' => optional(line, k, u64::MAX),
        b'W' => optional(line, k, 0xFFFF_FFFF),
        b's' => scale_of(line, k),
        b'D' => Some(byte_of(line, k) as u64),
        b'K' => one_of(line, k, b"exsl"),
        b'F' => one_of(line, k, b"fi"),
        b'-' => one_of(line, k, b"-"),
        b'T' => one_of(line, k, b"dcl"),
        b'S' => one_of(line, k, b"01"),
        _ => Some(0),
    }
}

// ---- lists, sets and handles

// A bound or a key put behind n that wait: how many there are then.
fn put(letter: u8, bytes: &[u8], n: usize, bounds: &mut Bounds, keys: &mut Keys) -> Option<usize> {
    if letter == b'g' {
        let x = text::bits(bytes)?;
        if 200 <= n {
            return None;
        }
        bounds[n] = floats::of_bits(x);
        return Some(n + 1);
    }
    let x = text::decimal(bytes)?;
    if 32 <= n || 0xFFFF_FFFF < x {
        return None;
    }
    keys[n] = replay_state::cut(x);
    Some(n + 1)
}

// The list of a line `g` or `f` put behind n that wait: how many there are then.
fn list(letter: u8, line: &[u8], n: usize, bounds: &mut Bounds, keys: &mut Keys) -> Option<u64> {
    let mut many = n;
    let mut i: usize = 2;
    while i < line.len() {
        let e = text::end(line, i, b',');
        many = put(letter, &line[i..e], many, bounds, keys)?;
        if line.len() <= e {
            return Some(many as u64);
        }
        i = e + 1;
    }
    None
}

// A list put behind those that wait.
fn waiting(letter: u8, line: &[u8], s: State, bounds: &mut Bounds, keys: &mut Keys) -> Option<u64> {
    let n = if letter == b'g' {
        s.next_bounds
    } else {
        s.next_keys
    };
    if byte_of(line, 1) == b'-' {
        return Some(n);
    }
    list(letter, line, n as usize, bounds, keys)
}

// A value put behind n of its line, into the store of its number: how many there are then.
fn put_value(
    bytes: &[u8],
    n: usize,
    kind: u8,
    floats: &mut Floats,
    integers: &mut Integers,
) -> Option<usize> {
    let x = value_at(bytes, 0, kind)?;
    if 100 <= n {
        return None;
    }
    if replay_state::is_whole(kind) {
        integers[n] = integers::of_bits(x);
        return Some(n + 1);
    }
    floats[n] = floats::of_bits(x);
    Some(n + 1)
}

// The values of a list: how many they are.
fn values(list: &[u8], kind: u8, floats: &mut Floats, integers: &mut Integers) -> Option<u64> {
    let mut many: usize = 0;
    let mut i: usize = 0;
    while i < list.len() {
        let e = text::end(list, i, b',');
        many = put_value(&list[i..e], many, kind, floats, integers)?;
        if list.len() <= e {
            return Some(many as u64);
        }
        i = e + 1;
    }
    None
}

// The list of values of a field.
fn values_at(
    line: &[u8],
    k: usize,
    kind: u8,
    floats: &mut Floats,
    integers: &mut Integers,
) -> Option<u64> {
    if byte_of(line, k) == b'-' {
        return Some(0);
    }
    let p = text::field(line, k);
    let a = p.from;
    let e = p.to;
    values(&line[a..e], kind, floats, integers)
}

// The set of a line, its second field: how many attributes it has.
fn set(line: &[u8], attrs: &mut Attributes) -> Option<u64> {
    let p = text::field(line, 2);
    let from = p.from;
    let n = line.len();
    let many = lines::attributes::read(&line[from..n], attrs)?;
    Some(many as u64)
}

// The birth number in the place of a handle.
fn birth(s: State, handle: Option<u64>) -> Option<u64> {
    let i = within(handle?, 99);
    Some(s.handles[i])
}

// ---- lines

fn value(
    line: &[u8],
    k: usize,
    kind: u8,
    s: State,
    attrs: &mut Attributes,
    bounds: &mut Bounds,
    keys: &mut Keys,
) -> Option<u64> {
    match kind {
        b'a' => set(line, attrs),
        b'g' | b'f' => waiting(kind, line, s, bounds, keys),
        b'H' => birth(s, number(line, k, 99)),
        b'x' => value_at(line, k, s.kind),
        b'v' => cell_of(line, k, s.kind),
        _ => plain(line, k, kind),
    }
}

// The fields of a line by their kinds: whether each can be read.
fn take(
    line: &[u8],
    letter: u8,
    s: State,
    f: &mut Fields,
    attrs: &mut Attributes,
    bounds: &mut Bounds,
    keys: &mut Keys,
) -> bool {
    for k in 1..11 {
        let found = value(line, k, kind_of(letter, k), s, attrs, bounds, keys);
        let Some(x) = found else {
            return false;
        };
        f[k] = x;
    }
    true
}

// Whether an `n` has the fields of its kind, of which only `e` has a size and a scale, and only `e` and `x` a number kind `i`.
fn is_kind(f: &Fields) -> bool {
    let sized = f[1] == 101;
    if f[2] == 105 && !sized && f[1] != 120 {
        return false;
    }
    sized == (f[3] != u64::MAX) && sized == (f[4] != u64::MAX)
}

// Whether an `n` has the fields of its kind, and a call of a map comes after an accepted `n`.
fn is_form(letter: u8, kind: u8, f: &Fields) -> bool {
    match letter {
        b'n' => is_kind(f),
        b'r' | b'h' | b'R' | b'H' | b'c' | b'b' | b'u' => kind != 0,
        _ => true,
    }
}

// Whether a line of a letter has so many fields behind it.
fn has_form(letter: u8, n: usize) -> bool {
    if 10 < n {
        return false;
    }
    let behind = n + 1;
    kind_of(letter, n) != 0 && kind_of(letter, behind) == 0
}

// A line of a letter, of which no field is asked for.
fn bare(s: State, letter: u8) -> State {
    let mut next = s;
    next.letter = letter;
    next.of = 0;
    next.no = Ok(());
    next
}

// A line that can't be read.
fn unread(s: State) -> State {
    after::unread(bare(s, NONE))
}

// The kind that an `n` asks for, over i64 its capital letter.
fn kind_in(f: &Fields) -> u8 {
    let kind = byte(f[1]);
    if f[2] == 105 && 32 <= kind {
        return kind - 32;
    }
    kind
}

// A line of a letter with its fields, and what it says for lines behind it.
fn told(s: State, letter: u8, f: Fields) -> State {
    let mut next = bare(s, letter);
    next.f = f;
    match letter {
        b'n' => {
            next.of = kind_in(&f);
            next.f[1] = next.of as u64;
        }
        b'r' | b'h' | b'R' | b'H' | b'c' | b'b' | b'u' => next.of = s.kind,
        b'g' => next.next_bounds = f[1],
        b'f' => {
            next.next_keys = f[1];
            next.next_filtered = true;
        }
        b'm' => {
            next.counts = within(f[1], 10560) as u64;
            next.entries = within(f[2], 66) as u64;
        }
        _ => {}
    }
    next
}

// A line of which each field can be read.
fn whole(line: &[u8], s: State, attrs: &mut Attributes, bounds: &mut Bounds) -> State {
    let letter = byte_of(line, 0);
    let n = text::spaces(line);
    if letter == b'=' && 0 < n {
        return bare(s, letter);
    }
    if !has_form(letter, n) {
        return unread(s);
    }
    let mut f = [0u64; 11];
    let mut keys = s.next_filter;
    if !take(line, letter, s, &mut f, attrs, bounds, &mut keys) {
        return unread(s);
    }
    if !is_form(letter, s.kind, &f) {
        return unread(s);
    }
    let mut next = told(s, letter, f);
    next.next_filter = keys;
    next
}

// The field of a line that is a list of values, 0 where none is.
fn list_of(letter: u8) -> u64 {
    match letter {
        b'R' => 1,
        b'H' => 2,
        _ => 0,
    }
}

// A line of which all but its list of values was read, with that list.
fn with_values(line: &[u8], s: State, floats: &mut Floats, integers: &mut Integers) -> State {
    let k = within(list_of(s.letter), 2);
    if k == 0 {
        return s;
    }
    let Some(many) = values_at(line, k, s.kind, floats, integers) else {
        return unread(s);
    };
    let mut next = s;
    next.f[k] = many;
    next
}

// A line of len bytes. One that fills its store is too long; an empty one behind the input's last is its end.
pub fn read(
    s: State,
    line: &Line,
    len: usize,
    over: bool,
    attrs: &mut Attributes,
    bounds: &mut Bounds,
    floats: &mut Floats,
    integers: &mut Integers,
) -> State {
    if len == 0 {
        return if over { bare(s, END) } else { unread(s) };
    }
    if line[0] == b'#' {
        return bare(s, b'#');
    }
    if 256 <= len {
        return unread(s);
    }
    let front = lines::input::front(line, len);
    let next = whole(front, s, attrs, bounds);
    with_values(front, next, floats, integers)
}
