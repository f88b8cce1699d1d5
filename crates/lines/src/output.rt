// Text gathered in a block, which is written when it is full or when somebody may wait for it. What is written no contract can say; what
// waits in the block, and how much, they say.
ghost use Rattle.std.specs.Prelude.{◌≡◌, [], ◌∷◌, ◌<◌, ◌≤◌, drop};
ghost use Rattle.text.specs.Numbers.{hex_digits};
ghost use Rattle.lines.specs.Gathered.{place, waiting, ◌behind◌};
ghost use Rattle.lines.specs.Written as Written;

use crate::Block;
use std::io::{Print, Stdout};

// Writes all bytes. Where that fails the rest is lost, and the program goes on.
fn write_all(out: &Stdout, bytes: &[u8]) {
    match out.write_all(bytes) {
        Ok(()) => (),
        Err(_) => (),
    }
}

// Writes the first n bytes, all where there are no more.
fn write_first(out: &Stdout, bytes: &[u8], n: usize) {
    if n < bytes.len() {
        write_all(out, &bytes[0..n]);
    } else {
        write_all(out, bytes);
    }
}

// Writes the first n bytes of the text.
pub fn write(out: &Stdout, text: &Block, n: usize) {
    write_first(out, text, n);
}

// Where the next byte goes behind n: a full block is written first.
fn room(out: &Stdout, text: &Block, n: usize) -> usize
    ensures { (result < 65536) × (result ≡ place n) }
{
    if n < 65536 {
        return n;
    }
    write(out, text, 65536);
    0
}

// A byte behind n others; how many there are then.
pub fn byte(out: &Stdout, text: &mut Block, n: usize, b: u8) -> usize
    ensures { waiting result text.new ≡ b ∷ [] behind waiting n text.old }
{
    let at = room(out, text, n);
    text[at] = b;
    at + 1
}

// Bytes behind n others.
pub fn bytes(out: &Stdout, text: &mut Block, n: usize, all: &[u8]) -> usize
    ensures { waiting result text.new ≡ all.now behind waiting n text.old }
{
    let mut m = n;
    for b in all {
        m = byte(out, text, m, *b);
    }
    m
}

// Puts a number's decimal digits at the end of 20 bytes; where they start.
fn decimal_digits(x: u64, digits: &mut [u8; 20]) -> usize
    ensures in_bounds { result ≤ 20 }
    ensures value { drop result digits.new ≡ Written.decimal x }
{
    let mut rest = x;
    let mut i: usize = 19;
    while 10 <= rest {
        digits[i] = 48 + (rest % 10) as u8;
        rest = rest / 10;
        i -= 1;
    }
    digits[i] = 48 + rest as u8;
    i
}

// A number in decimal.
pub fn decimal(out: &Stdout, text: &mut Block, n: usize, x: u64) -> usize
    ensures { waiting result text.new ≡ Written.decimal x behind waiting n text.old }
{
    let mut digits = [0u8; 20];
    let from = decimal_digits(x, &mut digits);
    bytes(out, text, n, &digits[from..])
}

// A signed number in decimal. The least has no i64 of the other sign: the next above it has.
pub fn signed(out: &Stdout, text: &mut Block, n: usize, x: i64) -> usize
    ensures { waiting result text.new ≡ Written.signed x behind waiting n text.old }
{
    if x < 0 {
        let m = byte(out, text, n, b'-');
        return decimal(out, text, m, (0 - (x + 1)) as u64 + 1);
    }
    decimal(out, text, n, x as u64)
}

fn sixteen(out: &Stdout, text: &mut Block, n: usize, digits: &[u8; 16]) -> usize
    ensures { waiting result text.new ≡ digits.now behind waiting n text.old }
{
    bytes(out, text, n, digits)
}

// Bits as 16 hexadecimal digits.
pub fn bits(out: &Stdout, text: &mut Block, n: usize, x: u64) -> usize
    ensures { waiting result text.new ≡ hex_digits 16 x behind waiting n text.old }
{
    let digits = text::hex_digits(x);
    sixteen(out, text, n, &digits)
}
