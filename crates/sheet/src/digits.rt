// Bytes as hexadecimal digits 0-9 and A-F, two to a byte: a line of 64 digits is a record.
ghost use Rattle.std.specs.Prelude.{◌≡◌, true, ◌+◌, ◌*◌, ◌/◌, ◌<◌, min, length};
ghost use Rattle.std.proofs.lemmas.List.Edits.{sets};
ghost use Rattle.laws.specs.Tests.{all as all_of};
ghost use Rattle.text.specs.Numbers.{digit_of, glyph_of};
ghost use Rattle.lines.specs.Gathered.{waiting, ◌behind◌};
ghost use Rattle.sheet.specs.Digits.{hex_of, record_line, record_lines, is_digit, is_record, bytes_in};

use crate::state::Bytes;
use lines::{Block, output};
use std::io::Stdout;

// ---- written

fn glyph(d: u8) -> u8
    requires { d < 16 }
    ensures { result ≡ glyph_of d }
{
    if d < 10 {
        return 48 + d;
    }
    55 + d
}

// Bytes behind n others; how many there are then.
fn digits_of(out: &Stdout, text: &mut Block, n: usize, bytes: &[u8]) -> usize
    ensures { waiting result text.new ≡ hex_of bytes.now behind waiting n text.old }
{
    let mut m = n;
    for byte in bytes {
        let a = output::byte(out, text, m, glyph(byte / 16));
        m = output::byte(out, text, a, glyph(byte % 16));
    }
    m
}

// The line of a record.
fn record_line(out: &Stdout, text: &mut Block, n: usize, bytes: &[u8]) -> usize
    ensures { waiting result text.new ≡ record_line bytes.now behind waiting n text.old }
{
    let m = digits_of(out, text, n, bytes);
    output::byte(out, text, m, b'\n')
}

// The lines of all records.
pub fn record_lines(out: &Stdout, text: &mut Block, n: usize, bytes: &[u8]) -> usize
    ensures { waiting result text.new ≡ record_lines (length bytes.now / 32) bytes.now behind waiting n text.old }
{
    let many = bytes.len() / 32;
    let mut m = n;
    for k in 0..many {
        let a = k * 32;
        let e = a + 32;
        m = record_line(out, text, m, &bytes[a..e]);
    }
    m
}

// ---- read

// The value of a digit; 16 where the byte is none.
fn digit(byte: u8) -> u8
    ensures { result ≡ digit_of byte }
{
    if byte < 48 {
        return 16;
    }
    if byte <= 57 {
        return byte - 48;
    }
    if byte < 65 {
        return 16;
    }
    if byte <= 70 {
        return byte - 55;
    }
    16
}

fn are_digits(bytes: &[u8]) -> bool
    ensures { result ≡ all_of is_digit bytes.now }
{
    for byte in bytes {
        if digit(*byte) > 15 {
            return false;
        }
    }
    true
}

// Whether a line is a record.
pub fn is_record(line: &[u8]) -> bool
    ensures { result ≡ is_record line.now }
{
    if line.len() != 64 {
        return false;
    }
    are_digits(line)
}

// The byte of two digits.
fn byte_of(a: u8, b: u8) -> u8
    requires { (digit_of a < 16) × (digit_of b < 16) }
    ensures { result ≡ digit_of a * 16 + digit_of b }
{
    digit(a) * 16 + digit(b)
}

// Puts a record behind the bytes of a sheet that are there; how many there are then. No sheet has more than its store has room for.
pub fn put(sheet: &mut Bytes, at: usize, line: &[u8]) -> usize
    requires { is_record line.now ≡ true }
    ensures value { result ≡ min at 233472 + 32 }
    ensures sheet_after { sheet.new ≡ sets sheet.old (min at 233472) (bytes_in line.now) }
{
    let from = at.min(233472);
    for i in 0..32 {
        sheet[from + i] = byte_of(line[2 * i], line[2 * i + 1]);
    }
    from + 32
}
