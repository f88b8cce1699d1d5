// The sheet of a list that was collected, as text: `s RECORDS`, and a line for each record.
ghost use Rattle.std.specs.Prelude.{◌≡◌, take};
ghost use Rattle.lines.specs.Gathered.{waiting, ◌behind◌};
ghost use Rattle.pooling.specs.Lists.{source};
ghost use Rattle.sheet_writing.specs.Writing.{writing};
ghost use Rattle.sheet.specs.Shown.{refusal_line, sheet_lines, wrote, wrote_by};

use crate::state::{Bytes, ListedBounds, ListedCounts, ListedSets, ListedWords};
use lines::{Block, output};
use numbered::Numbered;
use sheets::Header;
use std::io::Stdout;

// `! N` for a refusal, behind n bytes of text; how many there are then.
pub fn refusal<E: Numbered>(out: &Stdout, text: &mut Block, n: usize, no: E) -> usize
    ensures { waiting result text.new ≡ refusal_line (E.number no) behind waiting n text.old }
{
    let a = output::byte(out, text, n, b'!');
    let b = printing::number(out, text, a, no.number() as u64);
    output::byte(out, text, b, b'\n')
}

fn first_of<'a>(bytes: &'a [u8], n: usize) -> &'a [u8]
    ensures { result.now ≡ take n bytes.now }
{
    if n < bytes.len() {
        return &bytes[0..n];
    }
    bytes
}

// The first n bytes of the store.
pub fn front<'a>(sheet: &'a Bytes, n: usize) -> &'a [u8]
    ensures { result.now ≡ take n sheet.now }
{
    first_of(sheet, n)
}

// The lines of a sheet.
fn sheet_lines(out: &Stdout, text: &mut Block, n: usize, bytes: &[u8]) -> usize
    ensures { waiting result text.new ≡ sheet_lines bytes.now behind waiting n text.old }
{
    let a = output::byte(out, text, n, b's');
    let b = printing::number(out, text, a, (bytes.len() / 32) as u64);
    let c = output::byte(out, text, b, b'\n');
    crate::digits::record_lines(out, text, c, bytes)
}

// Writes the sheet of a header and the first points of the list, and puts its lines behind n bytes of text; `! N` where it is refused, which no
// collection was seen to be.
pub fn write<'a>(
    out: &Stdout,
    text: &mut Block,
    n: usize,
    header: Header,
    many: usize,
    sets: &ListedSets,
    words: &ListedWords,
    pos: &'a ListedCounts,
    neg: &'a ListedCounts,
    bounds: &ListedBounds,
    sheet: &mut Bytes,
) -> usize
    ensures { wrote (waiting result text.new) sheet.new
        ≡ wrote_by (writing header many (source sets.now words.now pos.now neg.now bounds.now) sheet.old)
        (waiting n text.old) }
{
    match sheet_writing::write(header, many, sets, words, pos, neg, bounds, sheet) {
        Err(no) => refusal(out, text, n, no),
        Ok(size) => sheet_lines(out, text, n, front(sheet, size)),
    }
}
