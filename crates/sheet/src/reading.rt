// The lines of a sheet: `s RECORDS`, and its records one after another. After the last of them it is read, and its list printed.
ghost use Rattle.std.specs.Prelude.{◌≡◌, ◌<◌};
ghost use Rattle.lines.specs.Gathered.{waiting};
ghost use Rattle.pooling.specs.Lists.{source};
ghost use Rattle.sheet_reading.specs.Reading.{reading};
ghost use Rattle.sheet.specs.Shown.{few_in, records_of, shown, shown_by};
ghost use Rattle.sheet.specs.Followed.{taken_by, done, went, went_on, opened, no_line, in_sheet, record_put};

use crate::state::{Bytes, ListedBounds, ListedCounts, ListedSets, ListedWords, Next, State};
use gauge_lines::cells::Gauge;
use lines::Block;
use printing::Form;
use std::io::Stdout;

// The most records that a sheet has: the header, and 114 for each of 64 points.
const MOST_RECORDS: u64 = 7297;

// A number of records, if no sheet has more.
fn few(n: Option<u64>) -> Option<u64>
    ensures { result ≡ few_in n }
{
    let records = n?;
    if records > MOST_RECORDS {
        return None;
    }
    Some(records)
}

// The records of a line `s RECORDS`, if it is one.
pub fn records_in(line: &[u8]) -> Option<u64>
    ensures { result ≡ records_of line.now }
{
    if text::byte_at(line, 0) != b's' {
        return None;
    }
    if text::byte_at(line, 1) != b' ' {
        return None;
    }
    if text::spaces(line) != 1 {
        return None;
    }
    few(text::decimal_at(line, 1))
}

// Reads a sheet into the list, and puts what the gauge prints of it behind n bytes of text, or `! 15` where it is none.
fn show(
    out: &Stdout,
    text: &mut Block,
    n: usize,
    bytes: &[u8],
    sets: &mut ListedSets,
    words: &mut ListedWords,
    pos: &mut ListedCounts,
    neg: &mut ListedCounts,
    bounds: &mut ListedBounds,
) -> usize
    ensures { shown (waiting result text.new) (source sets.new words.new pos.new neg.new bounds.new)
        ≡ shown_by (reading bytes.now (source sets.old words.old pos.old neg.old bounds.old))
        (waiting n text.old) }
{
    match sheet_reading::read(bytes, sets, words, pos, neg, bounds) {
        Err(no) => crate::writing::refusal(out, text, n, no),
        Ok(listed) => {
            let h = listed.header;
            printing::collection(
                out,
                text,
                n,
                Form::Point,
                h.start,
                h.time,
                listed.points,
                sets,
                words,
                pos,
                neg,
                bounds,
            )
        }
    }
}

// Goes on with a sheet: it is read if no record is still to come.
fn go_on(
    out: &Stdout,
    st: State,
    text: &mut Block,
    n: usize,
    sets: &mut ListedSets,
    words: &mut ListedWords,
    pos: &mut ListedCounts,
    neg: &mut ListedCounts,
    bounds: &mut ListedBounds,
    sheet: &Bytes,
) -> Next
    ensures { went (taken_by result) text.new (source sets.new words.new pos.new neg.new bounds.new)
        ≡ went_on st (waiting n text.old) (source sets.old words.old pos.old neg.old bounds.old)
        sheet.now }
{
    if st.left > 0 {
        return Next { state: st, text: n };
    }
    let bytes = crate::writing::front(sheet, st.at);
    Next {
        state: st,
        text: show(out, text, n, bytes, sets, words, pos, neg, bounds),
    }
}

// Begins a sheet of so many records.
pub fn begin(
    out: &Stdout,
    gauge: Gauge,
    records: u64,
    text: &mut Block,
    n: usize,
    sets: &mut ListedSets,
    words: &mut ListedWords,
    pos: &mut ListedCounts,
    neg: &mut ListedCounts,
    bounds: &mut ListedBounds,
    sheet: &Bytes,
) -> Next
    ensures { went (taken_by result) text.new (source sets.new words.new pos.new neg.new bounds.new)
        ≡ went_on (opened gauge records) (waiting n text.old)
        (source sets.old words.old pos.old neg.old bounds.old) sheet.now }
{
    let st = State {
        gauge,
        left: records as usize,
        at: 0,
    };
    go_on(out, st, text, n, sets, words, pos, neg, bounds, sheet)
}

// Whether there is no line: the input is over, and nothing stands behind its last newline.
fn is_none(line: &[u8], over: bool) -> bool
    ensures { result ≡ no_line line.now over }
{
    if line.len() == 0 {
        return over;
    }
    false
}

// Follows a line in a sheet: one that is no record ends it.
pub fn follow(
    out: &Stdout,
    st: State,
    line: &[u8],
    over: bool,
    text: &mut Block,
    n: usize,
    sets: &mut ListedSets,
    words: &mut ListedWords,
    pos: &mut ListedCounts,
    neg: &mut ListedCounts,
    bounds: &mut ListedBounds,
    sheet: &mut Bytes,
) -> Option<Next>
    requires { 0 < st.left }
    ensures bounds_value { went (done st.gauge n result) text.new (source sets.new words.new pos.new neg.new bounds.new)
        ≡ in_sheet st line.now over (waiting n text.old)
        (source sets.old words.old pos.old neg.old bounds.old) sheet.old }
    ensures sheet_after { sheet.new ≡ record_put st line.now over sheet.old }
{
    if is_none(line, over) {
        return Some(crate::state::ended(st.gauge, n));
    }
    if !crate::digits::is_record(line) {
        return None;
    }
    let next = State {
        gauge: st.gauge,
        left: st.left - 1,
        at: crate::digits::put(sheet, st.at, line),
    };
    Some(go_on(out, next, text, n, sets, words, pos, neg, bounds, sheet))
}
