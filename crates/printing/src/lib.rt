// Points of a list printed as lines, for the gauge and the replayed scripts (docs/REPLAY.md):
//
//     p SET COUNT ZEROCOUNT SCALE MIN MAX SUM POSITIVE NEGATIVE      exponential
//     q SET COUNT MIN MAX SUM BUCKETS BOUNDS                         explicit
//     v SET VALUE                                                    sum or last value
//
// or a histogram's point by its card (request L2): `SET MEAN`, in whole hundredths, or `SET ! N` where the mean is refused.
//
// Each function puts its text behind the n bytes that are there, and says how many there are then.
#![tactic(auto)]

ghost use Rattle.std.specs.Prelude.{◌≡◌, true, false, [], ◌∷◌, map, eqb, take};
ghost use Rattle.laws.specs.Pick.{pick};
ghost use Rattle.text.specs.Numbers.{hex_digits};
ghost use Rattle.lines.specs.Gathered.{waiting, ◌behind◌};
ghost use Rattle.lines.specs.Written.{decimal};
ghost use Rattle.sets.specs.Rows.{pair, set_of};
ghost use Rattle.point.specs.Handing.{stored_in};
ghost use Rattle.refusals.specs.Refusals.{said};
ghost use Rattle.listing.specs.Listed.{output as listed_in, row_at, bounds_at};
ghost use Rattle.printing.specs.Fields.{each, joined, attribute_field, set_field, float_field, extreme_field, integer_field, row_field};
ghost use Rattle.printing.specs.Printed.{held_fields, exponential_fields, explicit_fields, point_line, mean_fields, card_line, line_of};
ghost use Rattle.printing.specs.Printed.{line_at, next_at, collection_head, collection_lines, value_at, value_lines, unread_line};

use lines::{Block, output};
use listing::{Cursor, Entry};
use point::{Figures, Point};
use refusals::Refusal;
use std::io::Stdout;

// How a point is shown: by all that it has, or by its card.
#[derive(Clone, Copy, Debug, PartialEq, Eq)]
pub enum Form {
    Point,
    Card,
}

// How much text there is, and where the next point lies.
#[derive(Clone, Copy)]
pub struct Printed {
    pub n: usize,
    pub at: Cursor,
}

// A number behind a space.
pub fn number(out: &Stdout, text: &mut Block, n: usize, x: u64) -> usize
    ensures { waiting result text.new ≡ 32 ∷ decimal x behind waiting n text.old }
{
    let m = output::byte(out, text, n, b' ');
    output::decimal(out, text, m, x)
}

// Bits behind a space.
fn bits(out: &Stdout, text: &mut Block, n: usize, x: u64) -> usize
    ensures { waiting result text.new ≡ 32 ∷ hex_digits 16 x behind waiting n text.old }
{
    let m = output::byte(out, text, n, b' ');
    output::bits(out, text, m, x)
}

// A comma before all but the first of several.
fn comma(out: &Stdout, text: &mut Block, n: usize, i: usize) -> usize
    ensures { waiting result text.new ≡ pick (eqb i 0) [] (44 ∷ []) behind waiting n text.old }
{
    if i == 0 {
        return n;
    }
    output::byte(out, text, n, b',')
}

// ---- sets

fn attribute(out: &Stdout, text: &mut Block, n: usize, word: u64) -> usize
    ensures { waiting result text.new ≡ attribute_field (pair word) behind waiting n text.old }
{
    let a = output::decimal(out, text, n, word / 4294967296);
    let b = output::byte(out, text, a, b':');
    output::decimal(out, text, b, word % 4294967296)
}

fn attributes(out: &Stdout, text: &mut Block, n: usize, row: [u64; 9]) -> usize
    ensures { waiting result text.new ≡ joined 44 (map attribute_field (take 8 (set_of row))) behind waiting n text.old }
{
    let many = row[8].min(8) as usize;
    let mut m = n;
    for (i, word) in row[..many].iter().enumerate() {
        let a = comma(out, text, m, i);
        m = attribute(out, text, a, *word);
    }
    m
}

// A set, `-` the empty one.
fn bare_set(out: &Stdout, text: &mut Block, n: usize, row: [u64; 9]) -> usize
    ensures { waiting result text.new ≡ set_field (take 8 (set_of row)) behind waiting n text.old }
{
    if row[8] == 0 {
        return output::byte(out, text, n, b'-');
    }
    attributes(out, text, n, row)
}

// A set behind a space.
pub fn set(out: &Stdout, text: &mut Block, n: usize, row: [u64; 9]) -> usize
    ensures { waiting result text.new ≡ 32 ∷ set_field (take 8 (set_of row)) behind waiting n text.old }
{
    let m = output::byte(out, text, n, b' ');
    bare_set(out, text, m, row)
}

// ---- what a point has

// A scale or an offset behind a space.
pub fn integer(out: &Stdout, text: &mut Block, n: usize, x: Option<i32>) -> usize
    ensures { waiting result text.new ≡ 32 ∷ integer_field x behind waiting n text.old }
{
    let m = output::byte(out, text, n, b' ');
    match x {
        None => output::byte(out, text, m, b'-'),
        Some(i) => output::signed(out, text, m, i as i64),
    }
}

// An extreme behind a space, `-` where it isn't kept.
fn extreme(out: &Stdout, text: &mut Block, n: usize, x: Option<f64>) -> usize
    ensures { waiting result text.new ≡ 32 ∷ extreme_field x behind waiting n text.old }
{
    match x {
        None => output::bytes(out, text, n, b" -"),
        Some(v) => bits(out, text, n, floats::bits_of(v)),
    }
}

fn held(out: &Stdout, text: &mut Block, n: usize, p: Point) -> usize
    ensures { waiting result text.new ≡ each 32 (held_fields p []) behind waiting n text.old }
{
    let a = extreme(out, text, n, p.min);
    let b = extreme(out, text, a, p.max);
    bits(out, text, b, point::signed::sum_bits(p))
}

pub fn counts(out: &Stdout, text: &mut Block, n: usize, row: &[u64]) -> usize
    ensures { waiting result text.new ≡ joined 44 (map decimal row.now) behind waiting n text.old }
{
    let mut m = n;
    for (i, count) in row.iter().enumerate() {
        let a = comma(out, text, m, i);
        m = output::decimal(out, text, a, *count);
    }
    m
}

// A row: its offset and its counts.
pub fn row(out: &Stdout, text: &mut Block, n: usize, offset: Option<i32>, row: &[u64]) -> usize
    ensures { waiting result text.new ≡ 32 ∷ row_field offset row.now behind waiting n text.old }
{
    let a = integer(out, text, n, offset);
    let b = output::byte(out, text, a, b':');
    counts(out, text, b, row)
}

// A space, and `-` if none of several follows.
pub fn dash(out: &Stdout, text: &mut Block, n: usize, many: usize) -> usize
    ensures { waiting result text.new ≡ 32 ∷ pick (eqb many 0) (45 ∷ []) [] behind waiting n text.old }
{
    let m = output::byte(out, text, n, b' ');
    if many == 0 {
        return output::byte(out, text, m, b'-');
    }
    m
}

pub fn all_bits(out: &Stdout, text: &mut Block, n: usize, bounds: &[f64]) -> usize
    ensures { waiting result text.new ≡ joined 44 (map float_field bounds.now) behind waiting n text.old }
{
    let mut m = n;
    for (i, bound) in bounds.iter().enumerate() {
        let a = comma(out, text, m, i);
        m = output::bits(out, text, a, floats::bits_of(*bound));
    }
    m
}

// ---- points

fn exponential(
    out: &Stdout,
    text: &mut Block,
    n: usize,
    p: Point,
    pos: &[u64],
    neg: &[u64],
) -> usize
    ensures { waiting result text.new ≡ each 32 (exponential_fields p pos.now neg.now) behind waiting n text.old }
{
    let a = integer(out, text, n, point::signed::scale(p));
    let b = held(out, text, a, p);
    let c = row(out, text, b, point::signed::offset(p, false), pos);
    row(out, text, c, point::signed::offset(p, true), neg)
}

fn explicit(
    out: &Stdout,
    text: &mut Block,
    n: usize,
    p: Point,
    buckets: &[u64],
    bounds: &[f64],
) -> usize
    ensures { waiting result text.new ≡ each 32 (explicit_fields p buckets.now bounds.now) behind waiting n text.old }
{
    let a = held(out, text, n, p);
    let b = dash(out, text, a, buckets.len());
    let c = counts(out, text, b, buckets);
    let d = dash(out, text, c, bounds.len());
    all_bits(out, text, d, bounds)
}

// The line of all that a point has, which lies between two cursors.
fn point_line<'a>(
    out: &Stdout,
    text: &mut Block,
    n: usize,
    row: [u64; 9],
    at: Cursor,
    e: Entry,
    pos: &'a [u64],
    neg: &'a [u64],
    bounds: &[f64],
) -> usize
    ensures { waiting result text.new ≡ point_line (take 8 (set_of row)) (stored_in e.point (bounds_at e.bounds bounds.now)
        (row_at at e.next false pos.now neg.now) (row_at at e.next true pos.now neg.now))
        behind waiting n text.old }
{
    let p = e.point;
    let next = e.next;
    let f = p.figures;
    let above = listing::read::row_at(at, next, false, pos, neg);
    match f {
        Figures::Exponential(c) => {
            let below = listing::read::row_at(at, next, true, pos, neg);
            let a = output::byte(out, text, n, b'p');
            let b = set(out, text, a, row);
            let d = number(out, text, b, c.count);
            let g = number(out, text, d, c.zeros);
            let h = exponential(out, text, g, p, above, below);
            output::byte(out, text, h, b'\n')
        }
        Figures::Explicit(count) => {
            let own = listing::read::bounds_at(e.bounds, bounds);
            let a = output::byte(out, text, n, b'q');
            let b = set(out, text, a, row);
            let d = number(out, text, b, count);
            let g = explicit(out, text, d, p, above, own);
            output::byte(out, text, g, b'\n')
        }
    }
}

// A mean behind a space, or the number that refuses it behind its mark.
fn mean_fields(out: &Stdout, text: &mut Block, n: usize, x: Result<i64, Refusal>) -> usize
    ensures { waiting result text.new ≡ each 32 (mean_fields (said x)) behind waiting n text.old }
{
    match x {
        Ok(z) => {
            let a = output::byte(out, text, n, b' ');
            output::signed(out, text, a, z)
        }
        Err(no) => {
            let a = output::bytes(out, text, n, b" !");
            number(out, text, a, no.number() as u64)
        }
    }
}

// The line of the point's card.
fn card_line<'a>(
    out: &Stdout,
    text: &mut Block,
    n: usize,
    row: [u64; 9],
    at: Cursor,
    e: Entry,
    pos: &'a [u64],
    neg: &'a [u64],
    bounds: &[f64],
) -> usize
    ensures { waiting result text.new ≡ card_line (take 8 (set_of row)) (stored_in e.point (bounds_at e.bounds bounds.now)
        (row_at at e.next false pos.now neg.now) (row_at at e.next true pos.now neg.now))
        behind waiting n text.old }
{
    let p = e.point;
    let next = e.next;
    let above = listing::read::row_at(at, next, false, pos, neg);
    let below = listing::read::row_at(at, next, true, pos, neg);
    let own = listing::read::bounds_at(e.bounds, bounds);
    let x = mean::hundredths(p, own, above, below);
    let a = bare_set(out, text, n, row);
    let b = mean_fields(out, text, a, x);
    output::byte(out, text, b, b'\n')
}

// The line of the point in a form.
fn line<'a>(
    out: &Stdout,
    text: &mut Block,
    n: usize,
    form: Form,
    row: [u64; 9],
    at: Cursor,
    e: Entry,
    pos: &'a [u64],
    neg: &'a [u64],
    bounds: &[f64],
) -> usize
    ensures { waiting result text.new ≡ line_of form (take 8 (set_of row)) (stored_in e.point (bounds_at e.bounds bounds.now)
        (row_at at e.next false pos.now neg.now) (row_at at e.next true pos.now neg.now))
        behind waiting n text.old }
{
    match form {
        Form::Point => point_line(out, text, n, row, at, e, pos, neg, bounds),
        Form::Card => card_line(out, text, n, row, at, e, pos, neg, bounds),
    }
}

// Prints the line of the point at a cursor, whose bounds lie in a store of bounds; nothing where no point is there.
pub fn point<'a>(
    out: &Stdout,
    text: &mut Block,
    n: usize,
    form: Form,
    at: Cursor,
    sets: &[[u64; 9]],
    words: &[[u64; 12]],
    pos: &'a [u64],
    neg: &'a [u64],
    bounds: &[f64],
) -> Printed
    ensures text_value { waiting result.n text.new ≡ line_at form at (listed_in sets.now words.now pos.now neg.now) bounds.now
        behind waiting n text.old }
    ensures at_value { result.at ≡ next_at at (listed_in sets.now words.now pos.now neg.now) }
{
    let k = at.place;
    let Some(e) = listing::read::point_at(at, words, pos, neg) else {
        return Printed { n, at };
    };
    if sets.len() <= k {
        return Printed { n, at };
    }
    let next = e.next;
    Printed {
        n: line(out, text, n, form, sets[k], at, e, pos, neg, bounds),
        at: next,
    }
}

// Prints a collection: `c START TIME POINTS`, and the first points of the list.
pub fn collection<'a>(
    out: &Stdout,
    text: &mut Block,
    n: usize,
    form: Form,
    start: u64,
    time: u64,
    many: usize,
    sets: &[[u64; 9]],
    words: &[[u64; 12]],
    pos: &'a [u64],
    neg: &'a [u64],
    bounds: &[f64],
) -> usize
    ensures { waiting result text.new ≡ collection_lines form start time many (listed_in sets.now words.now pos.now neg.now)
        bounds.now behind waiting n text.old }
{
    let m = head(out, text, n, start, time, many as u64);
    let at = Cursor {
        place: 0,
        pos: 0,
        neg: 0,
    };
    let mut done = Printed { n: m, at };
    for _i in 0..many {
        done = point(
            out, text, done.n, form, done.at, sets, words, pos, neg, bounds,
        );
    }
    done.n
}

pub fn head(out: &Stdout, text: &mut Block, n: usize, start: u64, time: u64, many: u64) -> usize
    ensures { waiting result text.new ≡ collection_head start time many behind waiting n text.old }
{
    let a = output::byte(out, text, n, b'c');
    let b = number(out, text, a, start);
    let c = number(out, text, b, time);
    let d = number(out, text, c, many);
    output::byte(out, text, d, b'\n')
}

// ---- points that are one value

// The line of the point at a place; nothing where there is no row of its set, or no value.
fn value(
    out: &Stdout,
    text: &mut Block,
    n: usize,
    k: usize,
    sets: &[[u64; 9]],
    values: &[u64],
) -> usize
    ensures { waiting result text.new ≡ value_at k sets.now values.now behind waiting n text.old }
{
    if sets.len() <= k {
        return n;
    }
    if values.len() <= k {
        return n;
    }
    let a = output::byte(out, text, n, b'v');
    let b = set(out, text, a, sets[k]);
    let c = bits(out, text, b, values[k]);
    output::byte(out, text, c, b'\n')
}

// Prints a collection of sums or last values: its head, and the first points from their sets and the bits of their values.
pub fn values(
    out: &Stdout,
    text: &mut Block,
    n: usize,
    start: u64,
    time: u64,
    many: usize,
    sets: &[[u64; 9]],
    values: &[u64],
) -> usize
    ensures { waiting result text.new ≡ value_lines start time many sets.now values.now behind waiting n text.old }
{
    let mut m = head(out, text, n, start, time, many as u64);
    for i in 0..many {
        m = value(out, text, m, i, sets, values);
    }
    m
}

// Prints `?` and the number of a line of the input that can't be read.
pub fn unread(out: &Stdout, text: &mut Block, n: usize, line: u64) -> usize
    ensures { waiting result text.new ≡ unread_line line behind waiting n text.old }
{
    let a = output::byte(out, text, n, b'?');
    let b = number(out, text, a, line);
    output::byte(out, text, b, b'\n')
}
