// Points of a list printed as lines, whichever number they are of (docs/REPLAY.md): those of i64 values as those of f64 (crate `printing`),
// but that minimum, maximum and sum are decimals.
//
// Each function puts its text behind the n bytes that are there, and says how many there are then.
#![tactic(auto)]

ghost use Rattle.std.specs.Prelude.{◌≡◌, true, false, [], ◌∷◌, take};
ghost use Rattle.lines.specs.Gathered.{waiting, ◌behind◌};
ghost use Rattle.lines.specs.Written.{signed};
ghost use Rattle.sets.specs.Rows.{set_of};
ghost use Rattle.whole_point.specs.Handing.{stored_in};
ghost use Rattle.listing.specs.Listed.{output as listed_in, row_at, bounds_at};
ghost use Rattle.printing.specs.Fields.{each};
ghost use Rattle.whole_printing.specs.Printed.{extreme_field, held_fields, exponential_fields, explicit_fields, point_line};
ghost use Rattle.whole_printing.specs.Printed.{line_at, next_at, collection_lines};

use lines::{Block, output};
use listing::Cursor;
use point::Figures;
use printing::Printed;
use std::io::Stdout;
use whole_listing::Entry;
use whole_point::Point;

// A whole number behind a space.
fn integer(out: &Stdout, text: &mut Block, n: usize, x: i64) -> usize
    ensures { waiting result text.new ≡ 32 ∷ signed x behind waiting n text.old }
{
    let m = output::byte(out, text, n, b' ');
    output::signed(out, text, m, x)
}

// An extreme behind a space, `-` where it isn't kept.
fn extreme(out: &Stdout, text: &mut Block, n: usize, x: Option<i64>) -> usize
    ensures { waiting result text.new ≡ 32 ∷ extreme_field x behind waiting n text.old }
{
    match x {
        None => output::bytes(out, text, n, b" -"),
        Some(v) => integer(out, text, n, v),
    }
}

fn held(out: &Stdout, text: &mut Block, n: usize, p: Point) -> usize
    ensures { waiting result text.new ≡ each 32 (held_fields p []) behind waiting n text.old }
{
    let a = extreme(out, text, n, p.min);
    let b = extreme(out, text, a, p.max);
    integer(out, text, b, p.sum)
}

// ---- points: scale and offsets are the shadow's, whose figures are the point's

fn exponential(
    out: &Stdout,
    text: &mut Block,
    n: usize,
    p: Point,
    pos: &[u64],
    neg: &[u64],
) -> usize
    ensures { waiting result text.new ≡ each 32 (exponential_fields p pos.now neg.now) behind waiting n text.old }
{
    let q = whole_point::shadow_of(p);
    let a = printing::integer(out, text, n, point::signed::scale(q));
    let b = held(out, text, a, p);
    let c = printing::row(out, text, b, point::signed::offset(q, false), pos);
    printing::row(out, text, c, point::signed::offset(q, true), neg)
}

fn explicit(
    out: &Stdout,
    text: &mut Block,
    n: usize,
    p: Point,
    buckets: &[u64],
    bounds: &[f64],
) -> usize
    ensures { waiting result text.new ≡ each 32 (explicit_fields p buckets.now bounds.now) behind waiting n text.old }
{
    let a = held(out, text, n, p);
    let b = printing::dash(out, text, a, buckets.len());
    let c = printing::counts(out, text, b, buckets);
    let d = printing::dash(out, text, c, bounds.len());
    printing::all_bits(out, text, d, bounds)
}

// The line of all that a point has, which lies between two cursors.
fn point_line<'a>(
    out: &Stdout,
    text: &mut Block,
    n: usize,
    row: [u64; 9],
    at: Cursor,
    e: Entry,
    pos: &'a [u64],
    neg: &'a [u64],
    bounds: &[f64],
) -> usize
    ensures { waiting result text.new ≡ point_line (take 8 (set_of row)) (stored_in e.point (bounds_at e.bounds bounds.now)
        (row_at at e.next false pos.now neg.now) (row_at at e.next true pos.now neg.now))
        behind waiting n text.old }
{
    let p = e.point;
    let next = e.next;
    let f = p.figures;
    let above = listing::read::row_at(at, next, false, pos, neg);
    match f {
        Figures::Exponential(c) => {
            let below = listing::read::row_at(at, next, true, pos, neg);
            let a = output::byte(out, text, n, b'p');
            let b = printing::set(out, text, a, row);
            let d = printing::number(out, text, b, c.count);
            let g = printing::number(out, text, d, c.zeros);
            let h = exponential(out, text, g, p, above, below);
            output::byte(out, text, h, b'\n')
        }
        Figures::Explicit(count) => {
            let own = listing::read::bounds_at(e.bounds, bounds);
            let a = output::byte(out, text, n, b'q');
            let b = printing::set(out, text, a, row);
            let d = printing::number(out, text, b, count);
            let g = explicit(out, text, d, p, above, own);
            output::byte(out, text, g, b'\n')
        }
    }
}

// Prints the line of the point at a cursor, whose bounds lie in a store of bounds; nothing where no point is there.
pub fn point<'a>(
    out: &Stdout,
    text: &mut Block,
    n: usize,
    at: Cursor,
    sets: &[[u64; 9]],
    words: &[[u64; 12]],
    pos: &'a [u64],
    neg: &'a [u64],
    bounds: &[f64],
) -> Printed
    ensures text_value { waiting result.n text.new ≡ line_at at (listed_in sets.now words.now pos.now neg.now) bounds.now
        behind waiting n text.old }
    ensures at_value { result.at ≡ next_at at (listed_in sets.now words.now pos.now neg.now) }
{
    let k = at.place;
    let Some(e) = whole_listing::read::point_at(at, words, pos, neg) else {
        return printing::point(
            out,
            text,
            n,
            printing::Form::Point,
            at,
            sets,
            words,
            pos,
            neg,
            bounds,
        );
    };
    if sets.len() <= k {
        return Printed { n, at };
    }
    let next = e.next;
    Printed {
        n: point_line(out, text, n, sets[k], at, e, pos, neg, bounds),
        at: next,
    }
}

// Prints a collection: `c START TIME POINTS`, and the first points of the list.
pub fn collection<'a>(
    out: &Stdout,
    text: &mut Block,
    n: usize,
    start: u64,
    time: u64,
    many: usize,
    sets: &[[u64; 9]],
    words: &[[u64; 12]],
    pos: &'a [u64],
    neg: &'a [u64],
    bounds: &[f64],
) -> usize
    ensures { waiting result text.new ≡ collection_lines start time many (listed_in sets.now words.now pos.now neg.now)
        bounds.now behind waiting n text.old }
{
    let m = printing::head(out, text, n, start, time, many as u64);
    let at = Cursor {
        place: 0,
        pos: 0,
        neg: 0,
    };
    let mut done = Printed { n: m, at };
    for _i in 0..many {
        done = point(out, text, done.n, done.at, sets, words, pos, neg, bounds);
    }
    done.n
}
