// Reading the list: the point at a cursor, and its counts.
ghost use Rattle.std.specs.Prelude.{◌≡◌, ◌+◌, ◌-◌, ◌^◌, ◌<◌, min, leb, length};
ghost use Rattle.listing.specs.Listed.{buckets_of, within, entry_in, point_at, row_at, bounds_at};

use crate::{Cursor, Entry, Span};
use exponential::Counts;
use point::Figures;
use rows::Row;

// Whether n from a place on lie in a store of so many.
pub fn lie(from: usize, n: usize, many: usize) -> bool
    ensures { result ≡ leb (from + n) many }
{
    if many < from {
        return false;
    }
    n <= many - from
}

// Whether the buckets of n bounds do.
fn buckets_lie(from: usize, n: usize, many: usize) -> bool
    ensures { result ≡ leb (from + buckets_of n) many }
{
    if n == 0 {
        return from <= many;
    }
    if many < from {
        return false;
    }
    n < many - from
}

// Whether a point's counts lie in stores of so many.
fn counts_lie(at: Cursor, f: Figures, b: Span, pos: usize, neg: usize) -> bool
    ensures { result ≡ within at f b pos neg }
{
    match f {
        Figures::Exponential(c) => {
            let p = c.pos;
            let n = c.neg;
            if !lie(at.pos, p.len, pos) {
                return false;
            }
            lie(at.neg, n.len, neg)
        }
        Figures::Explicit(m) => {
            if !buckets_lie(at.pos, b.len, pos) {
                return false;
            }
            lie(at.neg, 0, neg)
        }
    }
}

// The point of twelve words, if they are one's and its counts are there.
pub fn entry_in(at: Cursor, w: [u64; 12], pos: usize, neg: usize) -> Option<Entry>
    requires { at.place + 1 < 2 ^ 64 }
    ensures { result ≡ entry_in at w pos neg }
{
    if !crate::decode::is_point(w) {
        return None;
    }
    let p = crate::decode::point_of(w);
    let b = crate::decode::bounds_of(w);
    let f = p.figures;
    if !counts_lie(at, f, b, pos, neg) {
        return None;
    }
    let next = crate::put::cursor_behind(at, f, b);
    Some(Entry {
        point: p,
        bounds: b,
        next,
    })
}

// The point at a cursor, with the cursor of the point behind it; none where the words are no point's.
pub fn point_at(at: Cursor, words: &[[u64; 12]], pos: &[u64], neg: &[u64]) -> Option<Entry>
    ensures { result ≡ point_at at words.now (length pos.now) (length neg.now) }
{
    let k = at.place;
    if k >= words.len() {
        return None;
    }
    entry_in(at, words[k], pos.len(), neg.len())
}

// The lesser of two numbers.
fn shorter(a: usize, b: usize) -> usize
    ensures { result ≡ min a b }
{
    if a < b { a } else { b }
}

// How far it is from a to e.
fn far(a: usize, e: usize) -> usize
    ensures { result ≡ e - a }
{
    if e < a {
        return 0;
    }
    e - a
}

// The counts of a sign that lie between a point's cursor and the next one, by the reader by sign.
pub fn row_at<'a>(
    at: Cursor,
    next: Cursor,
    negative: bool,
    pos: &'a [u64],
    neg: &'a [u64],
) -> &'a [u64]
    ensures { result.now ≡ row_at at next negative pos.now neg.now }
{
    let i = shorter(at.pos, pos.len());
    let j = shorter(at.neg, neg.len());
    let n = far(at.pos, next.pos);
    let m = far(at.neg, next.neg);
    let c = Counts {
        count: 0,
        zeros: 0,
        level: 0,
        pos: Row { start: 0, len: n },
        neg: Row { start: 0, len: m },
    };
    exponential::row_of(c, negative, &pos[i..], &neg[j..])
}

// The bounds of an explicit point, a part of the store of bounds that lies beside the list.
pub fn bounds_at<'a>(b: Span, bounds: &'a [f64]) -> &'a [f64]
    ensures { result.now ≡ bounds_at b bounds.now }
{
    let i = shorter(b.start, bounds.len());
    let n = shorter(b.len, bounds.len() - i);
    let e = i + n;
    &bounds[i..e]
}
