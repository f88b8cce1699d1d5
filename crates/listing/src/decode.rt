// The point that twelve words are.
ghost use Rattle.std.specs.Prelude.{◌≡◌, eqb, get_or};
ghost use Rattle.sets.specs.All.{allb};
ghost use Rattle.listing.specs.Words.{figures_in, bounds_in, extreme_in, point_in, is_point};

use crate::Span;
use exponential::Counts;
use point::{Figures, Point};
use rows::Row;

// An extreme, if it is shown.
fn extreme_of(shown: bool, bits: u64) -> Option<f64>
    ensures { result ≡ extreme_in shown bits }
{
    if shown {
        let x = floats::of_bits(bits);
        return Some(x);
    }
    None
}

// The figures by the kind that the words tell.
fn figures_of(w: [u64; 12]) -> Figures
    ensures { result ≡ figures_in w }
{
    if w[0] == 0 {
        return Figures::Exponential(Counts {
            count: w[1],
            zeros: w[2],
            level: (w[3] % 4294967296) as u32,
            pos: Row {
                start: (w[4] % 4294967296) as u32,
                len: w[5] as usize,
            },
            neg: Row {
                start: (w[6] % 4294967296) as u32,
                len: w[7] as usize,
            },
        });
    }
    Figures::Explicit(w[1])
}

// Where the words say that the bounds lie.
pub fn bounds_of(w: [u64; 12]) -> Span
    ensures { result ≡ bounds_in w }
{
    if w[0] == 0 {
        return Span { start: 0, len: 0 };
    }
    Span {
        start: w[4] as usize,
        len: w[5] as usize,
    }
}

// The point that the words read as.
pub fn point_of(w: [u64; 12]) -> Point
    ensures { result ≡ point_in w }
{
    let figures = figures_of(w);
    let shown = 2 <= w[8];
    let min = extreme_of(shown, w[9]);
    let max = extreme_of(shown, w[10]);
    let sum = floats::of_bits(w[11]);
    Point {
        figures,
        extremes: w[8] % 2 == 1,
        min,
        max,
        sum,
    }
}

// Whether two rows have the same words.
fn same(a: &[u64; 12], b: &[u64; 12]) -> bool
    ensures { result ≡ allb 12 (λ i. eqb (get_or a.now i 0) (get_or b.now i 0)) }
{
    for i in 0..12 {
        if a[i] != b[i] {
            return false;
        }
    }
    true
}

// Whether the words are a point's: written again, it gives them.
pub fn is_point(w: [u64; 12]) -> bool
    ensures { result ≡ is_point w }
{
    let p = point_of(w);
    let b = bounds_of(w);
    let again = crate::encode::words_of(p, b);
    same(&again, &w)
}
