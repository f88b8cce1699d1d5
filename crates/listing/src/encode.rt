// A point as twelve words.
ghost use Rattle.std.specs.Prelude.{◌≡◌};
ghost use Rattle.listing.specs.Words.{shown_bits, words_of};

use crate::Span;
use point::{Figures, Point};

// The bits of an extreme, 0 where it is not shown.
fn shown_bits(x: Option<f64>) -> u64
    ensures { result ≡ shown_bits x }
{
    match x {
        None => 0,
        Some(v) => floats::bits_of(v),
    }
}

// The words of a point whose bounds lie at b.
pub fn words_of(p: Point, b: Span) -> [u64; 12]
    ensures { result ≡ words_of p b }
{
    let f = p.figures;
    let min = p.min;
    let max = p.max;
    let flags = u64::from(p.extremes) + 2 * u64::from(min.is_some());
    let low = shown_bits(min);
    let high = shown_bits(max);
    let sum = floats::bits_of(p.sum);
    match f {
        Figures::Exponential(c) => {
            let a = c.pos;
            let n = c.neg;
            [
                0,
                c.count,
                c.zeros,
                c.level as u64,
                a.start as u64,
                a.len as u64,
                n.start as u64,
                n.len as u64,
                flags,
                low,
                high,
                sum,
            ]
        }
        Figures::Explicit(m) => [
            1,
            m,
            0,
            0,
            b.start as u64,
            b.len as u64,
            0,
            0,
            flags,
            low,
            high,
            sum,
        ],
    }
}
