// A point of i64 values as twelve words.
ghost use Rattle.std.specs.Prelude.{◌≡◌, ◌≤◌, get_or};
ghost use Rattle.whole_listing.specs.Words.{shown_bits, words_of};
ghost use Rattle.whole_listing.specs.Inner.{with_numbers};

use listing::Span;
use whole_point::Point;

// The bits of an extreme, 0 where it is not shown.
fn shown_bits(x: Option<i64>) -> u64
    ensures { result ≡ shown_bits x }
{
    match x {
        None => 0,
        Some(v) => integers::bits_of(v),
    }
}

// The words of a shadow with the kind 2 more and the bits of minimum, maximum and sum.
pub fn with_numbers(w: [u64; 12], min: Option<i64>, max: Option<i64>, sum: i64) -> [u64; 12]
    requires { get_or w 0 0 ≤ 1 }
    ensures { result ≡ with_numbers w min max sum }
{
    let low = shown_bits(min);
    let high = shown_bits(max);
    let bits = integers::bits_of(sum);
    [
        w[0] + 2,
        w[1],
        w[2],
        w[3],
        w[4],
        w[5],
        w[6],
        w[7],
        w[8],
        low,
        high,
        bits,
    ]
}

// The words of a point whose bounds lie at b: its shadow's, with its own numbers.
pub fn words_of(p: Point, b: Span) -> [u64; 12]
    ensures { result ≡ words_of p b }
{
    let shadow = whole_point::shadow_of(p);
    let w = listing::encode::words_of(shadow, b);
    let min = p.min;
    let max = p.max;
    with_numbers(w, min, max, p.sum)
}
