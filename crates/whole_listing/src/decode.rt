// The point of i64 values that twelve words are, by its shadow.
ghost use Rattle.std.specs.Prelude.{◌≡◌, ◌≤◌, get_or};
ghost use Rattle.whole_listing.specs.Words.{shadow_words, extreme_in};
ghost use Rattle.whole_listing.specs.Listed.{is_whole};
ghost use Rattle.whole_listing.specs.Inner.{blank, own_words, numbered};

use listing::Cursor;
use whole_point::Point;

// Whether the words at a cursor have the kind of an i64 point, for readers of points of either number.
pub fn is_whole(at: Cursor, words: &[[u64; 12]]) -> bool
    ensures { result ≡ is_whole at words.now }
{
    let k = at.place;
    if k >= words.len() {
        return false;
    }
    let w = words[k];
    2 <= w[0]
}

// Whether an extreme's word is 0, where it is not shown.
fn is_blank(shown: bool, bits: u64) -> bool
    ensures { result ≡ blank shown bits }
{
    if shown {
        return true;
    }
    bits == 0
}

// What the shadow's words do not tell: the kind, and that no extreme is written where none is shown.
pub fn own_words(w: [u64; 12]) -> bool
    ensures { result ≡ own_words w }
{
    if w[0] < 2 {
        return false;
    }
    let shown = 2 <= w[8];
    if !is_blank(shown, w[9]) {
        return false;
    }
    is_blank(shown, w[10])
}

// The words of the shadow.
pub fn shadow_words(w: [u64; 12]) -> [u64; 12]
    requires { 2 ≤ get_or w 0 0 }
    ensures { result ≡ shadow_words w }
{
    [
        w[0] - 2,
        w[1],
        w[2],
        w[3],
        w[4],
        w[5],
        w[6],
        w[7],
        w[8],
        0,
        0,
        0,
    ]
}

// An extreme, if it is shown.
fn extreme_of(shown: bool, bits: u64) -> Option<i64>
    ensures { result ≡ extreme_in shown bits }
{
    if shown {
        let x = integers::of_bits(bits);
        return Some(x);
    }
    None
}

// The shadow with the numbers that the words tell.
pub fn point_of(shadow: point::Point, w: [u64; 12]) -> Point
    ensures { result ≡ numbered shadow w }
{
    let figures = shadow.figures;
    let shown = 2 <= w[8];
    let min = extreme_of(shown, w[9]);
    let max = extreme_of(shown, w[10]);
    let sum = integers::of_bits(w[11]);
    Point {
        figures,
        extremes: shadow.extremes,
        min,
        max,
        sum,
    }
}
