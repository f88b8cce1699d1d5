// Scale, offsets and the sum's bits of a point, as they leave.
ghost use Rattle.std.specs.Prelude.{◌≡◌};
ghost use Rattle.laws.specs.Pick.{pick};
ghost use Rattle.floats.specs.Answers.{bits_of};
ghost use Rattle.point.specs.Signed.{scale_shown, offset_answer, offset_shown};

use exponential::Counts;
use rows::Row;

// The scale; out of range for a point of the explicit kind, which has none.
pub fn scale(p: crate::Point) -> Option<i32>
    ensures { result ≡ scale_shown p.figures }
{
    let f = p.figures;
    match f {
        crate::Figures::Exponential(c) => index::signed::scale_of(c.level),
        crate::Figures::Explicit(count) => None,
    }
}

// The offset of a row that starts at a level's bin.
fn row_offset(level: u32, row: Row) -> Option<i32>
    ensures { result ≡ offset_answer level row }
{
    if row.len == 0 {
        return Some(0);
    }
    index::signed::index_of(level, row.start)
}

fn row_of(c: Counts, negative: bool) -> Row
    ensures { result ≡ pick negative c.neg c.pos }
{
    if negative {
        return c.neg;
    }
    c.pos
}

// The offset of the positive or the negative row, 0 of an empty one; out of range for a point of the explicit kind.
pub fn offset(p: crate::Point, negative: bool) -> Option<i32>
    ensures { result ≡ offset_shown negative p.figures }
{
    let f = p.figures;
    match f {
        crate::Figures::Exponential(c) => {
            let row = row_of(c, negative);
            row_offset(c.level, row)
        }
        crate::Figures::Explicit(count) => None,
    }
}

// The bits of the sum, 7FF8000000000000 for every NaN; never refused.
pub fn sum_bits(p: crate::Point) -> u64
    ensures { result ≡ bits_of p.sum }
{
    floats::bits_of(p.sum)
}
