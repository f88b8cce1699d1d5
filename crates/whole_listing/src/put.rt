// One point of i64 values put into the list.
ghost use Rattle.std.specs.Prelude.{◌≡◌};
ghost use Rattle.listing.specs.Listed.{output, behind};
ghost use Rattle.listing.specs.Inner.{Room, left};
ghost use Rattle.whole_listing.specs.Listed.{put_at};

use listing::{Cursor, Span};
use whole_point::Point;

// Puts a point at the cursor: its set's row, its words, and the first counts of `cpos` and `cneg`, as many as it has; the next cursor. By its
// shadow, whose words it then writes over.
pub fn put(
    at: Cursor,
    row: [u64; 9],
    p: Point,
    b: Span,
    cpos: &[u64],
    cneg: &[u64],
    sets: &mut [[u64; 9]],
    words: &mut [[u64; 12]],
    pos: &mut [u64],
    neg: &mut [u64],
) -> Cursor
    requires { Room at p.figures b cpos.now cneg.now (output sets.old words.old pos.old neg.old) }
    ensures { left result (output sets.new words.new pos.new neg.new) ≡ left (behind at p.figures b)
        (put_at at row p b cpos.now cneg.now (output sets.old words.old pos.old neg.old)) }
{
    let shadow = whole_point::shadow_of(p);
    let w = crate::encode::words_of(p, b);
    let next = listing::put::put(at, row, shadow, b, cpos, cneg, sets, words, pos, neg);
    let place = at.place;
    words[place] = w;
    next
}
