// Reading the list: the point of i64 values at a cursor. Its counts and its bounds are read by `listing::read`.
ghost use Rattle.std.specs.Prelude.{◌≡◌, ◌+◌, ◌^◌, ◌<◌, length};
ghost use Rattle.whole_listing.specs.Listed.{entry_in, point_at};

use crate::Entry;
use listing::Cursor;

// The point of twelve words, if they are an i64 point's and its counts are there: what is found of its shadow, with its numbers.
fn entry_in(at: Cursor, w: [u64; 12], pos: usize, neg: usize) -> Option<Entry>
    requires { at.place + 1 < 2 ^ 64 }
    ensures { result ≡ entry_in at w pos neg }
{
    if !crate::decode::own_words(w) {
        return None;
    }
    let s = crate::decode::shadow_words(w);
    let e = listing::read::entry_in(at, s, pos, neg)?;
    Some(Entry {
        point: crate::decode::point_of(e.point, w),
        bounds: e.bounds,
        next: e.next,
    })
}

// The point at a cursor, with the cursor of the point behind it; none where the words are no i64 point's.
pub fn point_at(at: Cursor, words: &[[u64; 12]], pos: &[u64], neg: &[u64]) -> Option<Entry>
    ensures { result ≡ point_at at words.now (length pos.now) (length neg.now) }
{
    let k = at.place;
    if k >= words.len() {
        return None;
    }
    entry_in(at, words[k], pos.len(), neg.len())
}
