// Whether points of a list can be written, and how many words they take: all that is asked before the first byte is written.
ghost use Rattle.std.specs.Prelude.{◌≡◌, ◌-◌};
ghost use Rattle.pooling.specs.Lists.{source, nameless, bounded, whole_at};
ghost use Rattle.sheet_writing.specs.Writing.{shadowed};
ghost use Rattle.sheet_writing.specs.Inner.{follows, row_taken, shadow_found, lent_beside, agreeing, step_at, Spanned, width_at, judged, no_kind};

use listing::{Cursor, Entry};

// Whether the set of row b may stand at place i, behind that of row a.
fn may_follow(i: usize, a: &[u64; 9], b: &[u64; 9]) -> bool
    ensures { result ≡ follows i a.now b.now }
{
    if i == 0 {
        return true;
    }
    if a[8] > 8 {
        return false;
    }
    if b[8] > 8 {
        return false;
    }
    sheets::set_rows::ascends(a, b)
}

// The place before, and 0 before the first.
fn before(i: usize) -> usize
    ensures { result ≡ i - 1 }
{
    if i == 0 {
        return 0;
    }
    i - 1
}

// Whether a place has the row of a set that may be written there.
fn row_taken(i: usize, sets: &[[u64; 9]]) -> bool
    ensures { result ≡ row_taken i sets.now }
{
    if sets.len() <= i {
        return false;
    }
    let row = sets[i];
    if !sheets::set_rows::row_fine(row) {
        return false;
    }
    let last = sets[before(i)];
    may_follow(i, &last, &row)
}

// The shadow of a point of i64 values that was found, if its bounds lie in a store of so many.
fn shadow_found(many: usize, found: Option<whole_listing::Entry>) -> Option<Entry>
    ensures { result ≡ bounded many (shadow_found found) }
{
    match found {
        None => None,
        Some(e) => {
            let b = e.bounds;
            if !listing::read::lie(b.start, b.len, many) {
                return None;
            }
            let p = e.point;
            let shadow = whole_point::shadow_of(p);
            let next = e.next;
            Some(Entry {
                point: shadow,
                bounds: b,
                next,
            })
        }
    }
}

// The point at a cursor, one of i64 values as its shadow, if it is there with its counts and its bounds.
fn shadow_at(
    at: Cursor,
    words: &[[u64; 12]],
    pos: &[u64],
    neg: &[u64],
    bounds: &[f64],
) -> Option<Entry>
    ensures { result ≡ whole_at at (shadowed (nameless words.now pos.now neg.now bounds.now)) }
{
    if !whole_listing::decode::is_whole(at, words) {
        return pooling::entries::whole_at(at, words, pos, neg, bounds);
    }
    let found = whole_listing::read::point_at(at, words, pos, neg);
    shadow_found(bounds.len(), found)
}

// The point found at a cursor, if it agrees with itself.
fn agreeing_at<'a>(
    at: Cursor,
    found: Option<Entry>,
    pos: &'a [u64],
    neg: &'a [u64],
    bounds: &[f64],
) -> Option<Entry>
    ensures { result ≡ agreeing at (lent_beside pos.now neg.now bounds.now) found }
{
    match found {
        None => None,
        Some(e) => {
            let p = e.point;
            let next = e.next;
            let xs = listing::read::row_at(at, next, false, pos, neg);
            let ys = listing::read::row_at(at, next, true, pos, neg);
            let own = listing::read::bounds_at(e.bounds, bounds);
            if point::agrees_alone(p, own, xs, ys) {
                return Some(e);
            }
            None
        }
    }
}

// The point at a cursor, if it can be written behind the one before it; one of i64 values is judged by its shadow, which agrees where it does.
fn step_at<'a>(
    at: Cursor,
    sets: &[[u64; 9]],
    words: &[[u64; 12]],
    pos: &'a [u64],
    neg: &'a [u64],
    bounds: &[f64],
) -> Option<Entry>
    ensures { result ≡ step_at at (shadowed (source sets.now words.now pos.now neg.now bounds.now)) }
{
    if !row_taken(at.place, sets) {
        return None;
    }
    let found = shadow_at(at, words, pos, neg, bounds);
    agreeing_at(at, found, pos, neg, bounds)
}

// How many words a point takes.
pub fn width_at(at: Cursor, e: Entry) -> usize
    requires { Spanned at e }
    ensures { result ≡ width_at at e }
{
    let next = e.next;
    let b = e.bounds;
    let m = next.pos - at.pos + (next.neg - at.neg);
    21 + (records::chain::width_of(b.len) + records::chain::width_of(m))
}

// How many words the first n points of a list take, if they can be written, or could were they not of i64 values.
pub fn judge<'a>(
    n: usize,
    sets: &[[u64; 9]],
    words: &[[u64; 12]],
    pos: &'a [u64],
    neg: &'a [u64],
    bounds: &[f64],
) -> Option<usize>
    ensures { result ≡ judged n (shadowed (source sets.now words.now pos.now neg.now bounds.now)) }
{
    if n > 64 {
        return None;
    }
    let mut at = Cursor {
        place: 0,
        pos: 0,
        neg: 0,
    };
    let mut cells: usize = 0;
    for i in 0..n {
        let Some(e) = step_at(at, sets, words, pos, neg, bounds) else {
            return None;
        };
        cells += width_at(at, e);
        at = e.next;
    }
    Some(cells)
}

// Whether no words of the first n have the kind of a point of i64 values; of points that were judged fine: whether none is one.
pub fn no_kind(n: usize, words: &[[u64; 12]]) -> bool
    ensures { result ≡ no_kind n words.now }
{
    for i in 0..n {
        let at = Cursor {
            place: i,
            pos: 0,
            neg: 0,
        };
        if whole_listing::decode::is_whole(at, words) {
            return false;
        }
    }
    true
}
