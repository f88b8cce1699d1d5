// The two points that are merged, read from their lists: of f64 values, or of i64 values and then merged by their shadows.
ghost use Rattle.std.specs.Prelude.{◌≡◌};
ghost use Rattle.refusals.specs.Refusals.{code, said};
ghost use Rattle.point.specs.Handing.{ended, refusal_before, merging};
ghost use Rattle.listing.specs.Listed.{bounds_at};
ghost use Rattle.pooling.specs.Lists.{nameless, bounded, whole_at, bounded_integer, integer_at};
ghost use Rattle.pooling.specs.Entries.{whole_in, stored_of, shadow_entry};

use listing::{Cursor, Entry};
use point::Point;
use refusals::Refusal;

// The point found, if its bounds lie in a store of so many.
fn bounded_by(many: usize, found: Option<Entry>) -> Option<Entry>
    ensures { result ≡ bounded many found }
{
    match found {
        None => None,
        Some(e) => {
            let b = e.bounds;
            if listing::read::lie(b.start, b.len, many) {
                return Some(e);
            }
            None
        }
    }
}

// The point at a cursor, if it is there with its counts and its bounds.
pub fn whole_at(
    at: Cursor,
    words: &[[u64; 12]],
    pos: &[u64],
    neg: &[u64],
    bounds: &[f64],
) -> Option<Entry>
    ensures { result ≡ whole_at at (nameless words.now pos.now neg.now bounds.now) }
{
    let found = listing::read::point_at(at, words, pos, neg);
    bounded_by(bounds.len(), found)
}

// The same of a point of i64 values.
fn bounded_integer(many: usize, found: Option<whole_listing::Entry>) -> Option<whole_listing::Entry>
    ensures { result ≡ bounded_integer many found }
{
    match found {
        None => None,
        Some(e) => {
            let b = e.bounds;
            if listing::read::lie(b.start, b.len, many) {
                return Some(e);
            }
            None
        }
    }
}

pub fn integer_at(
    at: Cursor,
    words: &[[u64; 12]],
    pos: &[u64],
    neg: &[u64],
    bounds: &[f64],
) -> Option<whole_listing::Entry>
    ensures { result ≡ integer_at at (nameless words.now pos.now neg.now bounds.now) }
{
    let found = whole_listing::read::point_at(at, words, pos, neg);
    bounded_integer(bounds.len(), found)
}

// The entry of its shadow: the f64 point with the same counts and bounds.
pub fn shadow_entry(e: whole_listing::Entry) -> Entry
    ensures { result ≡ shadow_entry e }
{
    let p = e.point;
    let shadow = whole_point::shadow_of(p);
    let b = e.bounds;
    let next = e.next;
    Entry {
        point: shadow,
        bounds: b,
        next,
    }
}

// What refuses a merge of two entries' points, but for 10.
pub fn refusal_entries(
    size: u32,
    a: Cursor,
    e: Entry,
    abounds: &[f64],
    apos: &[u64],
    aneg: &[u64],
    b: Cursor,
    f: Entry,
    bbounds: &[f64],
    bpos: &[u64],
    bneg: &[u64],
) -> Result<(), Refusal>
    requires { whole_in a e abounds.now apos.now aneg.now × whole_in b f bbounds.now bpos.now bneg.now }
    ensures { code result ≡ refusal_before size (stored_of a e abounds.now apos.now aneg.now)
        (stored_of b f bbounds.now bpos.now bneg.now) }
{
    let s = e.bounds;
    let t = f.bounds;
    let i = s.start;
    let k = i + s.len;
    let j = t.start;
    let l = j + t.len;
    let g = e.next;
    let h = f.next;
    let p = a.pos;
    let n = a.neg;
    let q = b.pos;
    let m = b.neg;
    let pe = g.pos;
    let ne = g.neg;
    let qe = h.pos;
    let me = h.neg;
    let x = e.point;
    let y = f.point;
    point::refusal(
        size,
        x,
        &abounds[i..k],
        &apos[p..pe],
        &aneg[n..ne],
        y,
        &bbounds[j..l],
        &bpos[q..qe],
        &bneg[m..me],
    )
}

// The points of two entries merged into lent rows.
pub fn merge_entries(
    size: u32,
    a: Cursor,
    e: Entry,
    abounds: &[f64],
    apos: &[u64],
    aneg: &[u64],
    b: Cursor,
    f: Entry,
    bbounds: &[f64],
    bpos: &[u64],
    bneg: &[u64],
    pos: &mut [u64],
    neg: &mut [u64],
) -> Result<Point, Refusal>
    requires { whole_in a e abounds.now apos.now aneg.now × whole_in b f bbounds.now bpos.now bneg.now }
    ensures { ended (said result) (bounds_at e.bounds abounds.now) pos.new neg.new
        ≡ merging size (stored_of a e abounds.now apos.now aneg.now) (stored_of b f bbounds.now bpos.now bneg.now)
        pos.old neg.old }
{
    let s = e.bounds;
    let t = f.bounds;
    let i = s.start;
    let k = i + s.len;
    let j = t.start;
    let l = j + t.len;
    let g = e.next;
    let h = f.next;
    let p = a.pos;
    let n = a.neg;
    let q = b.pos;
    let m = b.neg;
    let pe = g.pos;
    let ne = g.neg;
    let qe = h.pos;
    let me = h.neg;
    let x = e.point;
    let y = f.point;
    point::merge(
        size,
        x,
        &abounds[i..k],
        &apos[p..pe],
        &aneg[n..ne],
        y,
        &bbounds[j..l],
        &bpos[q..qe],
        &bneg[m..me],
        pos,
        neg,
    )
}
