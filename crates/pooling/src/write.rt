// The list that is merged into.
ghost use Rattle.std.specs.Prelude.{◌≡◌};
ghost use Rattle.laws.specs.Pick.{pick};
ghost use Rattle.refusals.specs.Refusals.{said};
ghost use Rattle.listing.specs.Listed.{output};
ghost use Rattle.pooling.specs.Lists.{ends, placed, pooled};
ghost use Rattle.pooling.specs.Entries.{whole_in, stored_of};

use listing::{Cursor, Entry};
use refusals::Refusal;

// Whether stores of so many have a place at the cursor.
fn has_place(at: Cursor, sets: usize, words: usize, pos: usize, neg: usize) -> bool
    ensures { result ≡ placed at sets words pos neg }
{
    if sets <= at.place {
        return false;
    }
    if words <= at.place {
        return false;
    }
    if pos < at.pos {
        return false;
    }
    at.neg <= neg
}

// Where the merged counts go: at a place, or behind all counts where the point has none, so that nothing is changed.
fn start_of(ok: bool, place: usize, many: usize) -> usize
    ensures { result ≡ pick ok place many }
{
    if ok {
        return place;
    }
    many
}

// The points of two entries merged to a point at the cursor, with a set's row and the first's bounds.
pub fn pool(
    size: u32,
    row: [u64; 9],
    a: Cursor,
    e: Entry,
    abounds: &[f64],
    apos: &[u64],
    aneg: &[u64],
    b: Cursor,
    f: Entry,
    bbounds: &[f64],
    bpos: &[u64],
    bneg: &[u64],
    at: Cursor,
    sets: &mut [[u64; 9]],
    words: &mut [[u64; 12]],
    pos: &mut [u64],
    neg: &mut [u64],
) -> Result<Cursor, Refusal>
    requires { whole_in a e abounds.now apos.now aneg.now × whole_in b f bbounds.now bpos.now bneg.now }
    ensures { ends (said result) (output sets.new words.new pos.new neg.new)
        ≡ pooled size row e.bounds (stored_of a e abounds.now apos.now aneg.now) (stored_of b f bbounds.now bpos.now bneg.now)
        at (output sets.old words.old pos.old neg.old) }
{
    let ok = has_place(at, sets.len(), words.len(), pos.len(), neg.len());
    let i = start_of(ok, at.pos, pos.len());
    let j = start_of(ok, at.neg, neg.len());
    let p = crate::entries::merge_entries(
        size,
        a,
        e,
        abounds,
        apos,
        aneg,
        b,
        f,
        bbounds,
        bpos,
        bneg,
        &mut pos[i..],
        &mut neg[j..],
    )?;
    if !ok {
        return Err(Refusal::NoRoom);
    }
    let s = e.bounds;
    let k = at.place;
    let next = listing::put::cursor_behind(at, p.figures, s);
    sets[k] = row;
    words[k] = listing::encode::words_of(p, s);
    Ok(next)
}
