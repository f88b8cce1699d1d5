// Points of i64 values in the lists: two of them merged by their shadows, and one beside a point of f64 values.
ghost use Rattle.std.specs.Prelude.{◌≡◌};
ghost use Rattle.refusals.specs.Refusals.{number, said};
ghost use Rattle.listing.specs.Listed.{output};
ghost use Rattle.pooling.specs.Lists.{nameless, ends, pooled_wholes};
ghost use Rattle.pooling.specs.Entries.{whole_in, whole_of, shadow_entry, renumbered, Numberable, pooled_integers, mixed_at};

use listing::Cursor;
use refusals::Refusal;
use whole_listing::Entry;

// The merged numbers written over those of the merged shadow, if the shadows were merged.
fn renumber(
    r: Result<Cursor, Refusal>,
    k: usize,
    min: Option<i64>,
    max: Option<i64>,
    sum: i64,
    words: &mut [[u64; 12]],
) -> Result<Cursor, Refusal>
    requires { Numberable k (said r) words.old }
    ensures { (result ≡ r) × (words.new ≡ renumbered k min max sum (said r) words.old) }
{
    let next = r?;
    words[k] = whole_listing::encode::with_numbers(words[k], min, max, sum);
    Ok(next)
}

// The points of two entries merged to a point at the cursor, with a set's row and the first's bounds. Where the sum would leave i64, 16 comes
// behind the shadows' numbers but before 10.
fn pool(
    size: u32,
    row: [u64; 9],
    a: Cursor,
    e: Entry,
    abounds: &[f64],
    apos: &[u64],
    aneg: &[u64],
    b: Cursor,
    f: Entry,
    bbounds: &[f64],
    bpos: &[u64],
    bneg: &[u64],
    at: Cursor,
    sets: &mut [[u64; 9]],
    words: &mut [[u64; 12]],
    pos: &mut [u64],
    neg: &mut [u64],
) -> Result<Cursor, Refusal>
    requires { whole_in a (shadow_entry e) abounds.now apos.now aneg.now × whole_in b (shadow_entry f) bbounds.now bpos.now bneg.now }
    ensures { ends (said result) (output sets.new words.new pos.new neg.new)
        ≡ pooled_wholes size row e.bounds (whole_of a e abounds.now apos.now aneg.now)
        (whole_of b f bbounds.now bpos.now bneg.now) at (output sets.old words.old pos.old neg.old) }
{
    let p = e.point;
    let q = f.point;
    let x = crate::entries::shadow_entry(e);
    let y = crate::entries::shadow_entry(f);
    let Some(s) = integers::sum(p.sum, q.sum) else {
        let before = crate::entries::refusal_entries(
            size, a, x, abounds, apos, aneg, b, y, bbounds, bpos, bneg,
        );
        let no = refusals::code(before);
        let n = integers::last_number(no);
        return Err(Refusal::numbered(n));
    };
    let min = numbers::smaller(p.min, q.min);
    let max = numbers::larger(p.max, q.max);
    let r = crate::write::pool(
        size, row, a, x, abounds, apos, aneg, b, y, bbounds, bpos, bneg, at, sets, words, pos, neg,
    );
    renumber(r, at.place, min, max, s, words)
}

// Two points of i64 values merged, or 8 where one is not there.
pub fn merge(
    size: u32,
    row: [u64; 9],
    a: Cursor,
    awords: &[[u64; 12]],
    apos: &[u64],
    aneg: &[u64],
    abounds: &[f64],
    b: Cursor,
    bwords: &[[u64; 12]],
    bpos: &[u64],
    bneg: &[u64],
    bbounds: &[f64],
    at: Cursor,
    sets: &mut [[u64; 9]],
    words: &mut [[u64; 12]],
    pos: &mut [u64],
    neg: &mut [u64],
) -> Result<Cursor, Refusal>
    ensures { ends (said result) (output sets.new words.new pos.new neg.new)
        ≡ pooled_integers size row a (nameless awords.now apos.now aneg.now abounds.now)
        b (nameless bwords.now bpos.now bneg.now bbounds.now)
        at (output sets.old words.old pos.old neg.old) }
{
    let Some(e) = crate::entries::integer_at(a, awords, apos, aneg, abounds) else {
        return Err(Refusal::Disagrees);
    };
    let Some(f) = crate::entries::integer_at(b, bwords, bpos, bneg, bbounds) else {
        return Err(Refusal::Disagrees);
    };
    pool(
        size, row, a, e, abounds, apos, aneg, b, f, bbounds, bpos, bneg, at, sets, words, pos, neg,
    )
}

// What refuses a point of i64 values at a beside one of f64 values at b: 8 where one is not there, then 1, 8, 11.
pub fn mixed(
    size: u32,
    a: Cursor,
    awords: &[[u64; 12]],
    apos: &[u64],
    aneg: &[u64],
    abounds: &[f64],
    b: Cursor,
    bwords: &[[u64; 12]],
    bpos: &[u64],
    bneg: &[u64],
    bbounds: &[f64],
) -> Refusal
    ensures { number result ≡ mixed_at size a (nameless awords.now apos.now aneg.now abounds.now)
        b (nameless bwords.now bpos.now bneg.now bbounds.now) }
{
    let Some(e) = crate::entries::integer_at(a, awords, apos, aneg, abounds) else {
        return Refusal::Disagrees;
    };
    let Some(f) = crate::entries::whole_at(b, bwords, bpos, bneg, bbounds) else {
        return Refusal::Disagrees;
    };
    let x = crate::entries::shadow_entry(e);
    let no = crate::entries::refusal_entries(
        size, a, x, abounds, apos, aneg, b, f, bbounds, bpos, bneg,
    );
    whole_point::beside(no)
}
