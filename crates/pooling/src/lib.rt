// Two points of lists in lent output merged into a third list (docs/LIST.md): "Sets are not compared; the result has the first's."
#![tactic(auto)]

pub mod entries;
mod wholes;
mod write;

ghost use Rattle.std.specs.Prelude.{◌≡◌};
ghost use Rattle.refusals.specs.Refusals.{said};
ghost use Rattle.listing.specs.Listed.{output};
ghost use Rattle.pooling.specs.Lists.{source, nameless, ends, pooled_at};
ghost use Rattle.pooling.specs.Entries.{pooled_reals};

use listing::Cursor;
use refusals::Refusal;

// Two points of f64 values merged, or 8 where one is not there.
fn merge_reals(
    size: u32,
    row: [u64; 9],
    a: Cursor,
    awords: &[[u64; 12]],
    apos: &[u64],
    aneg: &[u64],
    abounds: &[f64],
    b: Cursor,
    bwords: &[[u64; 12]],
    bpos: &[u64],
    bneg: &[u64],
    bbounds: &[f64],
    at: Cursor,
    sets: &mut [[u64; 9]],
    words: &mut [[u64; 12]],
    pos: &mut [u64],
    neg: &mut [u64],
) -> Result<Cursor, Refusal>
    ensures { ends (said result) (output sets.new words.new pos.new neg.new)
        ≡ pooled_reals size row a (nameless awords.now apos.now aneg.now abounds.now)
        b (nameless bwords.now bpos.now bneg.now bbounds.now)
        at (output sets.old words.old pos.old neg.old) }
{
    let Some(e) = entries::whole_at(a, awords, apos, aneg, abounds) else {
        return Err(Refusal::Disagrees);
    };
    let Some(f) = entries::whole_at(b, bwords, bpos, bneg, bbounds) else {
        return Err(Refusal::Disagrees);
    };
    write::pool(
        size, row, a, e, abounds, apos, aneg, b, f, bbounds, bpos, bneg, at, sets, words, pos, neg,
    )
}

// The points at a and at b merged to a point at `at`, with the set and the bounds of the first, or a refusal with nothing
// changed: 8 no point lies at a or at b; then 1 max_size, 8 a point disagrees, 11 unlike kind, bounds or switch, or one of f64 and one of i64
// values, 9 the count would pass 2^64 - 1, 16 the sum would leave i64, 10 no place for the point or its counts.
pub fn merge_at(
    size: u32,
    a: Cursor,
    asets: &[[u64; 9]],
    awords: &[[u64; 12]],
    apos: &[u64],
    aneg: &[u64],
    abounds: &[f64],
    b: Cursor,
    bwords: &[[u64; 12]],
    bpos: &[u64],
    bneg: &[u64],
    bbounds: &[f64],
    at: Cursor,
    sets: &mut [[u64; 9]],
    words: &mut [[u64; 12]],
    pos: &mut [u64],
    neg: &mut [u64],
) -> Result<Cursor, Refusal>
    ensures { ends (said result) (output sets.new words.new pos.new neg.new)
        ≡ pooled_at size a (source asets.now awords.now apos.now aneg.now abounds.now)
        b (nameless bwords.now bpos.now bneg.now bbounds.now)
        at (output sets.old words.old pos.old neg.old) }
{
    let k = a.place;
    if asets.len() <= k {
        return Err(Refusal::Disagrees);
    }
    if whole_listing::decode::is_whole(a, awords) {
        if whole_listing::decode::is_whole(b, bwords) {
            return wholes::merge(
                size, asets[k], a, awords, apos, aneg, abounds, b, bwords, bpos, bneg, bbounds, at,
                sets, words, pos, neg,
            );
        }
        let no = wholes::mixed(
            size, a, awords, apos, aneg, abounds, b, bwords, bpos, bneg, bbounds,
        );
        return Err(no);
    }
    if whole_listing::decode::is_whole(b, bwords) {
        let no = wholes::mixed(
            size, b, bwords, bpos, bneg, bbounds, a, awords, apos, aneg, abounds,
        );
        return Err(no);
    }
    merge_reals(
        size, asets[k], a, awords, apos, aneg, abounds, b, bwords, bpos, bneg, bbounds, at, sets,
        words, pos, neg,
    )
}
