// The collections, of lent memory or of a map that is known to agree: 12, 8 and 10 are decided first, by reading, then the points are put.
ghost use Rattle.std.specs.Prelude.{◌≡◌, true};
ghost use Rattle.std.proofs.Math.Option.{none};
ghost use Rattle.refusals.specs.Refusals.{code};
ghost use Rattle.directory.specs.View.{stores};
ghost use Rattle.explicit_whole_slots.specs.Cells.{cells};
ghost use Rattle.value_map.specs.Calls.{held};
ghost use Rattle.batches.specs.Owned.{Owned};
ghost use Rattle.whole_map.specs.Explicit.{explicit_wholes};
ghost use Rattle.listing.specs.Listed.{output};
ghost use Rattle.collecting.specs.Collected.{gave, uncollected, delta_collected, cumulative_collected};
ghost use Rattle.explicit_whole_collection.specs.Points.{explicit_whole_lister};

use collecting::{Reply, Survey};
use directory::Directory;
use explicit_collection::Settings;
use refusals::Refusal;

// What refuses a collection: 12, 8, 10. Everything is decided here, by reading; of a map that is known to agree, only 10.
fn number(
    known: bool,
    cumulative: bool,
    bounds: &[f64],
    s: Settings,
    d: Directory,
    sets: &[[u64; 9]],
    entries: &[[u64; 3]],
    order: &[u32],
    totals: &[u64],
    extremes: &[[i64; 3]],
    counts: &[u64],
    out_sets: &[[u64; 9]],
    out_words: &[[u64; 12]],
    out_pos: &[u64],
    out_neg: &[u64],
) -> Result<(), Refusal>
    requires { known ≡ true → Owned (explicit_wholes bounds.now s.sums) s.extremes s.limit none
        (held d (stores sets.now entries.now order.now) (cells totals.now extremes.now counts.now)) }
    ensures { code result ≡ uncollected (explicit_whole_lister bounds.now s.sums) s.extremes cumulative s.limit
        (held d (stores sets.now entries.now order.now) (cells totals.now extremes.now counts.now))
        (output out_sets.now out_words.now out_pos.now out_neg.now) }
{
    let limit = s.limit;
    let room = value_map::explicit_map::cells_suffice(
        bounds,
        limit,
        totals.len(),
        extremes.len(),
        counts.len(),
    );
    let unset = value_map::explicit_map::unset_of(bounds);
    collecting::barred(known, room, unset, limit, d, sets, entries, order)?;
    let found = crate::walk::survey(
        known, cumulative, bounds, d.used, entries, order, totals, counts,
    );
    collecting::number_of(
        Survey::found(found),
        out_sets.len(),
        out_words.len(),
        out_pos.len(),
        out_neg.len(),
    )
}

// Delta collection: lists the updated entries and resets them; removes those that were neither updated nor bound, but for overflow.
pub fn delta(
    known: bool,
    bounds: &[f64],
    s: Settings,
    d: Directory,
    sets: &mut [[u64; 9]],
    entries: &mut [[u64; 3]],
    order: &mut [u32],
    totals: &[u64],
    extremes: &[[i64; 3]],
    counts: &[u64],
    out_sets: &mut [[u64; 9]],
    out_words: &mut [[u64; 12]],
    out_pos: &mut [u64],
    out_neg: &mut [u64],
) -> Reply
    requires { known ≡ true → Owned (explicit_wholes bounds.now s.sums) s.extremes s.limit none
        (held d (stores sets.old entries.old order.old) (cells totals.now extremes.now counts.now)) }
    ensures { gave result.answer
        (held result.dir (stores sets.new entries.new order.new) (cells totals.now extremes.now counts.now))
        (output out_sets.new out_words.new out_pos.new out_neg.new)
        ≡ delta_collected (explicit_whole_lister bounds.now s.sums) s.extremes s.limit
        (held d (stores sets.old entries.old order.old) (cells totals.now extremes.now counts.now))
        (output out_sets.old out_words.old out_pos.old out_neg.old) }
{
    match number(
        known, false, bounds, s, d, sets, entries, order, totals, extremes, counts, out_sets,
        out_words, out_pos, out_neg,
    ) {
        Err(e) => Reply {
            answer: Err(e),
            dir: d,
        },
        Ok(()) => {
            let end = crate::walk::list(
                false, bounds, s.extremes, s.sums, d.used, sets, entries, order, totals, extremes,
                counts, out_sets, out_words, out_pos, out_neg,
            );
            let dir = sweep::sweep(d, sets, entries, order);
            Reply {
                answer: Ok(end.place),
                dir,
            }
        }
    }
}

// Cumulative collection: lists every named entry, and the empty set's if it was updated. The map stays.
pub fn cumulative(
    known: bool,
    bounds: &[f64],
    s: Settings,
    d: Directory,
    sets: &[[u64; 9]],
    entries: &[[u64; 3]],
    order: &[u32],
    totals: &[u64],
    extremes: &[[i64; 3]],
    counts: &[u64],
    out_sets: &mut [[u64; 9]],
    out_words: &mut [[u64; 12]],
    out_pos: &mut [u64],
    out_neg: &mut [u64],
) -> Result<usize, Refusal>
    requires { known ≡ true → Owned (explicit_wholes bounds.now s.sums) s.extremes s.limit none
        (held d (stores sets.now entries.now order.now) (cells totals.now extremes.now counts.now)) }
    ensures { gave result
        (held d (stores sets.now entries.now order.now) (cells totals.now extremes.now counts.now))
        (output out_sets.new out_words.new out_pos.new out_neg.new)
        ≡ cumulative_collected (explicit_whole_lister bounds.now s.sums) s.extremes s.limit
        (held d (stores sets.now entries.now order.now) (cells totals.now extremes.now counts.now))
        (output out_sets.old out_words.old out_pos.old out_neg.old) }
{
    number(
        known, true, bounds, s, d, sets, entries, order, totals, extremes, counts, out_sets,
        out_words, out_pos, out_neg,
    )?;
    let end = crate::walk::list(
        true, bounds, s.extremes, s.sums, d.used, sets, entries, order, totals, extremes, counts,
        out_sets, out_words, out_pos, out_neg,
    );
    Ok(end.place)
}
