// The collections, of lent memory or of a map that is known to agree: 12, 8 and 10 are decided first, by reading, then the points are put.
ghost use Rattle.std.specs.Prelude.{◌≡◌, true};
ghost use Rattle.std.proofs.Math.Option.{none};
ghost use Rattle.refusals.specs.Refusals.{code};
ghost use Rattle.directory.specs.View.{stores};
ghost use Rattle.exponential_whole_slots.specs.Cells.{cells};
ghost use Rattle.value_map.specs.Calls.{held};
ghost use Rattle.batches.specs.Owned.{Owned};
ghost use Rattle.whole_map.specs.Exponential.{exponential_wholes};
ghost use Rattle.listing.specs.Listed.{output};
ghost use Rattle.collecting.specs.Collected.{gave, uncollected, delta_collected, cumulative_collected};
ghost use Rattle.exponential_whole_collection.specs.Points.{exponential_whole_lister};

use collecting::{Reply, Survey};
use directory::Directory;
use exponential_collection::Settings;
use refusals::Refusal;

// What refuses a collection: 12, 8, 10. Everything is decided here, by reading; of a map that is known to agree, only 10.
fn number(
    known: bool,
    cumulative: bool,
    s: Settings,
    d: Directory,
    sets: &[[u64; 9]],
    entries: &[[u64; 3]],
    order: &[u32],
    figures: &[[u64; 8]],
    extremes: &[[i64; 3]],
    pos: &[u64],
    neg: &[u64],
    out_sets: &[[u64; 9]],
    out_words: &[[u64; 12]],
    out_pos: &[u64],
    out_neg: &[u64],
) -> Result<(), Refusal>
    requires { known ≡ true → Owned (exponential_wholes s.size s.top s.sums) s.extremes s.limit none
        (held d (stores sets.now entries.now order.now) (cells figures.now extremes.now pos.now neg.now)) }
    ensures { code result ≡ uncollected (exponential_whole_lister s.size s.top s.sums) s.extremes cumulative s.limit
        (held d (stores sets.now entries.now order.now) (cells figures.now extremes.now pos.now neg.now))
        (output out_sets.now out_words.now out_pos.now out_neg.now) }
{
    let size = s.size;
    let limit = s.limit;
    let room = value_map::exponential_map::cells_suffice(
        size,
        limit,
        figures.len(),
        extremes.len(),
        pos.len(),
        neg.len(),
    );
    let unset = value_map::exponential_map::unset_of(size, s.top);
    collecting::barred(known, room, unset, limit, d, sets, entries, order)?;
    let found = crate::walk::survey(
        known, cumulative, s, d.used, entries, order, figures, extremes, pos, neg,
    );
    collecting::number_of(
        Survey::found(found),
        out_sets.len(),
        out_words.len(),
        out_pos.len(),
        out_neg.len(),
    )
}

// Delta collection: lists the updated entries and resets them; removes those that were neither updated nor bound, but for overflow.
pub fn delta(
    known: bool,
    s: Settings,
    d: Directory,
    sets: &mut [[u64; 9]],
    entries: &mut [[u64; 3]],
    order: &mut [u32],
    figures: &[[u64; 8]],
    extremes: &[[i64; 3]],
    pos: &[u64],
    neg: &[u64],
    out_sets: &mut [[u64; 9]],
    out_words: &mut [[u64; 12]],
    out_pos: &mut [u64],
    out_neg: &mut [u64],
) -> Reply
    requires { known ≡ true → Owned (exponential_wholes s.size s.top s.sums) s.extremes s.limit none
        (held d (stores sets.old entries.old order.old) (cells figures.now extremes.now pos.now neg.now)) }
    ensures { gave result.answer (held result.dir (stores sets.new entries.new order.new)
        (cells figures.now extremes.now pos.now neg.now))
        (output out_sets.new out_words.new out_pos.new out_neg.new)
        ≡ delta_collected (exponential_whole_lister s.size s.top s.sums) s.extremes s.limit
        (held d (stores sets.old entries.old order.old) (cells figures.now extremes.now pos.now neg.now))
        (output out_sets.old out_words.old out_pos.old out_neg.old) }
{
    match number(
        known, false, s, d, sets, entries, order, figures, extremes, pos, neg, out_sets, out_words,
        out_pos, out_neg,
    ) {
        Err(e) => Reply {
            answer: Err(e),
            dir: d,
        },
        Ok(()) => {
            let at = crate::walk::list(
                false, s, d.used, sets, entries, order, figures, extremes, pos, neg, out_sets,
                out_words, out_pos, out_neg,
            );
            let dir = sweep::sweep(d, sets, entries, order);
            Reply {
                answer: Ok(at.place),
                dir,
            }
        }
    }
}

// Cumulative collection: lists every named entry, and the empty set's if it was updated. The map stays.
pub fn cumulative(
    known: bool,
    s: Settings,
    d: Directory,
    sets: &[[u64; 9]],
    entries: &[[u64; 3]],
    order: &[u32],
    figures: &[[u64; 8]],
    extremes: &[[i64; 3]],
    pos: &[u64],
    neg: &[u64],
    out_sets: &mut [[u64; 9]],
    out_words: &mut [[u64; 12]],
    out_pos: &mut [u64],
    out_neg: &mut [u64],
) -> Result<usize, Refusal>
    requires { known ≡ true → Owned (exponential_wholes s.size s.top s.sums) s.extremes s.limit none
        (held d (stores sets.now entries.now order.now) (cells figures.now extremes.now pos.now neg.now)) }
    ensures { gave result
        (held d (stores sets.now entries.now order.now) (cells figures.now extremes.now pos.now neg.now))
        (output out_sets.new out_words.new out_pos.new out_neg.new)
        ≡ cumulative_collected (exponential_whole_lister s.size s.top s.sums) s.extremes s.limit
        (held d (stores sets.now entries.now order.now) (cells figures.now extremes.now pos.now neg.now))
        (output out_sets.old out_words.old out_pos.old out_neg.old) }
{
    number(
        known, true, s, d, sets, entries, order, figures, extremes, pos, neg, out_sets, out_words,
        out_pos, out_neg,
    )?;
    let at = crate::walk::list(
        true, s, d.used, sets, entries, order, figures, extremes, pos, neg, out_sets, out_words,
        out_pos, out_neg,
    );
    Ok(at.place)
}
