// All slots, ascending by set: what a collection finds, and the points that are due put into the output.
ghost use Rattle.std.specs.Prelude.{◌≡◌, true, []};
ghost use Rattle.explicit_slots.specs.Cells.{cells};
ghost use Rattle.value_map.specs.Explicit.{explicit_store};
ghost use Rattle.listing.specs.Listed.{output};
ghost use Rattle.listing.specs.Inner.{left};
ghost use Rattle.collecting.specs.Slots.{walked, Walk, AllKnown, survey_of, surveyed, Listable, listed_to};
ghost use Rattle.explicit_collection.specs.Points.{explicit_lister};

use collecting::{Sums, Survey};
use listing::Cursor;

// What the slots are found to be; none where a series that is held disagrees.
pub fn survey(
    known: bool,
    cumulative: bool,
    bounds: &[f64],
    used: usize,
    entries: &[[u64; 3]],
    order: &[u32],
    totals: &[u64],
    extremes: &[[f64; 3]],
    counts: &[u64],
) -> Option<Sums>
    requires walk { Walk (explicit_store bounds.now) (walked used [] entries.now order.now (cells totals.now extremes.now counts.now)) }
    requires all_known { AllKnown (explicit_store bounds.now) (true, true) known
        (walked used [] entries.now order.now (cells totals.now extremes.now counts.now)) }
    ensures { survey_of result ≡ surveyed (explicit_lister bounds.now) (true, true) cumulative
        (walked used [] entries.now order.now (cells totals.now extremes.now counts.now)) }
{
    let mut found = Sums {
        points: 0,
        pos: 0,
        neg: 0,
    };
    for i in 0..used + 1 {
        let x = collecting::slot_at(order, i);
        let updated = directory::is_updated(entries, x);
        let due = collecting::is_due(cumulative, updated, x);
        let so_far = Survey::of(found);
        let next = crate::slot::survey(
            known, bounds, so_far, x, updated, due, totals, extremes, counts,
        );
        found = next.sums()?;
    }
    Some(found)
}

// Puts the points of the slots that are due into the output; the cursor behind them.
pub fn list(
    cumulative: bool,
    bounds: &[f64],
    show: bool,
    sums: bool,
    used: usize,
    sets: &[[u64; 9]],
    entries: &[[u64; 3]],
    order: &[u32],
    totals: &[u64],
    extremes: &[[f64; 3]],
    counts: &[u64],
    out_sets: &mut [[u64; 9]],
    out_words: &mut [[u64; 12]],
    out_pos: &mut [u64],
    out_neg: &mut [u64],
) -> Cursor
    requires { Listable (explicit_lister bounds.now) (show, sums) cumulative
        (walked used sets.now entries.now order.now (cells totals.now extremes.now counts.now)) (output out_sets.old out_words.old out_pos.old out_neg.old) }
    ensures { left result (output out_sets.new out_words.new out_pos.new out_neg.new)
        ≡ listed_to (explicit_lister bounds.now) (show, sums) cumulative
        (walked used sets.now entries.now order.now (cells totals.now extremes.now counts.now))
        (output out_sets.old out_words.old out_pos.old out_neg.old) }
{
    let mut at = Cursor {
        place: 0,
        pos: 0,
        neg: 0,
    };
    for i in 0..used + 1 {
        let x = collecting::slot_at(order, i);
        let updated = directory::is_updated(entries, x);
        let due = collecting::is_due(cumulative, updated, x);
        let row = collecting::row_at(sets, x);
        at = crate::slot::put(
            bounds, show, sums, at, x, updated, due, row, totals, extremes, counts, out_sets,
            out_words, out_pos, out_neg,
        );
    }
    at
}
