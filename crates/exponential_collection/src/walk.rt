// All slots, ascending by set: what a collection finds, and the points that are due put into the output.
ghost use Rattle.std.specs.Prelude.{◌≡◌, true, []};
ghost use Rattle.exponential_slots.specs.Cells.{cells};
ghost use Rattle.value_map.specs.Exponential.{exponential_store};
ghost use Rattle.listing.specs.Listed.{output};
ghost use Rattle.listing.specs.Inner.{left};
ghost use Rattle.collecting.specs.Slots.{walked, Walk, AllKnown, survey_of, surveyed, Listable, listed_to};
ghost use Rattle.exponential_collection.specs.Points.{exponential_lister};

use crate::Settings;
use collecting::{Sums, Survey};
use listing::Cursor;

// What the slots are found to be; none where a series that is held disagrees.
pub fn survey(
    known: bool,
    cumulative: bool,
    s: Settings,
    used: usize,
    entries: &[[u64; 3]],
    order: &[u32],
    figures: &[[u64; 8]],
    extremes: &[[f64; 3]],
    pos: &[u64],
    neg: &[u64],
) -> Option<Sums>
    requires walk { Walk (exponential_store s.size s.top) (walked used [] entries.now order.now (cells figures.now extremes.now pos.now neg.now)) }
    requires all_known { AllKnown (exponential_store s.size s.top) (true, true) known
        (walked used [] entries.now order.now (cells figures.now extremes.now pos.now neg.now)) }
    ensures { survey_of result ≡ surveyed (exponential_lister s.size s.top) (true, true) cumulative
        (walked used [] entries.now order.now (cells figures.now extremes.now pos.now neg.now)) }
{
    let size = s.size;
    let top = s.top;
    let mut found = Sums {
        points: 0,
        pos: 0,
        neg: 0,
    };
    for i in 0..used + 1 {
        let x = collecting::slot_at(order, i);
        let updated = directory::is_updated(entries, x);
        let due = collecting::is_due(cumulative, updated, x);
        let so_far = Survey::of(found);
        let next = crate::slot::survey(
            known, size, top, so_far, x, updated, due, figures, extremes, pos, neg,
        );
        found = next.sums()?;
    }
    Some(found)
}

// Puts the points of all slots that are due, from the front of the output on; the cursor behind them.
pub fn list(
    cumulative: bool,
    s: Settings,
    used: usize,
    sets: &[[u64; 9]],
    entries: &[[u64; 3]],
    order: &[u32],
    figures: &[[u64; 8]],
    extremes: &[[f64; 3]],
    pos: &[u64],
    neg: &[u64],
    out_sets: &mut [[u64; 9]],
    out_words: &mut [[u64; 12]],
    out_pos: &mut [u64],
    out_neg: &mut [u64],
) -> Cursor
    requires { Listable (exponential_lister s.size s.top) (s.extremes, s.sums) cumulative
        (walked used sets.now entries.now order.now (cells figures.now extremes.now pos.now neg.now)) (output out_sets.old out_words.old out_pos.old out_neg.old) }
    ensures { left result (output out_sets.new out_words.new out_pos.new out_neg.new)
        ≡ listed_to (exponential_lister s.size s.top) (s.extremes, s.sums) cumulative
        (walked used sets.now entries.now order.now (cells figures.now extremes.now pos.now neg.now))
        (output out_sets.old out_words.old out_pos.old out_neg.old) }
{
    let size = s.size;
    let top = s.top;
    let show = s.extremes;
    let sums = s.sums;
    let mut at = Cursor {
        place: 0,
        pos: 0,
        neg: 0,
    };
    for i in 0..used + 1 {
        let x = collecting::slot_at(order, i);
        let updated = directory::is_updated(entries, x);
        let due = collecting::is_due(cumulative, updated, x);
        let row = collecting::row_at(sets, x);
        at = crate::slot::put(
            size, top, show, sums, at, x, updated, due, row, figures, extremes, pos, neg, out_sets,
            out_words, out_pos, out_neg,
        );
    }
    at
}
