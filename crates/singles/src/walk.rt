// All slots, ascending by set: what a collection finds, and the points that are due put into the output.
ghost use Rattle.std.specs.Prelude.{◌≡◌, []};
ghost use Rattle.listing.specs.Inner.{left};
ghost use Rattle.collecting.specs.Slots.{walked, Walk, AllKnown, survey_of, surveyed, Listable, listed_to};
ghost use Rattle.singles.specs.Stores.{single_store};
ghost use Rattle.singles.specs.Points.{output, single_lister};
ghost use Rattle.singles.specs.Inner.{place};
ghost use Rattle.singles.specs.declared.Aggregation.TheVariants.{Sum};

use crate::Aggregation;
use collecting::{Sums, Survey};

// What the slots are found to be; none where a series that is held disagrees.
pub fn survey(
    known: bool,
    cumulative: bool,
    aggregation: Aggregation,
    used: usize,
    entries: &[[u64; 3]],
    order: &[u32],
    values: &[f64],
) -> Option<Sums>
    requires walk { Walk (single_store aggregation) (walked used [] entries.now order.now values.now) }
    requires all_known { AllKnown (single_store aggregation) tt known (walked used [] entries.now order.now values.now) }
    ensures { survey_of result ≡ surveyed (single_lister aggregation) tt cumulative
        (walked used [] entries.now order.now values.now) }
{
    let mut found = Sums {
        points: 0,
        pos: 0,
        neg: 0,
    };
    for i in 0..used + 1 {
        let x = collecting::slot_at(order, i);
        let updated = directory::is_updated(entries, x);
        let due = collecting::is_due(cumulative, updated, x);
        let so_far = Survey::of(found);
        let next = crate::slot::survey(known, aggregation, so_far, x, updated, due, values);
        found = next.sums()?;
    }
    Some(found)
}

// Puts the points of the slots that are due into the output; the place behind them. What is put is the same for every aggregation.
pub fn list(
    cumulative: bool,
    used: usize,
    sets: &[[u64; 9]],
    entries: &[[u64; 3]],
    order: &[u32],
    values: &[f64],
    out_sets: &mut [[u64; 9]],
    out_values: &mut [u64],
) -> usize
    requires { Listable (single_lister Sum) tt cumulative (walked used sets.now entries.now order.now values.now)
        (output out_sets.old out_values.old) }
    ensures { left (place result) (output out_sets.new out_values.new)
        ≡ listed_to (single_lister Sum) tt cumulative
        (walked used sets.now entries.now order.now values.now)
        (output out_sets.old out_values.old) }
{
    let mut at: usize = 0;
    for i in 0..used + 1 {
        let x = collecting::slot_at(order, i);
        let updated = directory::is_updated(entries, x);
        let due = collecting::is_due(cumulative, updated, x);
        let row = collecting::row_at(sets, x);
        at = crate::slot::put(at, x, updated, due, row, values, out_sets, out_values);
    }
    at
}
