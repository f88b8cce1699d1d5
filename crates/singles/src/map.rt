// The map of sums and last values: recording by set and by handle.
ghost use Rattle.std.specs.Prelude.{◌≡◌, IfOk};
ghost use Rattle.refusals.specs.Refusals.{code};
ghost use Rattle.rows.specs.Recording.{after};
ghost use Rattle.sets.specs.Sorted.{given, filter_of};
ghost use Rattle.directory.specs.View.{stores};
ghost use Rattle.seats.specs.Seats.{seating};
ghost use Rattle.value_map.specs.Calls.{held, gave, measured, measured_by};
ghost use Rattle.value_map.specs.Inner.{Takes, taken};
ghost use Rattle.singles.specs.Stores.{single_store};

use crate::Aggregation;
use bindings::Reply;
use directory::{Directory, Target};
use refusals::Refusal;
use seats::Seated;
use value_map::first;

// Records a value at the slot of a seat, and what the directory is to write then; or the seat's refusal, or the series'.
fn take(
    aggregation: Aggregation,
    seat: Result<Seated, Refusal>,
    values: &mut [f64],
    v: f64,
) -> Result<Target, Refusal>
    requires { Takes (single_store aggregation) values.old v (seating seat).no (seating seat).slot }
    ensures value { after (code result) values.new
        ≡ taken (single_store aggregation) values.old v (seating seat).no (seating seat).no (seating seat).slot (seating seat).updated }
    ensures target { IfOk result (λ t. t ≡ (seating seat).target) }
{
    let s = seat?;
    crate::slot::record(aggregation, s.slot, s.updated, values, v)?;
    Ok(s.target)
}

// Records a value into the series of the attributes' set: its own entry, held or new, or that of overflow; or 12, 6, 5, 8, 9.
pub fn measure(
    aggregation: Aggregation,
    limit: u64,
    d: Directory,
    sets: &mut [[u64; 9]],
    entries: &mut [[u64; 3]],
    order: &mut [u32],
    values: &mut [f64],
    v: f64,
    attrs: &[[u32; 2]],
    present: bool,
    filter: &[u32],
) -> Reply
    ensures { gave result (stores sets.new entries.new order.new) values.new
        ≡ measured (single_store aggregation) limit (filter_of present filter.now)
        (held d (stores sets.old entries.old order.old) values.old) v (given attrs.now) }
{
    let slots = values.len();
    let value = first::takes(v);
    let mut row: [u64; 9] = [0; 9];
    let seat = seats::seat(
        slots,
        value,
        Ok::<(), Refusal>(()),
        limit,
        d,
        sets,
        entries,
        order,
        attrs,
        present,
        filter,
        &mut row,
    );
    let done = take(aggregation, seat, values, v);
    first::finish(done, d, sets, entries, order, &row)
}

// Records a value into the series that the handle names; or 12, 6, 8, 7, 9.
pub fn measure_by(
    aggregation: Aggregation,
    limit: u64,
    d: Directory,
    sets: &mut [[u64; 9]],
    entries: &mut [[u64; 3]],
    order: &mut [u32],
    values: &mut [f64],
    v: f64,
    h: u64,
) -> Reply
    ensures { gave result (stores sets.new entries.new order.new) values.new
        ≡ measured_by (single_store aggregation) limit
        (held d (stores sets.old entries.old order.old) values.old) v h }
{
    let slots = values.len();
    let value = first::takes(v);
    let row: [u64; 9] = [0; 9];
    let seat = seats::seat_by(
        slots,
        value,
        Ok::<(), Refusal>(()),
        limit,
        d,
        sets,
        entries,
        order,
        h,
    );
    let done = take(aggregation, seat, values, v);
    first::finish(done, d, sets, entries, order, &row)
}
