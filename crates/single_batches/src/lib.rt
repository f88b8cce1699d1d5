// Sums and last values: many values in one call, and recordings in a map that is known to agree (batches/specs/Agreed.antt), which ask nothing
// of its memory. The public calls ask once for a whole list what a single call asks for each value.
#![tactic(auto)]

mod slot;

ghost use Rattle.std.specs.Prelude.{◌≡◌, true};
ghost use Rattle.refusals.specs.Refusals.{code};
ghost use Rattle.many.specs.Many.{many};
ghost use Rattle.sets.specs.Sorted.{given, filter_of};
ghost use Rattle.directory.specs.View.{stores};
ghost use Rattle.value_map.specs.Calls.{held, gave, measured, measured_by};
ghost use Rattle.batches.specs.Agreed.{AgreedBy, AgreedFor};
ghost use Rattle.batches.specs.Batch.{measured_all, measured_all_by};
ghost use Rattle.singles.specs.Stores.{single_store};

use batches::Batch;
use bindings::Reply;
use directory::Directory;
use refusals::Refusal;
use singles::Aggregation;
use value_map::first;

// `measure_all`, where a caller may know already that the map agrees: what is known is not asked again.
fn all(
    known: bool,
    aggregation: Aggregation,
    limit: u64,
    d: Directory,
    sets: &mut [[u64; 9]],
    entries: &mut [[u64; 3]],
    order: &mut [u32],
    values: &mut [f64],
    list: &[f64],
    attrs: &[[u32; 2]],
    present: bool,
    filter: &[u32],
) -> Batch
    requires { known ≡ true → AgreedFor (single_store aggregation) tt limit (filter_of present filter.now)
        (held d (stores sets.old entries.old order.old) values.old) (given attrs.now) }
    ensures { many result.taken (code result.end) (held result.dir (stores sets.new entries.new order.new) values.new)
        ≡ measured_all (single_store aggregation) limit (filter_of present filter.now)
        (held d (stores sets.old entries.old order.old) values.old) list.now (given attrs.now) }
{
    if list.len() == 0 {
        return Batch {
            taken: 0,
            end: Ok(()),
            dir: d,
        };
    }
    batches::all_lent(attrs);
    let slots = values.len();
    let value = first::takes(list[0]);
    let mut row: [u64; 9] = [0; 9];
    let found = seats::seat_if(
        known,
        slots,
        value,
        Ok::<(), Refusal>(()),
        limit,
        d,
        sets,
        entries,
        order,
        attrs,
        present,
        filter,
        &mut row,
    );
    let seat = match found {
        Ok(seat) => seat,
        Err(e) => {
            return Batch {
                taken: 0,
                end: Err(e),
                dir: d,
            };
        }
    };
    let got = slot::record_all(known, aggregation, seat.slot, seat.updated, values, list);
    batches::finish_all(
        got.taken,
        got.end,
        d,
        sets,
        entries,
        order,
        &row,
        seat.target,
    )
}

// `measure_all_by`, likewise.
fn all_by(
    known: bool,
    aggregation: Aggregation,
    limit: u64,
    d: Directory,
    sets: &mut [[u64; 9]],
    entries: &mut [[u64; 3]],
    order: &mut [u32],
    values: &mut [f64],
    list: &[f64],
    h: u64,
) -> Batch
    requires { known ≡ true → AgreedBy (single_store aggregation) tt limit (held d (stores sets.old entries.old order.old) values.old) h }
    ensures { many result.taken (code result.end) (held result.dir (stores sets.new entries.new order.new) values.new)
        ≡ measured_all_by (single_store aggregation) limit
        (held d (stores sets.old entries.old order.old) values.old) list.now h }
{
    if list.len() == 0 {
        return Batch {
            taken: 0,
            end: Ok(()),
            dir: d,
        };
    }
    let slots = values.len();
    let value = first::takes(list[0]);
    let row: [u64; 9] = [0; 9];
    let found = seats::seat_by_if(
        known,
        slots,
        value,
        Ok::<(), Refusal>(()),
        limit,
        d,
        sets,
        entries,
        order,
        h,
    );
    let seat = match found {
        Ok(seat) => seat,
        Err(e) => {
            return Batch {
                taken: 0,
                end: Err(e),
                dir: d,
            };
        }
    };
    let got = slot::record_all(known, aggregation, seat.slot, seat.updated, values, list);
    batches::finish_all(
        got.taken,
        got.end,
        d,
        sets,
        entries,
        order,
        &row,
        seat.target,
    )
}

// Records values one after another into the series of the attributes' set, up to the first that is refused: 12, 6, 5, 8, 9.
pub fn measure_all(
    aggregation: Aggregation,
    limit: u64,
    d: Directory,
    sets: &mut [[u64; 9]],
    entries: &mut [[u64; 3]],
    order: &mut [u32],
    values: &mut [f64],
    list: &[f64],
    attrs: &[[u32; 2]],
    present: bool,
    filter: &[u32],
) -> Batch
    ensures { many result.taken (code result.end) (held result.dir (stores sets.new entries.new order.new) values.new)
        ≡ measured_all (single_store aggregation) limit (filter_of present filter.now)
        (held d (stores sets.old entries.old order.old) values.old) list.now (given attrs.now) }
{
    all(
        false,
        aggregation,
        limit,
        d,
        sets,
        entries,
        order,
        values,
        list,
        attrs,
        present,
        filter,
    )
}

// Records values one after another into the series that the handle names, up to the first that is refused: 12, 6, 8, 7, 9.
pub fn measure_all_by(
    aggregation: Aggregation,
    limit: u64,
    d: Directory,
    sets: &mut [[u64; 9]],
    entries: &mut [[u64; 3]],
    order: &mut [u32],
    values: &mut [f64],
    list: &[f64],
    h: u64,
) -> Batch
    ensures { many result.taken (code result.end) (held result.dir (stores sets.new entries.new order.new) values.new)
        ≡ measured_all_by (single_store aggregation) limit
        (held d (stores sets.old entries.old order.old) values.old) list.now h }
{
    all_by(
        false,
        aggregation,
        limit,
        d,
        sets,
        entries,
        order,
        values,
        list,
        h,
    )
}

// Requires a map that is known to agree. `measure_all` there: 6, 5, 9.
pub fn measure_all_agreed(
    aggregation: Aggregation,
    limit: u64,
    d: Directory,
    sets: &mut [[u64; 9]],
    entries: &mut [[u64; 3]],
    order: &mut [u32],
    values: &mut [f64],
    list: &[f64],
    attrs: &[[u32; 2]],
    present: bool,
    filter: &[u32],
) -> Batch
    requires { AgreedFor (single_store aggregation) tt limit (filter_of present filter.now)
        (held d (stores sets.old entries.old order.old) values.old) (given attrs.now) }
    ensures { many result.taken (code result.end) (held result.dir (stores sets.new entries.new order.new) values.new)
        ≡ measured_all (single_store aggregation) limit (filter_of present filter.now)
        (held d (stores sets.old entries.old order.old) values.old) list.now (given attrs.now) }
{
    all(
        true,
        aggregation,
        limit,
        d,
        sets,
        entries,
        order,
        values,
        list,
        attrs,
        present,
        filter,
    )
}

// Requires a map that is known to agree. `measure_all_by` there: 6, 7.
pub fn measure_all_by_agreed(
    aggregation: Aggregation,
    limit: u64,
    d: Directory,
    sets: &mut [[u64; 9]],
    entries: &mut [[u64; 3]],
    order: &mut [u32],
    values: &mut [f64],
    list: &[f64],
    h: u64,
) -> Batch
    requires { AgreedBy (single_store aggregation) tt limit (held d (stores sets.old entries.old order.old) values.old) h }
    ensures { many result.taken (code result.end) (held result.dir (stores sets.new entries.new order.new) values.new)
        ≡ measured_all_by (single_store aggregation) limit
        (held d (stores sets.old entries.old order.old) values.old) list.now h }
{
    all_by(
        true,
        aggregation,
        limit,
        d,
        sets,
        entries,
        order,
        values,
        list,
        h,
    )
}

// Requires a map that is known to agree. `singles::map::measure` there, as a list of the one value: 6, 5, 9.
pub fn measure_agreed(
    aggregation: Aggregation,
    limit: u64,
    d: Directory,
    sets: &mut [[u64; 9]],
    entries: &mut [[u64; 3]],
    order: &mut [u32],
    values: &mut [f64],
    v: f64,
    attrs: &[[u32; 2]],
    present: bool,
    filter: &[u32],
) -> Reply
    requires { AgreedFor (single_store aggregation) tt limit (filter_of present filter.now)
        (held d (stores sets.old entries.old order.old) values.old) (given attrs.now) }
    ensures { gave result (stores sets.new entries.new order.new) values.new
        ≡ measured (single_store aggregation) limit (filter_of present filter.now)
        (held d (stores sets.old entries.old order.old) values.old) v (given attrs.now) }
{
    let one: [f64; 1] = [v];
    let got = all(
        true,
        aggregation,
        limit,
        d,
        sets,
        entries,
        order,
        values,
        &one,
        attrs,
        present,
        filter,
    );
    batches::single(got)
}

// Requires a map that is known to agree. `singles::map::measure_by` there, as a list of the one value: 6, 7.
pub fn measure_by_agreed(
    aggregation: Aggregation,
    limit: u64,
    d: Directory,
    sets: &mut [[u64; 9]],
    entries: &mut [[u64; 3]],
    order: &mut [u32],
    values: &mut [f64],
    v: f64,
    h: u64,
) -> Reply
    requires { AgreedBy (single_store aggregation) tt limit (held d (stores sets.old entries.old order.old) values.old) h }
    ensures { gave result (stores sets.new entries.new order.new) values.new
        ≡ measured_by (single_store aggregation) limit
        (held d (stores sets.old entries.old order.old) values.old) v h }
{
    let one: [f64; 1] = [v];
    let got = all_by(
        true,
        aggregation,
        limit,
        d,
        sets,
        entries,
        order,
        values,
        &one,
        h,
    );
    batches::single(got)
}
