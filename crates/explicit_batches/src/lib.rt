// Many values in one call into a map of the explicit kind, and recordings in a map that is known to agree (batches/specs/Agreed.antt), which ask
// nothing of its memory. The public calls ask once for a whole list what a single call asks for each value.
#![tactic(auto)]

mod series;
mod slot;

ghost use Rattle.std.specs.Prelude.{◌≡◌, true};
ghost use Rattle.refusals.specs.Refusals.{code};
ghost use Rattle.many.specs.Many.{many};
ghost use Rattle.sets.specs.Sorted.{given, filter_of};
ghost use Rattle.directory.specs.View.{stores};
ghost use Rattle.explicit_slots.specs.Cells.{cells};
ghost use Rattle.value_map.specs.Calls.{held, gave, measured, measured_by};
ghost use Rattle.value_map.specs.Explicit.{explicit_store};
ghost use Rattle.batches.specs.Agreed.{AgreedBy, AgreedFor};
ghost use Rattle.batches.specs.Batch.{measured_all, measured_all_by};

use batches::Batch;
use bindings::Reply;
use directory::Directory;
use refusals::Refusal;
use value_map::explicit_map::{cells_suffice, unset_of};
use value_map::first::takes;

// Why configuring refuses the bounds, if it does, asked once for a list: where it is known to accept them, not at all.
pub fn unset_if(known: bool, bounds: &[f64]) -> Result<(), Refusal>
    requires { known ≡ true → (explicit_store bounds.now).unset ≡ 0 }
    ensures { code result ≡ (explicit_store bounds.now).unset }
{
    if known {
        return Ok(());
    }
    unset_of(bounds)
}

// `measure_all`, where a caller may know already that the map agrees: what is known is not asked again.
fn all(
    known: bool,
    bounds: &[f64],
    limit: u64,
    d: Directory,
    sets: &mut [[u64; 9]],
    entries: &mut [[u64; 3]],
    order: &mut [u32],
    totals: &mut [u64],
    extremes: &mut [[f64; 3]],
    counts: &mut [u64],
    values: &[f64],
    attrs: &[[u32; 2]],
    present: bool,
    filter: &[u32],
) -> Batch
    requires { known ≡ true → AgreedFor (explicit_store bounds.now) (true, true) limit (filter_of present filter.now)
        (held d (stores sets.old entries.old order.old) (cells totals.old extremes.old counts.old)) (given attrs.now) }
    ensures { many result.taken (code result.end)
        (held result.dir (stores sets.new entries.new order.new) (cells totals.new extremes.new counts.new))
        ≡ measured_all (explicit_store bounds.now) limit (filter_of present filter.now)
        (held d (stores sets.old entries.old order.old) (cells totals.old extremes.old counts.old))
        values.now (given attrs.now) }
{
    if values.len() == 0 {
        return Batch {
            taken: 0,
            end: Ok(()),
            dir: d,
        };
    }
    batches::all_lent(attrs);
    let unset = unset_if(known, bounds);
    let suffice = cells_suffice(bounds, limit, totals.len(), extremes.len(), counts.len());
    let slots = batches::room::slots_if(suffice);
    let value = takes(values[0]);
    let mut row: [u64; 9] = [0; 9];
    let found = seats::seat_if(
        known, slots, value, unset, limit, d, sets, entries, order, attrs, present, filter,
        &mut row,
    );
    let seat = match found {
        Ok(seat) => seat,
        Err(e) => {
            return Batch {
                taken: 0,
                end: Err(e),
                dir: d,
            };
        }
    };
    let got = slot::record_all(
        known,
        bounds,
        seat.slot,
        seat.updated,
        totals,
        extremes,
        counts,
        values,
    );
    batches::finish_all(
        got.taken,
        got.end,
        d,
        sets,
        entries,
        order,
        &row,
        seat.target,
    )
}

// `measure_all_by`, likewise.
fn all_by(
    known: bool,
    bounds: &[f64],
    limit: u64,
    d: Directory,
    sets: &mut [[u64; 9]],
    entries: &mut [[u64; 3]],
    order: &mut [u32],
    totals: &mut [u64],
    extremes: &mut [[f64; 3]],
    counts: &mut [u64],
    values: &[f64],
    h: u64,
) -> Batch
    requires { known ≡ true → AgreedBy (explicit_store bounds.now) (true, true) limit
        (held d (stores sets.old entries.old order.old) (cells totals.old extremes.old counts.old)) h }
    ensures { many result.taken (code result.end)
        (held result.dir (stores sets.new entries.new order.new) (cells totals.new extremes.new counts.new))
        ≡ measured_all_by (explicit_store bounds.now) limit
        (held d (stores sets.old entries.old order.old) (cells totals.old extremes.old counts.old))
        values.now h }
{
    if values.len() == 0 {
        return Batch {
            taken: 0,
            end: Ok(()),
            dir: d,
        };
    }
    let unset = unset_if(known, bounds);
    let suffice = cells_suffice(bounds, limit, totals.len(), extremes.len(), counts.len());
    let slots = batches::room::slots_if(suffice);
    let value = takes(values[0]);
    let row: [u64; 9] = [0; 9];
    let found = seats::seat_by_if(
        known, slots, value, unset, limit, d, sets, entries, order, h,
    );
    let seat = match found {
        Ok(seat) => seat,
        Err(e) => {
            return Batch {
                taken: 0,
                end: Err(e),
                dir: d,
            };
        }
    };
    let got = slot::record_all(
        known,
        bounds,
        seat.slot,
        seat.updated,
        totals,
        extremes,
        counts,
        values,
    );
    batches::finish_all(
        got.taken,
        got.end,
        d,
        sets,
        entries,
        order,
        &row,
        seat.target,
    )
}

// Records values one after another into the series of the attributes' set, up to the first that is refused: 12, 6, 5, 8, 9.
pub fn measure_all(
    bounds: &[f64],
    limit: u64,
    d: Directory,
    sets: &mut [[u64; 9]],
    entries: &mut [[u64; 3]],
    order: &mut [u32],
    totals: &mut [u64],
    extremes: &mut [[f64; 3]],
    counts: &mut [u64],
    values: &[f64],
    attrs: &[[u32; 2]],
    present: bool,
    filter: &[u32],
) -> Batch
    ensures { many result.taken (code result.end)
        (held result.dir (stores sets.new entries.new order.new) (cells totals.new extremes.new counts.new))
        ≡ measured_all (explicit_store bounds.now) limit (filter_of present filter.now)
        (held d (stores sets.old entries.old order.old) (cells totals.old extremes.old counts.old))
        values.now (given attrs.now) }
{
    all(
        false, bounds, limit, d, sets, entries, order, totals, extremes, counts, values, attrs,
        present, filter,
    )
}

// Records values one after another into the series that the handle names, up to the first that is refused: 12, 6, 8, 7, 9.
pub fn measure_all_by(
    bounds: &[f64],
    limit: u64,
    d: Directory,
    sets: &mut [[u64; 9]],
    entries: &mut [[u64; 3]],
    order: &mut [u32],
    totals: &mut [u64],
    extremes: &mut [[f64; 3]],
    counts: &mut [u64],
    values: &[f64],
    h: u64,
) -> Batch
    ensures { many result.taken (code result.end)
        (held result.dir (stores sets.new entries.new order.new) (cells totals.new extremes.new counts.new))
        ≡ measured_all_by (explicit_store bounds.now) limit
        (held d (stores sets.old entries.old order.old) (cells totals.old extremes.old counts.old))
        values.now h }
{
    all_by(
        false, bounds, limit, d, sets, entries, order, totals, extremes, counts, values, h,
    )
}

// Requires a map that is known to agree. `measure_all` there: 6, 5, 9.
pub fn measure_all_agreed(
    bounds: &[f64],
    limit: u64,
    d: Directory,
    sets: &mut [[u64; 9]],
    entries: &mut [[u64; 3]],
    order: &mut [u32],
    totals: &mut [u64],
    extremes: &mut [[f64; 3]],
    counts: &mut [u64],
    values: &[f64],
    attrs: &[[u32; 2]],
    present: bool,
    filter: &[u32],
) -> Batch
    requires { AgreedFor (explicit_store bounds.now) (true, true) limit (filter_of present filter.now)
        (held d (stores sets.old entries.old order.old) (cells totals.old extremes.old counts.old)) (given attrs.now) }
    ensures { many result.taken (code result.end)
        (held result.dir (stores sets.new entries.new order.new) (cells totals.new extremes.new counts.new))
        ≡ measured_all (explicit_store bounds.now) limit (filter_of present filter.now)
        (held d (stores sets.old entries.old order.old) (cells totals.old extremes.old counts.old))
        values.now (given attrs.now) }
{
    all(
        true, bounds, limit, d, sets, entries, order, totals, extremes, counts, values, attrs,
        present, filter,
    )
}

// Requires a map that is known to agree. `measure_all_by` there: 6, 7, 9.
pub fn measure_all_by_agreed(
    bounds: &[f64],
    limit: u64,
    d: Directory,
    sets: &mut [[u64; 9]],
    entries: &mut [[u64; 3]],
    order: &mut [u32],
    totals: &mut [u64],
    extremes: &mut [[f64; 3]],
    counts: &mut [u64],
    values: &[f64],
    h: u64,
) -> Batch
    requires { AgreedBy (explicit_store bounds.now) (true, true) limit
        (held d (stores sets.old entries.old order.old) (cells totals.old extremes.old counts.old)) h }
    ensures { many result.taken (code result.end)
        (held result.dir (stores sets.new entries.new order.new) (cells totals.new extremes.new counts.new))
        ≡ measured_all_by (explicit_store bounds.now) limit
        (held d (stores sets.old entries.old order.old) (cells totals.old extremes.old counts.old))
        values.now h }
{
    all_by(
        true, bounds, limit, d, sets, entries, order, totals, extremes, counts, values, h,
    )
}

// Requires a map that is known to agree. `value_map::explicit_map::measure` there, as a list of the one value: 6, 5, 9.
pub fn measure_agreed(
    bounds: &[f64],
    limit: u64,
    d: Directory,
    sets: &mut [[u64; 9]],
    entries: &mut [[u64; 3]],
    order: &mut [u32],
    totals: &mut [u64],
    extremes: &mut [[f64; 3]],
    counts: &mut [u64],
    v: f64,
    attrs: &[[u32; 2]],
    present: bool,
    filter: &[u32],
) -> Reply
    requires { AgreedFor (explicit_store bounds.now) (true, true) limit (filter_of present filter.now)
        (held d (stores sets.old entries.old order.old) (cells totals.old extremes.old counts.old)) (given attrs.now) }
    ensures { gave result (stores sets.new entries.new order.new) (cells totals.new extremes.new counts.new)
        ≡ measured (explicit_store bounds.now) limit (filter_of present filter.now)
        (held d (stores sets.old entries.old order.old) (cells totals.old extremes.old counts.old))
        v (given attrs.now) }
{
    let one: [f64; 1] = [v];
    let got = all(
        true, bounds, limit, d, sets, entries, order, totals, extremes, counts, &one, attrs,
        present, filter,
    );
    batches::single(got)
}

// Requires a map that is known to agree. `value_map::explicit_map::measure_by` there, as a list of the one value: 6, 7, 9.
pub fn measure_by_agreed(
    bounds: &[f64],
    limit: u64,
    d: Directory,
    sets: &mut [[u64; 9]],
    entries: &mut [[u64; 3]],
    order: &mut [u32],
    totals: &mut [u64],
    extremes: &mut [[f64; 3]],
    counts: &mut [u64],
    v: f64,
    h: u64,
) -> Reply
    requires { AgreedBy (explicit_store bounds.now) (true, true) limit
        (held d (stores sets.old entries.old order.old) (cells totals.old extremes.old counts.old)) h }
    ensures { gave result (stores sets.new entries.new order.new) (cells totals.new extremes.new counts.new)
        ≡ measured_by (explicit_store bounds.now) limit
        (held d (stores sets.old entries.old order.old) (cells totals.old extremes.old counts.old))
        v h }
{
    let one: [f64; 1] = [v];
    let got = all_by(
        true, bounds, limit, d, sets, entries, order, totals, extremes, counts, &one, h,
    );
    batches::single(got)
}
