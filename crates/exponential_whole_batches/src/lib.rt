// The exponential kind over i64: many values in one call, and recordings in a map that is known to agree (batches/specs/Agreed.antt), which ask
// nothing of its memory. The public calls ask once for a whole list what a single call asks for each value.
#![tactic(auto)]

mod series;
mod slot;

ghost use Rattle.std.specs.Prelude.{◌≡◌, true};
ghost use Rattle.refusals.specs.Refusals.{code};
ghost use Rattle.many.specs.Many.{many};
ghost use Rattle.sets.specs.Sorted.{given, filter_of};
ghost use Rattle.directory.specs.View.{stores};
ghost use Rattle.exponential_whole_slots.specs.Cells.{cells};
ghost use Rattle.value_map.specs.Calls.{held, gave, measured, measured_by};
ghost use Rattle.whole_map.specs.Exponential.{exponential_wholes};
ghost use Rattle.batches.specs.Agreed.{AgreedBy, AgreedFor};
ghost use Rattle.batches.specs.Batch.{measured_all, measured_all_by};

use batches::Batch;
use bindings::Reply;
use directory::Directory;
use value_map::exponential_map::unset_of;
use whole_map::exponential_map::{slots_of, takes};

// `measure_all`, where a caller may know already that the map agrees: what is known is not asked again.
fn all(
    known: bool,
    size: u32,
    top: u32,
    sums: bool,
    limit: u64,
    d: Directory,
    sets: &mut [[u64; 9]],
    entries: &mut [[u64; 3]],
    order: &mut [u32],
    figures: &mut [[u64; 8]],
    extremes: &mut [[i64; 3]],
    pos: &mut [u64],
    neg: &mut [u64],
    values: &[i64],
    attrs: &[[u32; 2]],
    present: bool,
    filter: &[u32],
) -> Batch
    requires { known ≡ true → AgreedFor (exponential_wholes size top sums) true limit (filter_of present filter.now)
        (held d (stores sets.old entries.old order.old) (cells figures.old extremes.old pos.old neg.old)) (given attrs.now) }
    ensures { many result.taken (code result.end) (held result.dir (stores sets.new entries.new order.new) (cells figures.new extremes.new pos.new neg.new))
        ≡ measured_all (exponential_wholes size top sums) limit (filter_of present filter.now)
        (held d (stores sets.old entries.old order.old) (cells figures.old extremes.old pos.old neg.old))
        values.now (given attrs.now) }
{
    if values.len() == 0 {
        return Batch {
            taken: 0,
            end: Ok(()),
            dir: d,
        };
    }
    batches::all_lent(attrs);
    let unset = unset_of(size, top);
    let slots = slots_of(size, figures.len(), extremes.len(), pos.len(), neg.len());
    let value = takes(values[0]);
    let mut row: [u64; 9] = [0; 9];
    let found = seats::seat_if(
        known, slots, value, unset, limit, d, sets, entries, order, attrs, present, filter,
        &mut row,
    );
    let seat = match found {
        Ok(seat) => seat,
        Err(e) => {
            return Batch {
                taken: 0,
                end: Err(e),
                dir: d,
            };
        }
    };
    let got = slot::record_all(
        known,
        size,
        top,
        sums,
        seat.slot,
        seat.updated,
        figures,
        extremes,
        pos,
        neg,
        values,
    );
    batches::finish_all(
        got.taken,
        got.end,
        d,
        sets,
        entries,
        order,
        &row,
        seat.target,
    )
}

// `measure_all_by`, likewise.
fn all_by(
    known: bool,
    size: u32,
    top: u32,
    sums: bool,
    limit: u64,
    d: Directory,
    sets: &mut [[u64; 9]],
    entries: &mut [[u64; 3]],
    order: &mut [u32],
    figures: &mut [[u64; 8]],
    extremes: &mut [[i64; 3]],
    pos: &mut [u64],
    neg: &mut [u64],
    values: &[i64],
    h: u64,
) -> Batch
    requires { known ≡ true → AgreedBy (exponential_wholes size top sums) true limit (held d (stores sets.old entries.old order.old) (cells figures.old extremes.old pos.old neg.old)) h }
    ensures { many result.taken (code result.end) (held result.dir (stores sets.new entries.new order.new) (cells figures.new extremes.new pos.new neg.new))
        ≡ measured_all_by (exponential_wholes size top sums) limit
        (held d (stores sets.old entries.old order.old) (cells figures.old extremes.old pos.old neg.old))
        values.now h }
{
    if values.len() == 0 {
        return Batch {
            taken: 0,
            end: Ok(()),
            dir: d,
        };
    }
    let unset = unset_of(size, top);
    let slots = slots_of(size, figures.len(), extremes.len(), pos.len(), neg.len());
    let value = takes(values[0]);
    let row: [u64; 9] = [0; 9];
    let found = seats::seat_by_if(
        known, slots, value, unset, limit, d, sets, entries, order, h,
    );
    let seat = match found {
        Ok(seat) => seat,
        Err(e) => {
            return Batch {
                taken: 0,
                end: Err(e),
                dir: d,
            };
        }
    };
    let got = slot::record_all(
        known,
        size,
        top,
        sums,
        seat.slot,
        seat.updated,
        figures,
        extremes,
        pos,
        neg,
        values,
    );
    batches::finish_all(
        got.taken,
        got.end,
        d,
        sets,
        entries,
        order,
        &row,
        seat.target,
    )
}

// Records values one after another into the series of the attributes' set, up to the first that is refused: 12, 5, 8, 9, 16.
pub fn measure_all(
    size: u32,
    top: u32,
    sums: bool,
    limit: u64,
    d: Directory,
    sets: &mut [[u64; 9]],
    entries: &mut [[u64; 3]],
    order: &mut [u32],
    figures: &mut [[u64; 8]],
    extremes: &mut [[i64; 3]],
    pos: &mut [u64],
    neg: &mut [u64],
    values: &[i64],
    attrs: &[[u32; 2]],
    present: bool,
    filter: &[u32],
) -> Batch
    ensures { many result.taken (code result.end) (held result.dir (stores sets.new entries.new order.new) (cells figures.new extremes.new pos.new neg.new))
        ≡ measured_all (exponential_wholes size top sums) limit (filter_of present filter.now)
        (held d (stores sets.old entries.old order.old) (cells figures.old extremes.old pos.old neg.old))
        values.now (given attrs.now) }
{
    all(
        false, size, top, sums, limit, d, sets, entries, order, figures, extremes, pos, neg,
        values, attrs, present, filter,
    )
}

// Records values one after another into the series that the handle names, up to the first that is refused: 12, 8, 7, 9, 16.
pub fn measure_all_by(
    size: u32,
    top: u32,
    sums: bool,
    limit: u64,
    d: Directory,
    sets: &mut [[u64; 9]],
    entries: &mut [[u64; 3]],
    order: &mut [u32],
    figures: &mut [[u64; 8]],
    extremes: &mut [[i64; 3]],
    pos: &mut [u64],
    neg: &mut [u64],
    values: &[i64],
    h: u64,
) -> Batch
    ensures { many result.taken (code result.end) (held result.dir (stores sets.new entries.new order.new) (cells figures.new extremes.new pos.new neg.new))
        ≡ measured_all_by (exponential_wholes size top sums) limit
        (held d (stores sets.old entries.old order.old) (cells figures.old extremes.old pos.old neg.old))
        values.now h }
{
    all_by(
        false, size, top, sums, limit, d, sets, entries, order, figures, extremes, pos, neg,
        values, h,
    )
}

// Requires a map that is known to agree. `measure_all` there: 5, 9, 16.
pub fn measure_all_agreed(
    size: u32,
    top: u32,
    sums: bool,
    limit: u64,
    d: Directory,
    sets: &mut [[u64; 9]],
    entries: &mut [[u64; 3]],
    order: &mut [u32],
    figures: &mut [[u64; 8]],
    extremes: &mut [[i64; 3]],
    pos: &mut [u64],
    neg: &mut [u64],
    values: &[i64],
    attrs: &[[u32; 2]],
    present: bool,
    filter: &[u32],
) -> Batch
    requires { AgreedFor (exponential_wholes size top sums) true limit (filter_of present filter.now)
        (held d (stores sets.old entries.old order.old) (cells figures.old extremes.old pos.old neg.old)) (given attrs.now) }
    ensures { many result.taken (code result.end) (held result.dir (stores sets.new entries.new order.new) (cells figures.new extremes.new pos.new neg.new))
        ≡ measured_all (exponential_wholes size top sums) limit (filter_of present filter.now)
        (held d (stores sets.old entries.old order.old) (cells figures.old extremes.old pos.old neg.old))
        values.now (given attrs.now) }
{
    all(
        true, size, top, sums, limit, d, sets, entries, order, figures, extremes, pos, neg, values,
        attrs, present, filter,
    )
}

// Requires a map that is known to agree. `measure_all_by` there: 7, 9, 16.
pub fn measure_all_by_agreed(
    size: u32,
    top: u32,
    sums: bool,
    limit: u64,
    d: Directory,
    sets: &mut [[u64; 9]],
    entries: &mut [[u64; 3]],
    order: &mut [u32],
    figures: &mut [[u64; 8]],
    extremes: &mut [[i64; 3]],
    pos: &mut [u64],
    neg: &mut [u64],
    values: &[i64],
    h: u64,
) -> Batch
    requires { AgreedBy (exponential_wholes size top sums) true limit (held d (stores sets.old entries.old order.old) (cells figures.old extremes.old pos.old neg.old)) h }
    ensures { many result.taken (code result.end) (held result.dir (stores sets.new entries.new order.new) (cells figures.new extremes.new pos.new neg.new))
        ≡ measured_all_by (exponential_wholes size top sums) limit
        (held d (stores sets.old entries.old order.old) (cells figures.old extremes.old pos.old neg.old))
        values.now h }
{
    all_by(
        true, size, top, sums, limit, d, sets, entries, order, figures, extremes, pos, neg, values,
        h,
    )
}

// Requires a map that is known to agree. `whole_map::exponential_map::measure` there, as a list of the one value: 5, 9, 16.
pub fn measure_agreed(
    size: u32,
    top: u32,
    sums: bool,
    limit: u64,
    d: Directory,
    sets: &mut [[u64; 9]],
    entries: &mut [[u64; 3]],
    order: &mut [u32],
    figures: &mut [[u64; 8]],
    extremes: &mut [[i64; 3]],
    pos: &mut [u64],
    neg: &mut [u64],
    v: i64,
    attrs: &[[u32; 2]],
    present: bool,
    filter: &[u32],
) -> Reply
    requires { AgreedFor (exponential_wholes size top sums) true limit (filter_of present filter.now)
        (held d (stores sets.old entries.old order.old) (cells figures.old extremes.old pos.old neg.old)) (given attrs.now) }
    ensures { gave result (stores sets.new entries.new order.new) (cells figures.new extremes.new pos.new neg.new)
        ≡ measured (exponential_wholes size top sums) limit (filter_of present filter.now)
        (held d (stores sets.old entries.old order.old) (cells figures.old extremes.old pos.old neg.old))
        v (given attrs.now) }
{
    let one: [i64; 1] = [v];
    let got = all(
        true, size, top, sums, limit, d, sets, entries, order, figures, extremes, pos, neg, &one,
        attrs, present, filter,
    );
    batches::single(got)
}

// Requires a map that is known to agree. `whole_map::exponential_map::measure_by` there, as a list of the one value: 7, 9, 16.
pub fn measure_by_agreed(
    size: u32,
    top: u32,
    sums: bool,
    limit: u64,
    d: Directory,
    sets: &mut [[u64; 9]],
    entries: &mut [[u64; 3]],
    order: &mut [u32],
    figures: &mut [[u64; 8]],
    extremes: &mut [[i64; 3]],
    pos: &mut [u64],
    neg: &mut [u64],
    v: i64,
    h: u64,
) -> Reply
    requires { AgreedBy (exponential_wholes size top sums) true limit (held d (stores sets.old entries.old order.old) (cells figures.old extremes.old pos.old neg.old)) h }
    ensures { gave result (stores sets.new entries.new order.new) (cells figures.new extremes.new pos.new neg.new)
        ≡ measured_by (exponential_wholes size top sums) limit
        (held d (stores sets.old entries.old order.old) (cells figures.old extremes.old pos.old neg.old))
        v h }
{
    let one: [i64; 1] = [v];
    let got = all_by(
        true, size, top, sums, limit, d, sets, entries, order, figures, extremes, pos, neg, &one, h,
    );
    batches::single(got)
}
