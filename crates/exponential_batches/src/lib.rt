// Many values in one call, and recordings in a map that is known to agree: the exponential kind over f64. A call `.._agreed` asks nothing of
// the memory that it is lent: it requires a map that agrees.
#![tactic(auto)]

pub mod series;
pub mod slot;

ghost use Rattle.std.specs.Prelude.{◌≡◌, true, [], ◌∷◌, ◌+◌, leb};
ghost use Rattle.sets.specs.Sorted.{given, filter_of};
ghost use Rattle.directory.specs.View.{stores};
ghost use Rattle.exponential_slots.specs.Cells.{cells};
ghost use Rattle.value_map.specs.Store.{lengths_suffice};
ghost use Rattle.value_map.specs.Calls.{held, gave, measured, measured_by};
ghost use Rattle.value_map.specs.Exponential.{exponential_store};
ghost use Rattle.refusals.specs.Refusals.{code};
ghost use Rattle.many.specs.Many.{many};
ghost use Rattle.batches.specs.Agreed.{AgreedBy, AgreedFor};
ghost use Rattle.batches.specs.Batch.{measured_all, measured_all_by};

use batches::Batch;
use bindings::Reply;
use directory::Directory;

// How many slots the series' stores of these lengths have room for, as a seating asks for it.
fn slots_of(size: u32, limit: u64, figures: usize, extremes: usize, pos: usize, neg: usize) -> usize
    ensures { leb (limit + 2) result ≡ lengths_suffice size limit (pos ∷ neg ∷ []) (figures ∷ extremes ∷ []) }
{
    let suffice = value_map::exponential_map::cells_suffice(
        size, limit, figures, extremes, pos, neg,
    );
    batches::room::slots_if(suffice)
}

// Values by one handle, in a map that is known to agree or not: one seat, one slot, one end.
fn all_by(
    known: bool,
    size: u32,
    top: u32,
    limit: u64,
    d: Directory,
    sets: &mut [[u64; 9]],
    entries: &mut [[u64; 3]],
    order: &mut [u32],
    figures: &mut [[u64; 8]],
    extremes: &mut [[f64; 3]],
    pos: &mut [u64],
    neg: &mut [u64],
    values: &[f64],
    h: u64,
) -> Batch
    requires { known ≡ true → AgreedBy (exponential_store size top) (true, true) limit
        (held d (stores sets.old entries.old order.old) (cells figures.old extremes.old pos.old neg.old)) h }
    ensures { many result.taken (code result.end)
        (held result.dir (stores sets.new entries.new order.new) (cells figures.new extremes.new pos.new neg.new))
        ≡ measured_all_by (exponential_store size top) limit
        (held d (stores sets.old entries.old order.old) (cells figures.old extremes.old pos.old neg.old))
        values.now h }
{
    if values.len() == 0 {
        return Batch {
            taken: 0,
            end: Ok(()),
            dir: d,
        };
    }
    let unset = value_map::exponential_map::unset_of(size, top);
    let slots = slots_of(
        size,
        limit,
        figures.len(),
        extremes.len(),
        pos.len(),
        neg.len(),
    );
    let value = value_map::first::takes(values[0]);
    let row: [u64; 9] = [0; 9];
    let found = seats::seat_by_if(
        known, slots, value, unset, limit, d, sets, entries, order, h,
    );
    let seat = match found {
        Ok(seat) => seat,
        Err(e) => {
            return Batch {
                taken: 0,
                end: Err(e),
                dir: d,
            };
        }
    };
    let got = slot::record_all(
        known,
        size,
        top,
        seat.slot,
        seat.updated,
        figures,
        extremes,
        pos,
        neg,
        values,
    );
    batches::finish_all(
        got.taken,
        got.end,
        d,
        sets,
        entries,
        order,
        &row,
        seat.target,
    )
}

// Values into one set's series, likewise.
fn all(
    known: bool,
    size: u32,
    top: u32,
    limit: u64,
    d: Directory,
    sets: &mut [[u64; 9]],
    entries: &mut [[u64; 3]],
    order: &mut [u32],
    figures: &mut [[u64; 8]],
    extremes: &mut [[f64; 3]],
    pos: &mut [u64],
    neg: &mut [u64],
    values: &[f64],
    attrs: &[[u32; 2]],
    present: bool,
    filter: &[u32],
) -> Batch
    requires { known ≡ true → AgreedFor (exponential_store size top) (true, true) limit (filter_of present filter.now)
        (held d (stores sets.old entries.old order.old) (cells figures.old extremes.old pos.old neg.old)) (given attrs.now) }
    ensures { many result.taken (code result.end)
        (held result.dir (stores sets.new entries.new order.new) (cells figures.new extremes.new pos.new neg.new))
        ≡ measured_all (exponential_store size top) limit (filter_of present filter.now)
        (held d (stores sets.old entries.old order.old) (cells figures.old extremes.old pos.old neg.old))
        values.now (given attrs.now) }
{
    if values.len() == 0 {
        return Batch {
            taken: 0,
            end: Ok(()),
            dir: d,
        };
    }
    batches::all_lent(attrs);
    let unset = value_map::exponential_map::unset_of(size, top);
    let slots = slots_of(
        size,
        limit,
        figures.len(),
        extremes.len(),
        pos.len(),
        neg.len(),
    );
    let value = value_map::first::takes(values[0]);
    let mut row: [u64; 9] = [0; 9];
    let found = seats::seat_if(
        known, slots, value, unset, limit, d, sets, entries, order, attrs, present, filter,
        &mut row,
    );
    let seat = match found {
        Ok(seat) => seat,
        Err(e) => {
            return Batch {
                taken: 0,
                end: Err(e),
                dir: d,
            };
        }
    };
    let got = slot::record_all(
        known,
        size,
        top,
        seat.slot,
        seat.updated,
        figures,
        extremes,
        pos,
        neg,
        values,
    );
    batches::finish_all(
        got.taken,
        got.end,
        d,
        sets,
        entries,
        order,
        &row,
        seat.target,
    )
}

// Records values one after another into the series of the attributes' set, up to the first that is refused: 12, 6, 5, 8, 9.
pub fn measure_all(
    size: u32,
    top: u32,
    limit: u64,
    d: Directory,
    sets: &mut [[u64; 9]],
    entries: &mut [[u64; 3]],
    order: &mut [u32],
    figures: &mut [[u64; 8]],
    extremes: &mut [[f64; 3]],
    pos: &mut [u64],
    neg: &mut [u64],
    values: &[f64],
    attrs: &[[u32; 2]],
    present: bool,
    filter: &[u32],
) -> Batch
    ensures { many result.taken (code result.end)
        (held result.dir (stores sets.new entries.new order.new) (cells figures.new extremes.new pos.new neg.new))
        ≡ measured_all (exponential_store size top) limit (filter_of present filter.now)
        (held d (stores sets.old entries.old order.old) (cells figures.old extremes.old pos.old neg.old))
        values.now (given attrs.now) }
{
    all(
        false, size, top, limit, d, sets, entries, order, figures, extremes, pos, neg, values,
        attrs, present, filter,
    )
}

// Records values one after another into the series that the handle names, up to the first that is refused: 12, 6, 8, 7, 9.
pub fn measure_all_by(
    size: u32,
    top: u32,
    limit: u64,
    d: Directory,
    sets: &mut [[u64; 9]],
    entries: &mut [[u64; 3]],
    order: &mut [u32],
    figures: &mut [[u64; 8]],
    extremes: &mut [[f64; 3]],
    pos: &mut [u64],
    neg: &mut [u64],
    values: &[f64],
    h: u64,
) -> Batch
    ensures { many result.taken (code result.end)
        (held result.dir (stores sets.new entries.new order.new) (cells figures.new extremes.new pos.new neg.new))
        ≡ measured_all_by (exponential_store size top) limit
        (held d (stores sets.old entries.old order.old) (cells figures.old extremes.old pos.old neg.old))
        values.now h }
{
    all_by(
        false, size, top, limit, d, sets, entries, order, figures, extremes, pos, neg, values, h,
    )
}

// Requires a map that is known to agree. `measure_all`, up to the first value that is refused: 6, 5, 9.
pub fn measure_all_agreed(
    size: u32,
    top: u32,
    limit: u64,
    d: Directory,
    sets: &mut [[u64; 9]],
    entries: &mut [[u64; 3]],
    order: &mut [u32],
    figures: &mut [[u64; 8]],
    extremes: &mut [[f64; 3]],
    pos: &mut [u64],
    neg: &mut [u64],
    values: &[f64],
    attrs: &[[u32; 2]],
    present: bool,
    filter: &[u32],
) -> Batch
    requires { AgreedFor (exponential_store size top) (true, true) limit (filter_of present filter.now)
        (held d (stores sets.old entries.old order.old) (cells figures.old extremes.old pos.old neg.old)) (given attrs.now) }
    ensures { many result.taken (code result.end)
        (held result.dir (stores sets.new entries.new order.new) (cells figures.new extremes.new pos.new neg.new))
        ≡ measured_all (exponential_store size top) limit (filter_of present filter.now)
        (held d (stores sets.old entries.old order.old) (cells figures.old extremes.old pos.old neg.old))
        values.now (given attrs.now) }
{
    all(
        true, size, top, limit, d, sets, entries, order, figures, extremes, pos, neg, values,
        attrs, present, filter,
    )
}

// Requires a map that is known to agree. `measure_all_by`, up to the first value that is refused: 6, 7, 9.
pub fn measure_all_by_agreed(
    size: u32,
    top: u32,
    limit: u64,
    d: Directory,
    sets: &mut [[u64; 9]],
    entries: &mut [[u64; 3]],
    order: &mut [u32],
    figures: &mut [[u64; 8]],
    extremes: &mut [[f64; 3]],
    pos: &mut [u64],
    neg: &mut [u64],
    values: &[f64],
    h: u64,
) -> Batch
    requires { AgreedBy (exponential_store size top) (true, true) limit
        (held d (stores sets.old entries.old order.old) (cells figures.old extremes.old pos.old neg.old)) h }
    ensures { many result.taken (code result.end)
        (held result.dir (stores sets.new entries.new order.new) (cells figures.new extremes.new pos.new neg.new))
        ≡ measured_all_by (exponential_store size top) limit
        (held d (stores sets.old entries.old order.old) (cells figures.old extremes.old pos.old neg.old))
        values.now h }
{
    all_by(
        true, size, top, limit, d, sets, entries, order, figures, extremes, pos, neg, values, h,
    )
}

// Requires a map that is known to agree. Records a value into the series of the attributes' set, as `measure` does; or 6, 5, 9.
pub fn measure_agreed(
    size: u32,
    top: u32,
    limit: u64,
    d: Directory,
    sets: &mut [[u64; 9]],
    entries: &mut [[u64; 3]],
    order: &mut [u32],
    figures: &mut [[u64; 8]],
    extremes: &mut [[f64; 3]],
    pos: &mut [u64],
    neg: &mut [u64],
    v: f64,
    attrs: &[[u32; 2]],
    present: bool,
    filter: &[u32],
) -> Reply
    requires { AgreedFor (exponential_store size top) (true, true) limit (filter_of present filter.now)
        (held d (stores sets.old entries.old order.old) (cells figures.old extremes.old pos.old neg.old)) (given attrs.now) }
    ensures { gave result (stores sets.new entries.new order.new) (cells figures.new extremes.new pos.new neg.new)
        ≡ measured (exponential_store size top) limit (filter_of present filter.now)
        (held d (stores sets.old entries.old order.old) (cells figures.old extremes.old pos.old neg.old))
        v (given attrs.now) }
{
    let one: [f64; 1] = [v];
    let got = all(
        true, size, top, limit, d, sets, entries, order, figures, extremes, pos, neg, &one, attrs,
        present, filter,
    );
    batches::single(got)
}

// Requires a map that is known to agree. Records a value into the series that the handle names, as `measure_by` does; or 6, 7, 9.
pub fn measure_by_agreed(
    size: u32,
    top: u32,
    limit: u64,
    d: Directory,
    sets: &mut [[u64; 9]],
    entries: &mut [[u64; 3]],
    order: &mut [u32],
    figures: &mut [[u64; 8]],
    extremes: &mut [[f64; 3]],
    pos: &mut [u64],
    neg: &mut [u64],
    v: f64,
    h: u64,
) -> Reply
    requires { AgreedBy (exponential_store size top) (true, true) limit
        (held d (stores sets.old entries.old order.old) (cells figures.old extremes.old pos.old neg.old)) h }
    ensures { gave result (stores sets.new entries.new order.new) (cells figures.new extremes.new pos.new neg.new)
        ≡ measured_by (exponential_store size top) limit
        (held d (stores sets.old entries.old order.old) (cells figures.old extremes.old pos.old neg.old))
        v h }
{
    let one: [f64; 1] = [v];
    let got = all_by(
        true, size, top, limit, d, sets, entries, order, figures, extremes, pos, neg, &one, h,
    );
    batches::single(got)
}
