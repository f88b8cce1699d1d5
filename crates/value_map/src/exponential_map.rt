// The map of the exponential kind: configuring, and recording by set and by handle. Its stores: the directory's (sets, entries, order),
// and each slot's figures, extremes and rows of counts.
ghost use Rattle.std.specs.Prelude.{◌≡◌, [], ◌∷◌, ℕ, ◌+◌, leb, IfOk};
ghost use Rattle.refusals.specs.Refusals.{code};
ghost use Rattle.rows.specs.Recording.{after};
ghost use Rattle.sets.specs.Sorted.{given, filter_of};
ghost use Rattle.directory.specs.View.{stores};
ghost use Rattle.seats.specs.Seats.{seating};
ghost use Rattle.exponential_slots.specs.Cells.{cells};
ghost use Rattle.value_map.specs.Store.{lengths_suffice};
ghost use Rattle.value_map.specs.Calls.{held, gave, started, measured, measured_by};
ghost use Rattle.value_map.specs.Inner.{Takes, taken};
ghost use Rattle.value_map.specs.Exponential.{unset, exponential_store};

use bindings::Reply;
use directory::{Directory, Target};
use refusals::Refusal;
use seats::Seated;

// Whether configuring accepts max_size and the greatest level; or 1, 2.
pub fn unset_of(size: u32, top: u32) -> Result<(), Refusal>
    ensures { code result ≡ unset size top }
{
    let n = size as usize;
    if n < exponential::LEAST_SIZE {
        return Err(Refusal::MaxSize);
    }
    if exponential::MOST_SIZE < n {
        return Err(Refusal::MaxSize);
    }
    if index::FINEST < top {
        return Err(Refusal::MaxScale);
    }
    Ok(())
}

// How many slots the series' stores of these lengths have room for: by division, so that no product leaves its range.
fn slots_of(size: u32, figures: usize, extremes: usize, pos: usize, neg: usize) -> usize
    ensures { (limit : ℕ) → leb (limit + 2) result ≡ lengths_suffice size limit (pos ∷ neg ∷ []) (figures ∷ extremes ∷ []) }
{
    let least = figures.min(extremes);
    let n = size as usize;
    if n == 0 {
        return least;
    }
    let rows = (pos / n).min(neg / n);
    least.min(rows)
}

// Whether the series' stores of these lengths suffice.
pub fn cells_suffice(
    size: u32,
    limit: u64,
    figures: usize,
    extremes: usize,
    pos: usize,
    neg: usize,
) -> bool
    ensures { result ≡ lengths_suffice size limit (pos ∷ neg ∷ []) (figures ∷ extremes ∷ []) }
{
    let slots = slots_of(size, figures, extremes, pos, neg);
    directory::suffices(limit, slots)
}

// Configures a map: a fresh start, or 1, 2, 4, 12.
pub fn start(
    size: u32,
    top: u32,
    limit: u64,
    present: bool,
    filter: &[u32],
    sets: &[[u64; 9]],
    entries: &mut [[u64; 3]],
    order: &[u32],
    figures: &[[u64; 8]],
    extremes: &[[f64; 3]],
    pos: &[u64],
    neg: &[u64],
) -> Reply
    ensures { gave result (stores sets.now entries.new order.now) (cells figures.now extremes.now pos.now neg.now)
        ≡ started (exponential_store size top) limit (filter_of present filter.now)
        (stores sets.now entries.old order.now) (cells figures.now extremes.now pos.now neg.now) }
{
    let room = cells_suffice(
        size,
        limit,
        figures.len(),
        extremes.len(),
        pos.len(),
        neg.len(),
    );
    let unset = unset_of(size, top);
    crate::first::begin(unset, room, limit, present, filter, sets, entries, order)
}

// Records a value at the slot of a seat, and what the directory is to write then; or the seat's refusal, or the series'.
fn take(
    size: u32,
    top: u32,
    seat: Result<Seated, Refusal>,
    figures: &mut [[u64; 8]],
    extremes: &mut [[f64; 3]],
    pos: &mut [u64],
    neg: &mut [u64],
    v: f64,
) -> Result<Target, Refusal>
    requires { Takes (exponential_store size top) (cells figures.old extremes.old pos.old neg.old) v (seating seat).no (seating seat).slot }
    ensures value { after (code result) (cells figures.new extremes.new pos.new neg.new)
        ≡ taken (exponential_store size top) (cells figures.old extremes.old pos.old neg.old) v (seating seat).no (seating seat).no (seating seat).slot (seating seat).updated }
    ensures target { IfOk result (λ t. t ≡ (seating seat).target) }
{
    let s = seat?;
    exponential_slots::record(size, top, s.slot, s.updated, figures, extremes, pos, neg, v)?;
    Ok(s.target)
}

// Records a value into the series of the attributes' set: its own entry, held or new, or that of overflow; or 12, 6, 5, 8, 9.
pub fn measure(
    size: u32,
    top: u32,
    limit: u64,
    d: Directory,
    sets: &mut [[u64; 9]],
    entries: &mut [[u64; 3]],
    order: &mut [u32],
    figures: &mut [[u64; 8]],
    extremes: &mut [[f64; 3]],
    pos: &mut [u64],
    neg: &mut [u64],
    v: f64,
    attrs: &[[u32; 2]],
    present: bool,
    filter: &[u32],
) -> Reply
    ensures { gave result (stores sets.new entries.new order.new) (cells figures.new extremes.new pos.new neg.new)
        ≡ measured (exponential_store size top) limit (filter_of present filter.now)
        (held d (stores sets.old entries.old order.old) (cells figures.old extremes.old pos.old neg.old))
        v (given attrs.now) }
{
    let unset = unset_of(size, top);
    let slots = slots_of(size, figures.len(), extremes.len(), pos.len(), neg.len());
    let value = crate::first::takes(v);
    let mut row: [u64; 9] = [0; 9];
    let seat = seats::seat(
        slots, value, unset, limit, d, sets, entries, order, attrs, present, filter, &mut row,
    );
    let done = take(size, top, seat, figures, extremes, pos, neg, v);
    crate::first::finish(done, d, sets, entries, order, &row)
}

// Records a value into the series that the handle names; or 12, 6, 8, 7, 9.
pub fn measure_by(
    size: u32,
    top: u32,
    limit: u64,
    d: Directory,
    sets: &mut [[u64; 9]],
    entries: &mut [[u64; 3]],
    order: &mut [u32],
    figures: &mut [[u64; 8]],
    extremes: &mut [[f64; 3]],
    pos: &mut [u64],
    neg: &mut [u64],
    v: f64,
    h: u64,
) -> Reply
    ensures { gave result (stores sets.new entries.new order.new) (cells figures.new extremes.new pos.new neg.new)
        ≡ measured_by (exponential_store size top) limit
        (held d (stores sets.old entries.old order.old) (cells figures.old extremes.old pos.old neg.old))
        v h }
{
    let unset = unset_of(size, top);
    let slots = slots_of(size, figures.len(), extremes.len(), pos.len(), neg.len());
    let value = crate::first::takes(v);
    let row: [u64; 9] = [0; 9];
    let seat = seats::seat_by(slots, value, unset, limit, d, sets, entries, order, h);
    let done = take(size, top, seat, figures, extremes, pos, neg, v);
    crate::first::finish(done, d, sets, entries, order, &row)
}
