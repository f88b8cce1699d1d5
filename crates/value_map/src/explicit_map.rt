// The map of the explicit kind: configuring, and recording by set and by handle. Its stores: the directory's (sets, entries, order), and
// each slot's count, its minimum, maximum and sum, and its bucket counts.
ghost use Rattle.std.specs.Prelude.{◌≡◌, [], ◌∷◌, ℕ, ◌+◌, leb, IfOk};
ghost use Rattle.refusals.specs.Refusals.{number, code};
ghost use Rattle.laws.specs.Pick.{pick};
ghost use Rattle.points.specs.Explicit.{bounds_pass, bucket_count};
ghost use Rattle.rows.specs.Recording.{after};
ghost use Rattle.sets.specs.Sorted.{given, filter_of};
ghost use Rattle.directory.specs.View.{stores};
ghost use Rattle.seats.specs.Seats.{seating};
ghost use Rattle.explicit_slots.specs.Cells.{cells};
ghost use Rattle.value_map.specs.Store.{lengths_suffice};
ghost use Rattle.value_map.specs.Calls.{held, gave, started, measured, measured_by};
ghost use Rattle.value_map.specs.Inner.{Takes, taken, turned};
ghost use Rattle.value_map.specs.Explicit.{explicit_store};

use bindings::Reply;
use directory::{Directory, Target};
use refusals::Refusal;
use seats::Seated;

// Whether configuring accepts the bounds; or 3.
pub fn unset_of(bounds: &[f64]) -> Result<(), Refusal>
    ensures { code result ≡ pick (bounds_pass bounds.now) 0 3 }
{
    if !explicit::bounds_pass(bounds) {
        return Err(Refusal::Bounds);
    }
    Ok(())
}

// How many slots the series' stores of these lengths have room for.
fn slots_of(bounds: &[f64], totals: usize, extremes: usize, counts: usize) -> usize
    ensures { (limit : ℕ) → leb (limit + 2) result ≡ lengths_suffice (bucket_count bounds.now) limit (counts ∷ []) (totals ∷ extremes ∷ []) }
{
    let least = totals.min(extremes);
    let n = explicit::bucket_count(bounds);
    if n == 0 {
        return least;
    }
    least.min(counts / n)
}

// Whether the series' stores of these lengths suffice.
pub fn cells_suffice(
    bounds: &[f64],
    limit: u64,
    totals: usize,
    extremes: usize,
    counts: usize,
) -> bool
    ensures { result ≡ lengths_suffice (bucket_count bounds.now) limit (counts ∷ []) (totals ∷ extremes ∷ []) }
{
    let slots = slots_of(bounds, totals, extremes, counts);
    directory::suffices(limit, slots)
}

// Configures a map: a fresh start, or 3, 4, 12.
pub fn start(
    bounds: &[f64],
    limit: u64,
    present: bool,
    filter: &[u32],
    sets: &[[u64; 9]],
    entries: &mut [[u64; 3]],
    order: &[u32],
    totals: &[u64],
    extremes: &[[f64; 3]],
    counts: &[u64],
) -> Reply
    ensures { gave result (stores sets.now entries.new order.now) (cells totals.now extremes.now counts.now)
        ≡ started (explicit_store bounds.now) limit (filter_of present filter.now)
        (stores sets.now entries.old order.now) (cells totals.now extremes.now counts.now) }
{
    let room = cells_suffice(bounds, limit, totals.len(), extremes.len(), counts.len());
    let unset = unset_of(bounds);
    crate::first::begin(unset, room, limit, present, filter, sets, entries, order)
}

// The refusal of a seat: the bounds are asked last, for the series does it. 8 where configuring could not have accepted them, unless a
// refusal stands that comes before: 12, 6, 5.
fn turned_by(bounds: &[f64], no: Refusal) -> Refusal
    ensures { number result ≡ turned (bounds_pass bounds.now) (number no) }
{
    match no {
        Refusal::NoHandle | Refusal::Disagrees | Refusal::Full => {
            if explicit::bounds_pass(bounds) {
                no
            } else {
                Refusal::Disagrees
            }
        }
        _ => no,
    }
}

// Records a value at the slot of a seat, and what the directory is to write then; or the seat's refusal, or the series'.
fn take(
    bounds: &[f64],
    seat: Result<Seated, Refusal>,
    totals: &mut [u64],
    extremes: &mut [[f64; 3]],
    counts: &mut [u64],
    v: f64,
) -> Result<Target, Refusal>
    requires { Takes (explicit_store bounds.now) (cells totals.old extremes.old counts.old) v (seating seat).no (seating seat).slot }
    ensures value { after (code result) (cells totals.new extremes.new counts.new)
        ≡ taken (explicit_store bounds.now) (cells totals.old extremes.old counts.old) v (seating seat).no
        (turned (bounds_pass bounds.now) (seating seat).no) (seating seat).slot (seating seat).updated }
    ensures target { IfOk result (λ t. t ≡ (seating seat).target) }
{
    match seat {
        Err(no) => Err(turned_by(bounds, no)),
        Ok(s) => {
            explicit_slots::record(bounds, s.slot, s.updated, totals, extremes, counts, v)?;
            Ok(s.target)
        }
    }
}

// Records a value into the series of the attributes' set: its own entry, held or new, or that of overflow; or 12, 6, 5, 8, 9.
pub fn measure(
    bounds: &[f64],
    limit: u64,
    d: Directory,
    sets: &mut [[u64; 9]],
    entries: &mut [[u64; 3]],
    order: &mut [u32],
    totals: &mut [u64],
    extremes: &mut [[f64; 3]],
    counts: &mut [u64],
    v: f64,
    attrs: &[[u32; 2]],
    present: bool,
    filter: &[u32],
) -> Reply
    ensures { gave result (stores sets.new entries.new order.new) (cells totals.new extremes.new counts.new)
        ≡ measured (explicit_store bounds.now) limit (filter_of present filter.now)
        (held d (stores sets.old entries.old order.old) (cells totals.old extremes.old counts.old))
        v (given attrs.now) }
{
    let slots = slots_of(bounds, totals.len(), extremes.len(), counts.len());
    let value = crate::first::takes(v);
    let mut row: [u64; 9] = [0; 9];
    let seat = seats::seat(
        slots,
        value,
        Ok::<(), Refusal>(()),
        limit,
        d,
        sets,
        entries,
        order,
        attrs,
        present,
        filter,
        &mut row,
    );
    let done = take(bounds, seat, totals, extremes, counts, v);
    crate::first::finish(done, d, sets, entries, order, &row)
}

// Records a value into the series that the handle names; or 12, 6, 8, 7, 9.
pub fn measure_by(
    bounds: &[f64],
    limit: u64,
    d: Directory,
    sets: &mut [[u64; 9]],
    entries: &mut [[u64; 3]],
    order: &mut [u32],
    totals: &mut [u64],
    extremes: &mut [[f64; 3]],
    counts: &mut [u64],
    v: f64,
    h: u64,
) -> Reply
    ensures { gave result (stores sets.new entries.new order.new) (cells totals.new extremes.new counts.new)
        ≡ measured_by (explicit_store bounds.now) limit
        (held d (stores sets.old entries.old order.old) (cells totals.old extremes.old counts.old))
        v h }
{
    let slots = slots_of(bounds, totals.len(), extremes.len(), counts.len());
    let value = crate::first::takes(v);
    let row: [u64; 9] = [0; 9];
    let seat = seats::seat_by(
        slots,
        value,
        Ok::<(), Refusal>(()),
        limit,
        d,
        sets,
        entries,
        order,
        h,
    );
    let done = take(bounds, seat, totals, extremes, counts, v);
    crate::first::finish(done, d, sets, entries, order, &row)
}
