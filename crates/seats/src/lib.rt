// The directory's part of a recording, the same for every kind of series: the slot that it goes to, decided by reading alone, and what the
// directory writes once the series took the value. `measure` of `ValueMap`, and a bound handle's, of internal/mod.rs.
#![tactic(auto)]

mod first;
pub mod room;

ghost use Rattle.std.specs.Prelude.{◌≡◌, true, List, ℕ, Ok, ◌+◌, ◌<◌, ◌≤◌, leb, length};
ghost use Rattle.tally.specs.Sets.{canonical};
ghost use Rattle.sets.specs.Rows.{size, row_of};
ghost use Rattle.sets.specs.Sorted.{given, filter_of};
ghost use Rattle.seats.specs.Seats.{seating, held_seat, new_seat, seated, seat_by, seated_by, barred_by};
ghost use Rattle.seats.specs.Seats.{unless_barred, marked, committed};
ghost use Rattle.seats.specs.Inner.{barred_at, row_unless_barred, Sure, Fits};
ghost use Rattle.directory.specs.View.{stores, agreesb};
ghost use Rattle.directory.specs.Calls.{kept, most_sets, accepts};
ghost use Rattle.numbered.specs.Numbered.{code_by};

use numbered::Reason;
use refusals::Refusal;

// Where a recording goes. slot: the slot that it goes to; updated: whether that slot holds a series; target: what the directory is to
// write.
#[derive(Clone, Copy)]
pub struct Seated {
    pub slot: usize,
    pub updated: bool,
    pub target: directory::Target,
}

// The seat at a slot that is held.
fn held_seat(entries: &[[u64; 3]], x: usize) -> Seated
    requires { x < length entries.now }
    ensures { seating (Ok result) ≡ held_seat entries.now x }
{
    let u = directory::is_updated(entries, x);
    Seated {
        slot: x,
        updated: u,
        target: directory::Target::Old(x),
    }
}

// The seat at the next slot, unless the birth numbers are spent.
fn new_seat(d: directory::Directory, target: directory::Target) -> Result<Seated, Refusal>
    requires { d.used + 1 < 18446744073709551616 }
    ensures { seating result ≡ new_seat d target }
{
    if d.last >= u64::MAX {
        return Err(Refusal::Full);
    }
    Ok(Seated {
        slot: d.used + 1,
        updated: false,
        target: target,
    })
}

// Where a recording with a set goes, in stores that suffice and agree.
fn seat_right(
    limit: u64,
    d: directory::Directory,
    sets: &[[u64; 9]],
    entries: &[[u64; 3]],
    order: &[u32],
    row: &[u64; 9],
) -> Result<Seated, Refusal>
    requires { (limit + 2 ≤ length sets.now) × (limit + 2 ≤ length entries.now) × (limit + 2 ≤ length order.now) × (size row.now ≤ 8)
        × (agreesb limit d (stores sets.now entries.now order.now) ≡ true) }
    ensures { seating result ≡ seated limit d (stores sets.now entries.now order.now) row.now }
{
    let t = directory::find::locate_agreed(limit, d, sets, entries, order, row);
    match t {
        directory::Target::Disagrees => Err(Refusal::Disagrees),
        directory::Target::Old(x) => Ok(held_seat(entries, x)),
        directory::Target::New(r) => new_seat(d, directory::Target::New(r)),
        directory::Target::Over(r) => new_seat(d, directory::Target::Over(r)),
    }
}

// Where a recording with a set goes, in stores that suffice.
fn seat_in(
    limit: u64,
    d: directory::Directory,
    sets: &[[u64; 9]],
    entries: &[[u64; 3]],
    order: &[u32],
    row: &[u64; 9],
) -> Result<Seated, Refusal>
    requires { (limit + 2 ≤ length sets.now) × (limit + 2 ≤ length entries.now) × (limit + 2 ≤ length order.now) × (size row.now ≤ 8) }
    ensures { seating result ≡ seated limit d (stores sets.now entries.now order.now) row.now }
{
    if !directory::check::agrees(limit, d, sets, entries, order) {
        return Err(Refusal::Disagrees);
    }
    seat_right(limit, d, sets, entries, order, row)
}

// The seat at the slot that a handle was found to name; 7 where it names none. The other stores play no part.
fn found_seat(entries: &[[u64; 3]], found: Result<usize, usize>) -> Result<Seated, Refusal>
    requires { (x : ℕ) → found ≡ Ok x → x < length entries.now }
    ensures { (sets : List (List ℕ)) → ((order : List ℕ)
        → seating result ≡ seat_by (record { sets = sets; entries = entries.now; order = order }) found) }
{
    match found {
        Err(_) => Err(Refusal::NoHandle),
        Ok(x) => Ok(held_seat(entries, x)),
    }
}

// Where a recording by a handle goes, in stores that suffice.
fn seat_by_in(
    limit: u64,
    d: directory::Directory,
    sets: &[[u64; 9]],
    entries: &[[u64; 3]],
    order: &[u32],
    h: u64,
) -> Result<Seated, Refusal>
    requires { (limit + 2 ≤ length sets.now) × (limit + 2 ≤ length entries.now) × (limit + 2 ≤ length order.now) }
    ensures { seating result ≡ seated_by limit d (stores sets.now entries.now order.now) h }
{
    if !directory::check::agrees(limit, d, sets, entries, order) {
        return Err(Refusal::Disagrees);
    }
    let found = directory::find::by_handle(d, entries, order, h);
    found_seat(entries, found)
}

// Where a recording with attributes goes, and their set's row; or the refusal: 12, 6, 5, 8, 9. Of the kind: how many slots
// its cells have room for, whether it takes the value, and how configuring refuses its settings, if it does.
pub fn seat<E: Reason>(
    cells: usize,
    value: bool,
    unset: Result<(), E>,
    limit: u64,
    d: directory::Directory,
    sets: &[[u64; 9]],
    entries: &[[u64; 3]],
    order: &[u32],
    attrs: &[[u32; 2]],
    present: bool,
    filter: &[u32],
    row: &mut [u64; 9],
) -> Result<Seated, Refusal>
    ensures value { seating result ≡ unless_barred (barred_at cells value (code_by E.number unset) limit (stores sets.now entries.now order.now)
        (length (given attrs.now)) (accepts limit (filter_of present filter.now)))
        (seated limit d (stores sets.now entries.now order.now)
        (row_of (canonical (filter_of present filter.now) (given attrs.now)))) }
    ensures row_after { row.new ≡ row_unless_barred (barred_at cells value (code_by E.number unset) limit (stores sets.now entries.now order.now)
        (length (given attrs.now)) (accepts limit (filter_of present filter.now)))
        (row_of (canonical (filter_of present filter.now) (given attrs.now))) row.old }
{
    let lent = room::suffices(limit, sets.len(), entries.len(), order.len(), cells);
    let ok = directory::accepted(limit, present, filter);
    first::barred(lent, value, attrs.len(), unset, ok)?;
    sets::canon::sort_into(attrs, present, filter, row);
    seat_in(limit, d, sets, entries, order, row)
}

// Where a recording by a handle goes; or the refusal: 12, 6, 8, 7. The kind's answers are those of `seat`.
pub fn seat_by<E: Reason>(
    cells: usize,
    value: bool,
    unset: Result<(), E>,
    limit: u64,
    d: directory::Directory,
    sets: &[[u64; 9]],
    entries: &[[u64; 3]],
    order: &[u32],
    h: u64,
) -> Result<Seated, Refusal>
    ensures { seating result ≡ unless_barred (barred_at cells value (code_by E.number unset) limit (stores sets.now entries.now order.now) 0 (leb limit most_sets))
        (seated_by limit d (stores sets.now entries.now order.now) h) }
{
    let lent = room::suffices(limit, sets.len(), entries.len(), order.len(), cells);
    first::barred(lent, value, 0, unset, limit <= directory::MOST_SETS)?;
    seat_by_in(limit, d, sets, entries, order, h)
}

// `seat` in a map that agrees, whose stores suffice and whose configuration was accepted: only 6, 5 and 9 are left to ask.
fn seat_agreed(
    value: bool,
    limit: u64,
    d: directory::Directory,
    sets: &[[u64; 9]],
    entries: &[[u64; 3]],
    order: &[u32],
    attrs: &[[u32; 2]],
    present: bool,
    filter: &[u32],
    row: &mut [u64; 9],
) -> Result<Seated, Refusal>
    requires { (limit + 2 ≤ length sets.now) × (limit + 2 ≤ length entries.now) × (limit + 2 ≤ length order.now)
        × (agreesb limit d (stores sets.now entries.now order.now) ≡ true) }
    ensures value { seating result ≡ unless_barred (barred_by true value (length (given attrs.now)) true)
        (seated limit d (stores sets.now entries.now order.now)
        (row_of (canonical (filter_of present filter.now) (given attrs.now)))) }
    ensures row_after { row.new ≡ row_unless_barred (barred_by true value (length (given attrs.now)) true)
        (row_of (canonical (filter_of present filter.now) (given attrs.now))) row.old }
{
    first::barred(true, value, attrs.len(), Ok::<(), Refusal>(()), true)?;
    sets::canon::sort_into(attrs, present, filter, row);
    seat_right(limit, d, sets, entries, order, row)
}

// `seat_by` in such a map: only 6 and 7 are left to ask.
fn seat_by_agreed(
    value: bool,
    limit: u64,
    d: directory::Directory,
    sets: &[[u64; 9]],
    entries: &[[u64; 3]],
    order: &[u32],
    h: u64,
) -> Result<Seated, Refusal>
    requires { (limit + 2 ≤ length sets.now) × (limit + 2 ≤ length entries.now) × (limit + 2 ≤ length order.now)
        × (agreesb limit d (stores sets.now entries.now order.now) ≡ true) }
    ensures { seating result ≡ unless_barred (barred_by true value 0 true) (seated_by limit d (stores sets.now entries.now order.now) h) }
{
    first::barred(true, value, 0, Ok::<(), Refusal>(()), true)?;
    let found = directory::find::by_birth(d, entries, order, h);
    found_seat(entries, found)
}

// `seat`, where a caller may know already that 12 and 8 do not come up: what is known is not asked again.
pub fn seat_if<E: Reason>(
    known: bool,
    cells: usize,
    value: bool,
    unset: Result<(), E>,
    limit: u64,
    d: directory::Directory,
    sets: &[[u64; 9]],
    entries: &[[u64; 3]],
    order: &[u32],
    attrs: &[[u32; 2]],
    present: bool,
    filter: &[u32],
    row: &mut [u64; 9],
) -> Result<Seated, Refusal>
    requires { known ≡ true → Sure cells (code_by E.number unset) limit d (stores sets.now entries.now order.now) (accepts limit (filter_of present filter.now)) }
    ensures value { seating result ≡ unless_barred (barred_at cells value (code_by E.number unset) limit (stores sets.now entries.now order.now)
        (length (given attrs.now)) (accepts limit (filter_of present filter.now)))
        (seated limit d (stores sets.now entries.now order.now)
        (row_of (canonical (filter_of present filter.now) (given attrs.now)))) }
    ensures row_after { row.new ≡ row_unless_barred (barred_at cells value (code_by E.number unset) limit (stores sets.now entries.now order.now)
        (length (given attrs.now)) (accepts limit (filter_of present filter.now)))
        (row_of (canonical (filter_of present filter.now) (given attrs.now))) row.old }
{
    if known {
        return seat_agreed(
            value, limit, d, sets, entries, order, attrs, present, filter, row,
        );
    }
    seat(
        cells, value, unset, limit, d, sets, entries, order, attrs, present, filter, row,
    )
}

// `seat_by`, likewise.
pub fn seat_by_if<E: Reason>(
    known: bool,
    cells: usize,
    value: bool,
    unset: Result<(), E>,
    limit: u64,
    d: directory::Directory,
    sets: &[[u64; 9]],
    entries: &[[u64; 3]],
    order: &[u32],
    h: u64,
) -> Result<Seated, Refusal>
    requires { known ≡ true → Sure cells (code_by E.number unset) limit d (stores sets.now entries.now order.now) (leb limit most_sets) }
    ensures { seating result ≡ unless_barred (barred_at cells value (code_by E.number unset) limit (stores sets.now entries.now order.now) 0 (leb limit most_sets))
        (seated_by limit d (stores sets.now entries.now order.now) h) }
{
    if known {
        return seat_by_agreed(value, limit, d, sets, entries, order, h);
    }
    seat_by(cells, value, unset, limit, d, sets, entries, order, h)
}

// Marks a slot updated. It refuses nothing: the slot is there.
pub fn mark(entries: &mut [[u64; 3]], x: usize)
    requires { x < length entries.old }
    ensures { entries.new ≡ marked entries.old x }
{
    let b = entries[x][0];
    let n = entries[x][1];
    entries[x] = [b, n, 1];
}

// What the directory writes once the series at the seat took the value.
pub fn commit(
    d: directory::Directory,
    sets: &mut [[u64; 9]],
    entries: &mut [[u64; 3]],
    order: &mut [u32],
    row: &[u64; 9],
    target: directory::Target,
) -> directory::Directory
    requires { Fits d (stores sets.old entries.old order.old) target }
    ensures { kept result (stores sets.new entries.new order.new)
        ≡ committed d (stores sets.old entries.old order.old) row.now target }
{
    match target {
        directory::Target::Disagrees => d,
        directory::Target::Old(x) => {
            mark(entries, x);
            d
        }
        directory::Target::New(r) => {
            let e = directory::write::admit(d, sets, entries, order, *row, r, 1, 0);
            let x = e.used;
            mark(entries, x);
            e
        }
        directory::Target::Over(r) => {
            let over: [u64; 9] = sets::OVERFLOW_ROW;
            let e = directory::write::admit(d, sets, entries, order, over, r, 0, 0);
            let x = e.used;
            mark(entries, x);
            e
        }
    }
}
