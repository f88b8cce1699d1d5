// Where a set, or a handle, stands in the directory.
ghost use Rattle.std.specs.Prelude.{◌≡◌, ℕ, suc, ◌+◌, ◌<◌, ◌≤◌, true, ◌&&◌, [], ◌∷◌, Some, length, ◌==◌, nat_lt, slice_index, slice_index_or};
ghost use Prim.Native.Nat.{Ordering as Compared};
ghost use Rattle.tally.specs.Sets.{cmp};
ghost use Rattle.sets.specs.Rows.{span, size, set_of};
ghost use Rattle.directory.specs.Calls.{located, scan};
ghost use Rattle.directory.specs.View.{stores, birth_at, sought, agreesb};
ghost use Rattle.directory.specs.Inner.{Agreeing, BirthsRise, LastBorn};

use std::cmp::Ordering;

// The slot that holds a set, or the place where it would stand, in a directory whose places are right: by halving.
fn find(used: usize, sets: &[[u64; 9]], order: &[u32], wanted: &[u64; 9]) -> Result<usize, usize>
    requires { (used < length sets.now) × (used ≤ length order.now) × (size wanted.now ≤ 8)
        × ((k : ℕ) → k < used → (1 ≤ slice_index order.now k) × (slice_index order.now k ≤ used))
        × ((x : ℕ) → 1 ≤ x → x ≤ used → size (slice_index_or sets.now x []) ≤ 8)
        × ((k : ℕ) → suc k < used → cmp (set_of (slice_index_or sets.now (slice_index order.now k) []))
        (set_of (slice_index_or sets.now (slice_index order.now (suc k)) [])) ≡ Compared.lt) }
    ensures { result ≡ sought (set_of wanted.now) used sets.now order.now }
{
    if wanted[8] == 0 {
        return Ok(0);
    }
    let mut low: usize = 0;
    let mut high: usize = used;
    while low < high {
        let mid = low + (high - low) / 2;
        let q = order[mid] as usize;
        let w = sets::set_row::compare(wanted, &sets[q]);
        match w {
            Ordering::Less => high = mid,
            Ordering::Equal => return Ok(q),
            Ordering::Greater => low = mid + 1,
        }
    }
    Err(low)
}

// Whether an entry is the one that a handle names, with bindings.
fn names(birth: u64, bindings: u64, h: u64) -> bool
    ensures { result ≡ (birth == h && nat_lt 0 bindings) }
{
    if birth == h {
        if bindings > 0 {
            return true;
        }
        return false;
    }
    false
}

// The slot that a handle names, if it has bindings; else `Err`: along the places.
fn by_places(used: usize, entries: &[[u64; 3]], order: &[u32], h: u64) -> Result<usize, usize>
    requires { (used < length entries.now) × (used ≤ length order.now)
        × ((k : ℕ) → k < used → (1 ≤ slice_index order.now k) × (slice_index order.now k ≤ used)) }
    ensures { result ≡ scan h entries.now (0 ∷ span order.now 0 used) }
{
    if names(0, entries[0][1], h) {
        return Ok(0);
    }
    for q in &order[..used] {
        let q = *q as usize;
        if names(entries[q][0], entries[q][1], h) {
            return Ok(q);
        }
    }
    Err(0)
}

// The slot that has the handle's number, if the handle names it. Until a set is removed each slot's number is its birth number.
fn own_slot(used: usize, entries: &[[u64; 3]], h: u64) -> Option<usize>
    requires { used < length entries.now }
    ensures { (x : ℕ) → result ≡ Some x
        → (x ≤ used) × ((birth_at entries.now x == h && nat_lt 0 (slice_index (slice_index_or entries.now x []) 1)) ≡ true) }
{
    if h < 1 {
        return None;
    }
    if h > used as u64 {
        return None;
    }
    let x = h as usize;
    if names(entries[x][0], entries[x][1], h) {
        return Some(x);
    }
    None
}

// The slot that a handle names, if it has bindings; else `Err`, which number 7 refuses. In a directory that agrees a named slot with its birth
// number is the one that a scan finds.
pub fn by_handle(
    d: crate::Directory,
    entries: &[[u64; 3]],
    order: &[u32],
    h: u64,
) -> Result<usize, usize>
    requires { (d.used < length entries.now) × (d.used ≤ length order.now) × Agreeing d entries.now order.now }
    ensures { result ≡ scan h entries.now (0 ∷ span order.now 0 d.used) }
{
    let used = d.used;
    if let Some(x) = own_slot(used, entries, h) {
        return Ok(x);
    }
    by_places(used, entries, order, h)
}

// The last slot that was born by the number h: where birth numbers rise, the one that a handle h names, if any. By halving.
fn born_by(used: usize, entries: &[[u64; 3]], h: u64) -> usize
    requires { (used < length entries.now) × BirthsRise used entries.now }
    ensures { LastBorn h used entries.now result }
{
    let mut low: usize = 0;
    let mut high: usize = used + 1;
    while low + 1 < high {
        let mid = low + (high - low) / 2;
        if entries[mid][0] <= h {
            low = mid;
        } else {
            high = mid;
        }
    }
    low
}

// Requires a directory known to agree, whose birth numbers rise along the slots. `by_handle` there: a slot that has moved is found by halving.
pub fn by_birth(
    d: crate::Directory,
    entries: &[[u64; 3]],
    order: &[u32],
    h: u64,
) -> Result<usize, usize>
    requires { (d.used < length entries.now) × Agreeing d entries.now order.now × BirthsRise d.used entries.now }
    ensures { result ≡ scan h entries.now (0 ∷ span order.now 0 d.used) }
{
    let used = d.used;
    if let Some(x) = own_slot(used, entries, h) {
        return Ok(x);
    }
    let y = born_by(used, entries, h);
    let b = crate::write::birth_of(entries, y);
    if names(b, entries[y][1], h) {
        return Ok(y);
    }
    Err(0)
}

// Where a call with a set goes in a directory that agrees: its own slot or a new one, that of overflow held or new.
pub fn locate_agreed(
    limit: u64,
    d: crate::Directory,
    sets: &[[u64; 9]],
    entries: &[[u64; 3]],
    order: &[u32],
    row: &[u64; 9],
) -> crate::Target
    requires { (limit + 2 ≤ length sets.now) × (limit + 2 ≤ length entries.now) × (limit + 2 ≤ length order.now) × (size row.now ≤ 8)
        × (agreesb limit d (stores sets.now entries.now order.now) ≡ true) }
    ensures { result ≡ located limit d (stores sets.now entries.now order.now) row.now }
{
    let used = d.used;
    match find(used, sets, order, row) {
        Ok(x) => crate::Target::Old(x),
        Err(r) => {
            if d.count < limit {
                return crate::Target::New(r);
            }
            let over: [u64; 9] = sets::OVERFLOW_ROW;
            match find(used, sets, order, &over) {
                Ok(x) => crate::Target::Old(x),
                Err(q) => crate::Target::Over(q),
            }
        }
    }
}
