// Binding and releasing in stores that suffice.
ghost use Rattle.std.specs.Prelude.{◌≡◌, ℕ, ◌+◌, ◌^◌, ◌<◌, ◌≤◌, length, true, List};
ghost use Rattle.sets.specs.Rows.{size};
ghost use Rattle.bindings.specs.Calls.{gave, released_at, released_in, held_bound, born_bound, bound_in};
ghost use Rattle.bindings.specs.Inner.{Bound};
ghost use Rattle.directory.specs.View.{stores, agreesb};

use refusals::Refusal;

// Takes one binding off the entry that a handle was found to name. The other stores play no part.
pub fn free(
    d: directory::Directory,
    entries: &mut [[u64; 3]],
    found: Result<usize, usize>,
) -> crate::Reply
    requires { Bound entries.old found }
    ensures { (sets : List (List ℕ)) → ((order : List ℕ) → gave result (record { sets = sets; entries = entries.new; order = order })
        ≡ released_at d (record { sets = sets; entries = entries.old; order = order }) found) }
{
    match found {
        Err(_) => crate::Reply {
            answer: Err(Refusal::NoHandle),
            dir: d,
        },
        Ok(x) => {
            let n = entries[x][1];
            directory::write::rebind(entries, x, n - 1);
            crate::Reply {
                answer: Ok(None),
                dir: d,
            }
        }
    }
}

// Takes one binding off.
pub fn release_in(
    limit: u64,
    d: directory::Directory,
    sets: &[[u64; 9]],
    entries: &mut [[u64; 3]],
    order: &[u32],
    h: u64,
) -> crate::Reply
    requires { (limit + 2 ≤ length sets.now) × (limit + 2 ≤ length entries.old) × (limit + 2 ≤ length order.now) }
    ensures { gave result (stores sets.now entries.new order.now)
        ≡ released_in limit d (stores sets.now entries.old order.now) h }
{
    if !directory::check::agrees(limit, d, sets, entries, order) {
        return crate::Reply {
            answer: Err(Refusal::Disagrees),
            dir: d,
        };
    }
    let found = directory::find::by_handle(d, entries, order, h);
    free(d, entries, found)
}

// One binding more on a slot that is held. The other stores play no part.
fn bind_held(d: directory::Directory, entries: &mut [[u64; 3]], x: usize) -> crate::Reply
    requires { x < length entries.old }
    ensures { (sets : List (List ℕ)) → ((order : List ℕ) → gave result (record { sets = sets; entries = entries.new; order = order })
        ≡ held_bound d (record { sets = sets; entries = entries.old; order = order }) x) }
{
    let n = entries[x][1];
    if n >= u64::MAX {
        return crate::Reply {
            answer: Err(Refusal::Full),
            dir: d,
        };
    }
    let b = directory::write::birth_of(entries, x);
    directory::write::rebind(entries, x, n + 1);
    crate::Reply {
        answer: Ok(Some(b)),
        dir: d,
    }
}

// A new entry with one binding.
fn bind_new(
    d: directory::Directory,
    sets: &mut [[u64; 9]],
    entries: &mut [[u64; 3]],
    order: &mut [u32],
    row: [u64; 9],
    rank: usize,
    more: u64,
) -> crate::Reply
    requires { (d.used + 1 < length sets.old) × (d.used + 1 < length entries.old) × (d.used < length order.old)
        × (rank ≤ d.used) × (d.used + 1 < 2 ^ 32) × (d.count + more < 2 ^ 64) }
    ensures { gave result (stores sets.new entries.new order.new)
        ≡ born_bound d (stores sets.old entries.old order.old) row rank more }
{
    if d.last >= u64::MAX {
        return crate::Reply {
            answer: Err(Refusal::Full),
            dir: d,
        };
    }
    let e = directory::write::admit(d, sets, entries, order, row, rank, more, 1);
    crate::Reply {
        answer: Ok(Some(e.last)),
        dir: e,
    }
}

// Binds a set in a directory that agrees: its own entry, held or new, or that of overflow.
pub fn bind_right(
    limit: u64,
    d: directory::Directory,
    sets: &mut [[u64; 9]],
    entries: &mut [[u64; 3]],
    order: &mut [u32],
    row: [u64; 9],
) -> crate::Reply
    requires { (limit + 2 ≤ length sets.old) × (limit + 2 ≤ length entries.old) × (limit + 2 ≤ length order.old)
        × (size row ≤ 8) × (limit + 2 < 2 ^ 32) × (agreesb limit d (stores sets.old entries.old order.old) ≡ true) }
    ensures { gave result (stores sets.new entries.new order.new)
        ≡ bound_in limit d (stores sets.old entries.old order.old) row }
{
    let t = directory::find::locate_agreed(limit, d, sets, entries, order, &row);
    match t {
        directory::Target::Disagrees => crate::Reply {
            answer: Err(Refusal::Disagrees),
            dir: d,
        },
        directory::Target::Old(x) => bind_held(d, entries, x),
        directory::Target::New(r) => bind_new(d, sets, entries, order, row, r, 1),
        directory::Target::Over(r) => {
            let over: [u64; 9] = sets::OVERFLOW_ROW;
            bind_new(d, sets, entries, order, over, r, 0)
        }
    }
}

// Binds a set.
pub fn bind_in(
    limit: u64,
    d: directory::Directory,
    sets: &mut [[u64; 9]],
    entries: &mut [[u64; 3]],
    order: &mut [u32],
    row: [u64; 9],
) -> crate::Reply
    requires { (limit + 2 ≤ length sets.old) × (limit + 2 ≤ length entries.old) × (limit + 2 ≤ length order.old)
        × (size row ≤ 8) × (limit + 2 < 2 ^ 32) }
    ensures { gave result (stores sets.new entries.new order.new)
        ≡ bound_in limit d (stores sets.old entries.old order.old) row }
{
    if !directory::check::agrees(limit, d, sets, entries, order) {
        return crate::Reply {
            answer: Err(Refusal::Disagrees),
            dir: d,
        };
    }
    bind_right(limit, d, sets, entries, order, row)
}
