// The directory's part of a delta collection, the same for every kind of series: entries that were neither updated nor bound go, and those
// that stay move down. `collect_and_reset` of `ValueMap`, of internal/mod.rs.
#![tactic(auto)]

mod moves;
mod passes;
mod words;

ghost use Rattle.std.specs.Prelude.{◌≡◌, ℕ, ◌<◌, ◌≤◌, length, get_or};
ghost use Rattle.directory.specs.Calls.{kept};
ghost use Rattle.directory.specs.View.{stores};
ghost use Rattle.sweep.specs.Swept.{swept_kept};

// Removes the slots that go, in passes over the stores. While they run, the upper half of the word of place i in `order` holds the new number
// of slot i + 1, 0 if it goes: no further memory is needed, and nothing behind the new slots is changed.
pub fn sweep(
    d: directory::Directory,
    sets: &mut [[u64; 9]],
    entries: &mut [[u64; 3]],
    order: &mut [u32],
) -> directory::Directory
    requires { (d.used < length sets.old) × (d.used < length entries.old) × (d.used ≤ length order.old) × (d.used < 65536)
        × ((k : ℕ) → k < d.used → (1 ≤ get_or order.old k 0) × (get_or order.old k 0 ≤ d.used)) }
    ensures { kept result (stores sets.new entries.new order.new)
        ≡ swept_kept (kept d (stores sets.old entries.old order.old)) }
{
    let used = d.used;
    let kept = crate::passes::rank(used, sets, entries, order);
    crate::passes::renumber(used, order);
    crate::moves::move_sets(used, sets, order);
    crate::moves::move_entries(used, entries, order);
    crate::passes::strip(used, order);
    directory::Directory {
        used: kept,
        count: d.count.saturating_sub((used - kept) as u64),
        last: d.last,
    }
}
