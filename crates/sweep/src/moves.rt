// Moving down the slots that stay, by their marks.
ghost use Rattle.std.specs.Prelude.{◌≡◌, [], ℕ, ◌<◌, ◌≤◌, length, get_or};
ghost use Rattle.sweep.specs.Swept.{clear};
ghost use Rattle.sweep.specs.Passes.{mark_in, moved_to, settled};

// Moves a set from slot x to slot m, if it stays.
fn move_set(sets: &mut [[u64; 9]], x: usize, m: usize)
    requires { (x < length sets.old) × (m ≤ x) }
    ensures { sets.new ≡ moved_to m (get_or sets.old x []) sets.old }
{
    if m == 0 {
        return;
    }
    if m == x {
        return;
    }
    sets[m] = sets[x];
}

// Moves the sets of the slots that stay.
pub fn move_sets(used: usize, sets: &mut [[u64; 9]], order: &[u32])
    requires { (used < length sets.old) × (used ≤ length order.now)
        × ((x : ℕ) → 1 ≤ x → x ≤ used → mark_in order.now x ≤ x) }
    ensures { sets.new ≡ settled (λ row. row) (mark_in order.now) used sets.old }
{
    for x in 0..used {
        let m = crate::words::high(order[x]);
        move_set(sets, x + 1, m);
    }
}

// Moves an entry from slot x to slot m, if it stays, and resets it.
fn move_entry(entries: &mut [[u64; 3]], x: usize, m: usize)
    requires { (x < length entries.old) × (m ≤ x) }
    ensures { entries.new ≡ moved_to m (clear (get_or entries.old x [])) entries.old }
{
    if m == 0 {
        return;
    }
    let b = entries[x][0];
    let n = entries[x][1];
    entries[m] = [b, n, 0];
}

// Moves the entries of the slots that stay, reset, and resets that of slot 0.
pub fn move_entries(used: usize, entries: &mut [[u64; 3]], order: &[u32])
    requires { (used < length entries.old) × (used ≤ length order.now)
        × ((x : ℕ) → 1 ≤ x → x ≤ used → mark_in order.now x ≤ x) }
    ensures { entries.new ≡ settled clear (mark_in order.now) used entries.old }
{
    let b = entries[0][0];
    let n = entries[0][1];
    entries[0] = [b, n, 0];
    for x in 0..used {
        let m = crate::words::high(order[x]);
        move_entry(entries, x + 1, m);
    }
}
