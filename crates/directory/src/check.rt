// Whether the directory agrees with itself: a pass over its birth numbers, and one over its places, or two where the quick one says no.
ghost use Rattle.std.specs.Prelude.{◌≡◌, ◌+◌, ◌<◌, ◌≤◌, length};
ghost use Rattle.directory.specs.View.{stores, countsb, agreesb};
ghost use Rattle.directory.specs.Inner.{bornb, placed};

// Whether birth numbers rise along the slots, among those spent: two slots a turn, which is faster.
fn births(used: usize, last: u64, entries: &[[u64; 3]]) -> bool
    requires { used < length entries.now }
    ensures { result ≡ bornb used last entries.now }
{
    let mut prev: u64 = 0;
    let mut i: usize = 0;
    while i + 1 < used {
        let b = entries[i + 1][0];
        if b <= prev {
            return false;
        }
        let c = entries[i + 2][0];
        if c <= b {
            return false;
        }
        prev = c;
        i += 2;
    }
    if i < used {
        let b = entries[i + 1][0];
        if b <= prev {
            return false;
        }
        return b <= last;
    }
    prev <= last
}

// How many of the slots that the places name are plain, if these are sound and ascend by set: one by one.
fn one_by_one(used: usize, sets: &[[u64; 9]], order: &[u32]) -> Option<usize>
    requires { (used < length sets.now) × (used ≤ length order.now) }
    ensures { result ≡ placed used sets.now order.now }
{
    let mut plain: usize = 0;
    let mut p: usize = 0;
    for i in 0..used {
        let q = order[i] as usize;
        if q < 1 {
            return None;
        }
        if q > used {
            return None;
        }
        if !sets::set_row::follows(i, &sets[p], &sets[q]) {
            return None;
        }
        plain += sets::set_row::plain_row(&sets[q]);
        p = q;
    }
    Some(plain)
}

// How many of the slots that the places name are plain, if these are sound and ascend by set.
fn places(used: usize, sets: &[[u64; 9]], order: &[u32]) -> Option<usize>
    requires { (used < length sets.now) × (used ≤ length order.now) }
    ensures { result ≡ placed used sets.now order.now }
{
    if crate::alike::quick(used, sets, order) {
        return Some(used);
    }
    one_by_one(used, sets, order)
}

// Whether the stored count is right.
fn counts(limit: u64, count: u64, used: usize, plain: usize) -> bool
    ensures { result ≡ countsb limit count used plain }
{
    if count > limit {
        return false;
    }
    let n = plain as u64;
    if count == n {
        return true;
    }
    if plain >= used {
        return false;
    }
    if count == n + 1 {
        return true;
    }
    false
}

// Whether the directory agrees with itself: number 8 refuses every call that finds otherwise.
pub fn agrees(
    limit: u64,
    d: crate::Directory,
    sets: &[[u64; 9]],
    entries: &[[u64; 3]],
    order: &[u32],
) -> bool
    requires { (limit + 2 ≤ length sets.now) × (limit + 2 ≤ length entries.now) × (limit + 2 ≤ length order.now) }
    ensures { result ≡ agreesb limit d (stores sets.now entries.now order.now) }
{
    let used = d.used;
    if used > limit as usize + 1 {
        return false;
    }
    if !births(used, d.last, entries) {
        return false;
    }
    match places(used, sets, order) {
        None => false,
        Some(n) => counts(limit, d.count, used, n),
    }
}
