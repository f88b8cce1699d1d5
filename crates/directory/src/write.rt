// What a call writes in the directory.
ghost use Rattle.std.specs.Prelude.{◌≡◌, ◌+◌, ◌^◌, ◌<◌, ◌≤◌, length};
ghost use Rattle.sets.specs.Inserted.{inserted};
ghost use Rattle.directory.specs.Calls.{kept, admitted, bound_to};
ghost use Rattle.directory.specs.View.{stores, birth_at};

// Moves the places from `at` up and puts the slot there.
fn insert(order: &mut [u32], used: usize, at: usize, slot: u32)
    requires { (at ≤ used) × (used < length order.old) }
    ensures { order.new ≡ inserted order.old used at slot }
{
    for i in (at..used).rev() {
        order[i + 1] = order[i];
    }
    order[at] = slot;
}

// Makes a new entry in the next slot, with its place in the order; the state after it. It refuses nothing: there is room.
pub fn admit(
    d: crate::Directory,
    sets: &mut [[u64; 9]],
    entries: &mut [[u64; 3]],
    order: &mut [u32],
    row: [u64; 9],
    rank: usize,
    more: u64,
    bound: u64,
) -> crate::Directory
    requires { (d.used + 1 < length sets.old) × (d.used + 1 < length entries.old) × (d.used < length order.old)
        × (rank ≤ d.used) × (d.used + 1 < 2 ^ 32) × (d.last + 1 < 2 ^ 64) × (d.count + more < 2 ^ 64) }
    ensures { kept result (stores sets.new entries.new order.new)
        ≡ admitted d (stores sets.old entries.old order.old) row rank more bound }
{
    let used = d.used;
    let slot = used + 1;
    let birth = d.last + 1;
    sets[slot] = row;
    entries[slot] = [birth, bound, 0];
    insert(order, used, rank, slot as u32);
    crate::Directory {
        used: slot,
        count: d.count + more,
        last: birth,
    }
}

// Writes a slot's bindings. It refuses nothing: the slot is there.
pub fn rebind(entries: &mut [[u64; 3]], x: usize, n: u64)
    requires { x < length entries.old }
    ensures { entries.new ≡ bound_to entries.old x n }
{
    let b = entries[x][0];
    let u = entries[x][2];
    entries[x] = [b, n, u];
}

// A slot's birth number. It refuses nothing: the slot is there.
pub fn birth_of(entries: &[[u64; 3]], x: usize) -> u64
    requires { x < length entries.now }
    ensures { result ≡ birth_at entries.now x }
{
    if x == 0 {
        return 0;
    }
    entries[x][0]
}
