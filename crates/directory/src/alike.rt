// Whether the places are right where the sets have the same keys, in one pass over them. A yes is sure; after a no the sets are compared one
// by one.
ghost use Rattle.std.specs.Prelude.{◌≡◌, ◌-◌, ◌<◌, ◌≤◌, true, ◌&&◌, Some, length, nat_le, slice_index};
ghost use Rattle.directory.specs.Inner.{placed, joined, SameKeys, row_at, Told, Alike};

// Whether a number is that of a named slot: one comparison, for 0 wraps.
fn named(used: usize, q: usize) -> bool
    ensures { result ≡ (nat_le 1 q && nat_le q used) }
{
    q.wrapping_sub(1) < used
}

// The bits of d, and those in which two rows differ.
fn differing(d: [u64; 9], a: &[u64; 9], b: &[u64; 9]) -> [u64; 9]
    ensures { result ≡ joined d a.now b.now }
{
    [
        d[0] | (a[0] ^ b[0]),
        d[1] | (a[1] ^ b[1]),
        d[2] | (a[2] ^ b[2]),
        d[3] | (a[3] ^ b[3]),
        d[4] | (a[4] ^ b[4]),
        d[5] | (a[5] ^ b[5]),
        d[6] | (a[6] ^ b[6]),
        d[7] | (a[7] ^ b[7]),
        d[8] | (a[8] ^ b[8]),
    ]
}

// Whether rows that differ in the bits d have the same size and the same keys. All words are joined first: so the compiler keeps a loop
// over `differing` in vectors.
fn same_keys(d: [u64; 9]) -> bool
    ensures { result ≡ true → SameKeys d }
{
    if d[8] != 0 {
        return false;
    }
    d[0] | d[1] | d[2] | d[3] | d[4] | d[5] | d[6] | d[7] < 4294967296
}

// Whether a's set comes before b's by a word that both have, if they are alike below word `from`.
fn lower(a: &[u64; 9], b: &[u64; 9], from: usize) -> bool
    requires { from ≤ 8 }
    ensures { result ≡ true → Told a.now b.now from }
{
    let j = sets::set_row::parting(a, b, from);
    if j as u64 >= a[8] {
        return false;
    }
    if j as u64 >= b[8] {
        return false;
    }
    a[j] < b[j]
}

// The same of the sets at place i and at the one before, whose words `from` are w and `prev`: mostly these tell.
fn later(prev: u64, w: u64, sets: &[[u64; 9]], order: &[u32], i: usize, from: usize) -> bool
    requires { (1 ≤ i) × (i < length order.now) × (slice_index order.now (i - 1) < length sets.now) × (slice_index order.now i < length sets.now)
        × (from ≤ 8) × (prev ≡ slice_index (row_at sets.now order.now (i - 1)) from) × (w ≡ slice_index (row_at sets.now order.now i) from) }
    ensures { result ≡ true → Told (row_at sets.now order.now (i - 1)) (row_at sets.now order.now i) from }
{
    if prev < w {
        return true;
    }
    let p = order[i - 1] as usize;
    let q = order[i] as usize;
    lower(&sets[p], &sets[q], from)
}

// Whether the places name slots whose sets have the same keys, are alike below word `from` and rise from there on. The bits in which rows differ
// are joined to `bits`, which tell of more rows.
// Not inlined: the loop then has registers for all that it reads, some 230 instructions fewer with 62 sets and 17 more with 4.
#[inline(never)]
fn pass(used: usize, sets: &[[u64; 9]], order: &[u32], bits: [u64; 9], from: usize) -> bool
    requires { (1 ≤ used) × (used < length sets.now) × (used ≤ length order.now) × (from ≤ 8)
        × (1 ≤ slice_index order.now 0) × (slice_index order.now 0 ≤ used) }
    ensures { result ≡ true → Alike used sets.now order.now from }
{
    let first = order[0] as usize;
    let mut d = differing(bits, &sets[first], &sets[1]);
    let mut prev = sets[first][from];
    for i in 1..used {
        let q = order[i] as usize;
        if !named(used, q) {
            return false;
        }
        let e = differing(d, &sets[q], &sets[1]);
        d = e;
        let w = sets[q][from];
        if !later(prev, w, sets, order, i, from) {
            return false;
        }
        prev = w;
    }
    if !same_keys(d) {
        return false;
    }
    if !sets::set_row::sound(&sets[1]) {
        return false;
    }
    let none: [u64; 9] = [0; 9];
    if sets::set_row::parting(&d, &none, 0) < from {
        return false;
    }
    true
}

// Whether a pass over sets of this size that part at word `from` pays: sets of two or three attributes are compared as fast one by one, unless
// only the last word tells them apart.
fn pays(size: u64, from: usize) -> bool
    requires { from ≤ 8 }
    ensures { result ≡ true → (2 ≤ size) × (from < size) }
{
    if size < 2 {
        return false;
    }
    let n = from as u64 + 1;
    if n == size {
        return true;
    }
    if size < 4 {
        return false;
    }
    n < size
}

// Whether the places are right and the sets plain. Few sets are compared as fast one by one. Where sets ascend, the first word in which the first
// and the last of them differ is the first in which any two do. Sets of unlike keys mostly show in the last slot, before any pass.
pub fn quick(used: usize, sets: &[[u64; 9]], order: &[u32]) -> bool
    requires { (used < length sets.now) × (used ≤ length order.now) }
    ensures { result ≡ true → placed used sets.now order.now ≡ Some used }
{
    if used < 6 {
        return false;
    }
    let first = order[0] as usize;
    if !named(used, first) {
        return false;
    }
    let last = order[used - 1] as usize;
    if !named(used, last) {
        return false;
    }
    let none: [u64; 9] = [0; 9];
    let bits = differing(none, &sets[used], &sets[1]);
    if !same_keys(bits) {
        return false;
    }
    let from = sets::set_row::parting(&sets[first], &sets[last], 0);
    if !pays(sets[1][8], from) {
        return false;
    }
    pass(used, sets, order, bits, from)
}
