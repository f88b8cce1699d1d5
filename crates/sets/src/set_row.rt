// Rows that hold a set: how two lie to each other, and whether one is sound.
ghost use Rattle.std.specs.Prelude.{◌≡◌, true, ◌&&◌, ◌||◌, ℕ, ◌-◌, ◌<◌, ◌≤◌, eqb};
ghost use Rattle.tally.specs.Sets.{cmp};
ghost use Rattle.tally.specs.Map.{plain, bit};
ghost use Rattle.sets.specs.All.{allb};
ghost use Rattle.sets.specs.Rows.{size, set_of, below, key_at, soundb};
ghost use Rattle.sets.specs.Inner.{way, Parted};

use std::cmp::Ordering;

// The first word from `from` on in which two rows differ, 8 if none does.
pub fn parting(a: &[u64; 9], b: &[u64; 9], from: usize) -> usize
    requires { from ≤ 8 }
    ensures { Parted a.now b.now from result }
{
    for i in from..8 {
        if a[i] != b[i] {
            return i;
        }
    }
    8
}

// Whether the first set comes before the second, after it, or is the same: by key, value, then the shorter first.
pub fn compare(a: &[u64; 9], b: &[u64; 9]) -> Ordering
    requires { (size a.now ≤ 8) × (size b.now ≤ 8) }
    ensures { result ≡ way (cmp (set_of a.now) (set_of b.now)) }
{
    let n = a[8] as usize;
    let m = b[8] as usize;
    let i = parting(a, b, 0);
    if i < n {
        if i >= m {
            return Ordering::Greater;
        }
        if a[i] < b[i] {
            return Ordering::Less;
        }
        return Ordering::Greater;
    }
    if n < m {
        return Ordering::Less;
    }
    if m < n {
        return Ordering::Greater;
    }
    Ordering::Equal
}

// Whether the keys of n words rise, where those up to word `from` do.
fn rises(row: &[u64; 9], from: usize, n: usize) -> bool
    requires { (from < n) × (n ≤ 8) × ((k : ℕ) → k < from → key_at row.now k ≡ true) }
    ensures { result ≡ allb (n - 1) (key_at row.now) }
{
    for i in from..n - 1 {
        if row[i] / 4294967296 >= row[i + 1] / 4294967296 {
            return false;
        }
    }
    true
}

// Whether a row holds 1 to 8 attributes with rising keys.
pub fn sound(row: &[u64; 9]) -> bool
    ensures { result ≡ soundb row.now }
{
    let n = row[8] as usize;
    if n < 1 {
        return false;
    }
    if n > 8 {
        return false;
    }
    rises(row, 0, n)
}

// Whether b is sound and its set comes after that of a, which is sound: up to the word in which they part b's keys rise as a's do.
fn after(a: &[u64; 9], b: &[u64; 9]) -> bool
    requires { soundb a.now ≡ true }
    ensures { result ≡ (soundb b.now && below (cmp (set_of a.now) (set_of b.now))) }
{
    let n = a[8] as usize;
    let m = b[8] as usize;
    if m > 8 {
        return false;
    }
    let j = parting(a, b, 0);
    if j < n {
        if j >= m {
            return false;
        }
        if a[j] >= b[j] {
            return false;
        }
        return rises(b, j, m);
    }
    if n >= m {
        return false;
    }
    rises(b, n - 1, m)
}

// Whether b is sound and may follow a at place i: at place 0 whatever a is.
pub fn follows(i: usize, a: &[u64; 9], b: &[u64; 9]) -> bool
    requires { (i ≡ 0 → ⊥) → soundb a.now ≡ true }
    ensures { result ≡ (soundb b.now && (eqb i 0 || below (cmp (set_of a.now) (set_of b.now)))) }
{
    if i == 0 {
        return sound(b);
    }
    after(a, b)
}

// How much a set adds to those other than overflow: 0 for the overflow set, else 1.
pub fn plain_row(row: &[u64; 9]) -> usize
    requires { 1 ≤ size row.now }
    ensures { result ≡ bit (plain (set_of row.now)) }
{
    if row[8] == 1 {
        if row[0] == crate::OVERFLOW {
            return 0;
        }
        return 1;
    }
    1
}
