// Rows of bucket counts of an exponential histogram, each at the front of a slice that is lent: `ExpoBuckets` of exponential_histogram.rs.
#![tactic(auto)]

mod walk;

ghost use Rattle.std.specs.Prelude.{◌≡◌, ◌+◌, ◌/◌, ◌^◌, ◌<◌, ◌≤◌, length, take, get_or};
ghost use Rattle.rows.specs.Rows.{over, add_at, downscaled, recorded, recorded_from, lowering, zeroed, shifted};
ghost use Rattle.laws.specs.Counting.{total};

// A row: the bin of its first count, and how many counts it has.
#[derive(Clone, Copy)]
pub struct Row {
    pub start: u32,
    pub len: usize,
}

// Lowers the row of the first n counts, which starts at start, by delta levels, in place, and returns the row then.
pub fn downscale(counts: &mut [u64], start: u32, n: usize, delta: u32) -> Row
    requires n_in_bounds { n ≤ length counts.old }
    requires delta_bound { delta < 32 }
    requires counts_bound { total (take n counts.old) < 2 ^ 64 }
    ensures start_value { result.start ≡ start / 2 ^ delta }
    ensures len_value { result.len ≡ length (downscaled delta start (take n counts.old)) }
    ensures counts_after { counts.new ≡ over (downscaled delta start (take n counts.old)) counts.old }
{
    let base = start >> delta;
    let len = walk::lower(counts, start, n, delta);
    Row { start: base, len }
}

// Zeros from a up to e.
pub fn zero(counts: &mut [u64], a: usize, e: usize)
    requires { (a ≤ e) × (e ≤ length counts.old) }
    ensures { counts.new ≡ zeroed a e counts.old }
{
    for i in a..e {
        counts[i] = 0;
    }
}

// The first n counts k places further on; the first k stay as they were.
pub fn shift(counts: &mut [u64], n: usize, k: usize)
    requires { n + k ≤ length counts.old }
    ensures { counts.new ≡ shifted n k counts.old }
{
    for j in (0..n).rev() {
        counts[k + j] = counts[j];
    }
}

// One more at index, with zeros between it and the row where it lies beside it, and the row then.
pub fn record(counts: &mut [u64], row: Row, index: u32) -> Row
    requires len_in_bounds { row.len ≤ length counts.old }
    requires index_in_bounds { length (recorded row.start (take row.len counts.old) index) ≤ length counts.old }
    requires counts_bound { total (take row.len counts.old) + 1 < 2 ^ 64 }
    ensures start_value { result.start ≡ recorded_from row.start (take row.len counts.old) index }
    ensures len_value { result.len ≡ length (recorded row.start (take row.len counts.old) index) }
    ensures counts_after { counts.new ≡ over (recorded row.start (take row.len counts.old) index) counts.old }
{
    let start = row.start;
    let n = row.len;
    if n == 0 {
        counts[0] = 1;
        return Row {
            start: index,
            len: 1,
        };
    }
    if index < start {
        let k = (start - index) as usize;
        shift(counts, n, k);
        zero(counts, 0, k);
        counts[0] = 1;
        return Row {
            start: index,
            len: n + k,
        };
    }
    let k = (index - start) as usize;
    if k < n {
        counts[k] += 1;
        return Row { start, len: n };
    }
    zero(counts, n, k);
    counts[k] = 1;
    Row { start, len: k + 1 }
}

// The least number of levels lower at which the bins from lo to hi are at most size. By how many binary digits hi - lo is longer than size - 1, so
// many levels are right or one too few. For a size of 1, which no configuring accepts, the highest digit in which lo and hi differ tells it.
pub fn scale_change(lo: u32, hi: u32, size: usize) -> u32
    requires { (lo ≤ hi) × (0 < size) }
    ensures { result ≡ lowering size lo hi }
{
    let far = (hi - lo) as u64;
    let most = size as u64 - 1;
    if far <= most {
        return 0;
    }
    if most == 0 {
        return 32 - u32::leading_zeros(lo ^ hi);
    }
    let k = u64::leading_zeros(most) - u64::leading_zeros(far);
    let apart = (hi >> k) - (lo >> k);
    if apart as u64 <= most {
        return k;
    }
    k + 1
}

// v more at place k of the row of the first n, with zeros before it where it is past the end. Returns the row's length then.
pub fn add_at(counts: &mut [u64], n: usize, k: usize, v: u64) -> usize
    requires n_in_bounds { (n ≤ length counts.old) × (k < length counts.old) }
    requires v_bound { get_or (take n counts.old) k 0 + v < 2 ^ 64 }
    ensures value { result ≡ length (add_at k v (take n counts.old)) }
    ensures counts_after { counts.new ≡ over (add_at k v (take n counts.old)) counts.old }
{
    if k < n {
        counts[k] += v;
        return n;
    }
    zero(counts, n, k);
    counts[k] = v;
    k + 1
}
