// One series of the explicit kind, `Buckets` of histogram.rs: bounds, a head by value, and its counts at the front of a lent slice.
#![tactic(auto)]

ghost use Rattle.std.specs.Prelude.{◌≡◌, ◌+◌, ◌-◌, ◌/◌, ◌<◌, ◌≤◌, length, take, eqb};
ghost use Rattle.laws.specs.Counting.{total, most_count};
ghost use Rattle.refusals.specs.Refusals.{code, said};
ghost use Rattle.rows.specs.Rows.{over};
ghost use Rattle.points.specs.Explicit.{rising, bounds_pass, same_bounds, bucket_of, bucket_count, record_bucket, added, buckets_agree};
ghost use Rattle.points.specs.Figures.{most_size};
ghost use Rattle.explicit.specs.Series.{buckets_in, freshening, refusal_of, outcome, recording};
ghost use Rattle.explicit.specs.Inner.{Addable};

use exponential::Halves;
use numbers::Number;
use refusals::Refusal;

#[derive(Clone, Copy)]
pub struct Head {
    pub count: u64,
    pub min: f64,
    pub max: f64,
    pub sum: f64,
}

// ---- bounds

fn rises(bounds: &[f64]) -> bool
    ensures { result ≡ rising bounds.now }
{
    let mut ok = true;
    for i in 1..bounds.len() {
        ok &= bounds[i - 1] < bounds[i];
    }
    ok
}

// Whether the bounds pass document 01's number 3: at most 159, no NaN, strictly rising. A NaN rises above nothing, so that only the first
// is asked for.
pub fn bounds_pass(bounds: &[f64]) -> bool
    ensures { result ≡ bounds_pass bounds.now }
{
    let n = bounds.len();
    if 159 < n {
        return false;
    }
    if n == 0 {
        return true;
    }
    let first = bounds[0];
    if first != first {
        return false;
    }
    rises(bounds)
}

// Whether two lists of bounds are the same as numbers.
pub fn same_bounds(a: &[f64], b: &[f64]) -> bool
    ensures { result ≡ same_bounds a.now b.now }
{
    let n = a.len();
    if n != b.len() {
        return false;
    }
    let mut ok = true;
    for i in 0..n {
        ok &= a[i] == b[i];
    }
    ok
}

// ---- buckets

// How many buckets the bounds make.
pub fn bucket_count(bounds: &[f64]) -> usize
    ensures { result ≡ bucket_count bounds.now }
{
    let n = bounds.len();
    if n == 0 {
        return 0;
    }
    n + 1
}

// The bucket of v: how many bounds are below it.
pub fn bucket_of(bounds: &[f64], v: f64) -> usize
    ensures { result ≡ bucket_of bounds.now v }
{
    let mut k: usize = 0;
    for &b in bounds {
        k += usize::from(b < v);
    }
    k
}

// ---- a fresh series

// A series that has counted nothing: zeros in its row, or 12 where the row lent is too short. It writes, where the exponential kind's does not:
// an explicit series agrees only with counts in its row.
pub fn fresh(bounds: &[f64], counts: &mut [u64]) -> Result<Head, Refusal>
    ensures { outcome (said result) counts.new ≡ freshening bounds.now counts.old }
{
    let n = bucket_count(bounds);
    if counts.len() < n {
        return Err(Refusal::LentShort);
    }
    rows::zero(counts, 0, n);
    Ok(Head {
        count: 0,
        min: 1.7976931348623157e308,
        max: -1.7976931348623157e308,
        sum: 0.0,
    })
}

// ---- agreement

// Whether the first n counts total count.
fn adds_up(count: u64, counts: &[u64], n: usize) -> bool
    requires { (n ≤ length counts.now) × (n ≤ most_size) }
    ensures { result ≡ eqb (total (take n counts.now)) count }
{
    let none = Halves { low: 0, high: 0 };
    let s = exponential::sum_halves(counts, n, none);
    if count % 4294967296 != s.low % 4294967296 {
        return false;
    }
    count / 4294967296 == s.high + s.low / 4294967296
}

// Whether bounds, count and counts agree: bounds that pass, counts that are lent and, where there are buckets, total count.
pub fn buckets_agree(bounds: &[f64], count: u64, counts: &[u64]) -> bool
    ensures { result ≡ buckets_agree bounds.now (buckets_in bounds.now count counts.now) }
{
    if !bounds_pass(bounds) {
        return false;
    }
    let n = bucket_count(bounds);
    if counts.len() < n {
        return false;
    }
    if n == 0 {
        return true;
    }
    adds_up(count, counts, n)
}

// ---- recording

// One more in the bucket of v, if there are buckets.
pub fn count_in(bounds: &[f64], counts: &mut [u64], v: f64)
    requires bounds_in_bounds { bucket_count bounds.now ≤ length counts.old }
    requires counts_bound { total (take (bucket_count bounds.now) counts.old) < most_count }
    ensures { counts.new
        ≡ over (record_bucket bounds.now (buckets_in bounds.now 0 counts.old) v).counts counts.old }
{
    if bounds.len() == 0 {
        return;
    }
    let k = bucket_of(bounds, v);
    counts[k] += 1;
}

// Whether a value can be recorded, or why not.
pub fn refusal(bounds: &[f64], head: Head, counts: &[u64], v: f64) -> Result<(), Refusal>
    ensures { code result ≡ refusal_of bounds.now head counts.now v }
{
    if counts.len() < bucket_count(bounds) {
        return Err(Refusal::LentShort);
    }
    if !floats::is_finite(v) {
        return Err(Refusal::NotFinite);
    }
    if !buckets_agree(bounds, head.count, counts) {
        return Err(Refusal::Disagrees);
    }
    if !floats::is_finite(head.min) {
        return Err(Refusal::Disagrees);
    }
    if !floats::is_finite(head.max) {
        return Err(Refusal::Disagrees);
    }
    if head.count >= u64::MAX {
        return Err(Refusal::Full);
    }
    Ok(())
}

// Records a value into the series and returns its head then, or refuses it: 12 where the row lent is too short, 6 where the value is not
// finite, 8 where the series or its bounds disagree, 9 where its count is full.
pub fn record(bounds: &[f64], head: Head, counts: &mut [u64], v: f64) -> Result<Head, Refusal>
    ensures { outcome (said result) counts.new ≡ recording bounds.now head counts.old v }
{
    refusal(bounds, head, counts, v)?;
    count_in(bounds, counts, v);
    let least = head.min.lesser(v);
    let greatest = head.max.greater(v);
    Ok(Head {
        count: head.count + 1,
        min: least,
        max: greatest,
        sum: head.sum + v,
    })
}

// ---- merging

// The first n counts of two rows added, over what is lent.
pub fn add_counts(a: &[u64], b: &[u64], n: usize, out: &mut [u64])
    requires { Addable n a.now b.now × (n ≤ length out.old) }
    ensures { out.new ≡ over (added (take n a.now) (take n b.now)) out.old }
{
    for i in 0..n {
        out[i] = a[i] + b[i];
    }
}
