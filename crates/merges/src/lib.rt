// Two series of the exponential kind merged into lent rows.
#![tactic(auto)]

ghost use Rattle.std.specs.Prelude.{◌≡◌, ◌+◌, ◌-◌, ◌/◌, ◌^◌, ◌<◌, ◌≤◌, pred, length, take, replicate, ◌++◌};
ghost use Rattle.rows.specs.Rows.{over};
ghost use Rattle.laws.specs.Counting.{total};
ghost use Rattle.exponential.specs.Steps.{lowered};
ghost use Rattle.exponential.specs.Series.{row_in};
ghost use Rattle.exponential.specs.Inner.{Laid, Written};
ghost use Rattle.index.specs.Bins.{finest};
ghost use Rattle.merges.specs.Merges.{add_low, joined, Joinable, Lendable, Layable, low_end, high_end, joined_len};
ghost use Rattle.merges.specs.Merges.{span_of, common, rows_low, plan_of, Agreeing, merged_point, Roomy};

use exponential::Counts;
use rows::Row;

// ---- the level

// The bins of a row run to this one.
fn last_bin(row: Row) -> u32
    requires { row.start + row.len < 2 ^ 32 }
    ensures { result ≡ row.start + pred row.len }
{
    let n = row.len;
    let start = row.start;
    if n == 0 {
        return start;
    }
    start + (n - 1) as u32
}

#[derive(Clone, Copy)]
pub struct Ends {
    pub lo: u32,
    pub hi: u32,
}

// The ends of two rows joined, the first j levels lower and the second k.
fn ends_of(a: Row, j: u32, b: Row, k: u32) -> Ends
    requires len_bound { (a.start + a.len < 2 ^ 32) × (b.start + b.len < 2 ^ 32) }
    requires j_bound { (j < 32) × (k < 32) }
    ensures { (result.lo ≡ low_end a j b k) × (result.hi ≡ high_end a j b k) }
{
    let n = a.len;
    let m = b.len;
    let lo = a.start >> j;
    let hi = last_bin(a) >> j;
    if m == 0 {
        return Ends { lo, hi };
    }
    let least = b.start >> k;
    let most = last_bin(b) >> k;
    if n == 0 {
        return Ends {
            lo: least,
            hi: most,
        };
    }
    let low = lo.min(least);
    let high = hi.max(most);
    Ends { lo: low, hi: high }
}

// How many levels lower still the joined row is at most size counts.
fn span(size: usize, a: Row, j: u32, b: Row, k: u32) -> u32
    requires size_nonzero { 0 < size }
    requires len_bound { (a.start + a.len < 2 ^ 32) × (b.start + b.len < 2 ^ 32) }
    requires j_bound { (j < 32) × (k < 32) }
    ensures { result ≡ span_of size a j b k }
{
    let e = ends_of(a, j, b, k);
    rows::scale_change(e.lo, e.hi, size)
}

// How many counts two rows have, joined at j and k levels lower. It refuses nothing.
pub fn joined_len(a: Row, j: u32, b: Row, k: u32) -> usize
    requires len_bound { (a.start + a.len < 2 ^ 32) × (b.start + b.len < 2 ^ 32) }
    requires j_bound { (j < 32) × (k < 32) }
    ensures { result ≡ joined_len a j b k }
{
    let n = a.len;
    let m = b.len;
    if n + m == 0 {
        return 0;
    }
    let e = ends_of(a, j, b, k);
    (e.hi - e.lo) as usize + 1
}

// The level of the merged series, and how many levels lower that is than either's.
#[derive(Clone, Copy)]
pub struct Plan {
    pub level: u32,
    pub first: u32,
    pub second: u32,
}

// At which level two series' rows are at most size counts once merged, and how many levels either falls. It refuses nothing.
pub fn plan_of(size: usize, a: Counts, b: Counts) -> Plan
    requires size_nonzero { (0 < size) × (a.level ≤ finest) × (b.level ≤ finest) }
    requires len_bound { (a.pos.start + a.pos.len < 2 ^ 32) × (b.pos.start + b.pos.len < 2 ^ 32) }
    requires len_bound_2 { (a.neg.start + a.neg.len < 2 ^ 32) × (b.neg.start + b.neg.len < 2 ^ 32) }
    requires b_bound { rows_low size a b ≤ common a b }
    ensures { result ≡ plan_of size a b }
{
    let la = a.level;
    let lb = b.level;
    let l = la.min(lb);
    let ap = a.pos;
    let an = a.neg;
    let bp = b.pos;
    let bn = b.neg;
    let p = span(size, ap, la - l, bp, lb - l);
    let n = span(size, an, la - l, bn, lb - l);
    let low = p.max(n);
    let level = l - low;
    Plan {
        level,
        first: la - level,
        second: lb - level,
    }
}

// ---- rows

// The counts of another row from bin t on, added k levels lower to the row of n counts from bin s on. Returns its length then.
fn add_low(counts: &mut [u64], n: usize, s: u32, other: &[u64], t: u32, m: usize, k: u32) -> usize
    requires n_in_bounds { (n ≤ length counts.old) × (m ≤ length other.now) }
    requires k_bound { (k < 32) × (s ≤ t / 2 ^ k) }
    requires s_in_bounds { (t + (m - 1)) / 2 ^ k - s < length counts.old }
    requires other_bound { total (take n counts.old) + total (take m other.now) < 2 ^ 64 }
    ensures value { result ≡ length (add_low k s t (take m other.now) (take n counts.old)) }
    ensures counts_after { counts.new ≡ over (add_low k s t (take m other.now) (take n counts.old)) counts.old }
{
    let first = s as u64;
    let mut index = t as u64;
    let mut len = n;
    for x in &other[..m] {
        len = rows::add_at(counts, len, ((index >> k) - first) as usize, *x);
        index += 1;
    }
    len
}

// k zeros in front of the row of n counts.
fn widen(counts: &mut [u64], n: usize, k: usize)
    requires { n + k ≤ length counts.old }
    ensures { counts.new ≡ over (replicate k 0 ++ take n counts.old) counts.old }
{
    rows::shift(counts, n, k);
    rows::zero(counts, 0, k);
}

// The row of b, k levels lower, joined to the row of a.
fn join(a: &mut [u64], row: Row, b: &[u64], other: Row, k: u32) -> Row
    requires { Joinable row a.old other k b.now }
    ensures { Laid (joined (row_in row a.old) (lowered k (row_in other b.now))) a.old result a.new }
{
    let m = other.len;
    let t = other.start;
    if m == 0 {
        return row;
    }
    let first = t >> k;
    let n = row.len;
    let s = row.start;
    if n == 0 {
        let len = add_low(a, 0, first, b, t, m, k);
        return Row { start: first, len };
    }
    if first < s {
        let more = (s - first) as usize;
        widen(a, n, more);
        let len = add_low(a, n + more, first, b, t, m, k);
        return Row { start: first, len };
    }
    let len = add_low(a, n, s, b, t, m, k);
    Row { start: s, len }
}

// The row of a, j levels lower, laid over what is lent.
fn lay(out: &mut [u64], a: &[u64], row: Row, j: u32) -> Row
    requires { Layable row j a.now out.old }
    ensures { Laid (lowered j (row_in row a.now)) out.old result out.new }
{
    join(out, Row { start: 0, len: 0 }, a, row, j)
}

// The rows of a, j levels lower, and of b, k levels lower, joined over what is lent.
fn join_to(out: &mut [u64], a: &[u64], row: Row, j: u32, b: &[u64], other: Row, k: u32) -> Row
    requires { Lendable row j a.now other k b.now out.old }
    ensures { Laid (joined (lowered j (row_in row a.now)) (lowered k (row_in other b.now)))
        out.old result out.new }
{
    let first = lay(out, a, row, j);
    join(out, first, b, other, k)
}

// ---- two series

// Both series merged by their plan into lent rows that have room: the counts of what lies there then. It refuses nothing.
pub fn merge_to(
    size: usize,
    to: Plan,
    a: Counts,
    apos: &[u64],
    aneg: &[u64],
    b: Counts,
    bpos: &[u64],
    bneg: &[u64],
    pos: &mut [u64],
    neg: &mut [u64],
) -> Counts
    requires agreeing { Agreeing size a apos.now aneg.now b bpos.now bneg.now }
    requires to_value { to ≡ plan_of size a b }
    requires roomy { Roomy (merged_point size a apos.now aneg.now b bpos.now bneg.now) pos.old neg.old }
    ensures { Written (merged_point size a apos.now aneg.now b bpos.now bneg.now)
        pos.old neg.old result pos.new neg.new }
{
    let ap = a.pos;
    let an = a.neg;
    let bp = b.pos;
    let bn = b.neg;
    let p = join_to(pos, apos, ap, to.first, bpos, bp, to.second);
    let n = join_to(neg, aneg, an, to.first, bneg, bn, to.second);
    Counts {
        count: a.count + b.count,
        zeros: a.zeros + b.zeros,
        level: to.level,
        pos: p,
        neg: n,
    }
}
