// One series of the exponential kind, `ExpoHistogramDataPoint` of exponential_histogram.rs: a head by value, and its rows of
// counts at the front of two lent slices.
#![tactic(auto)]

mod adding;
mod sums;

ghost use Rattle.std.specs.Prelude.{◌≡◌, ◌+◌, ◌*◌, ◌^◌, ◌<◌, ◌≤◌, length, take};
ghost use Rattle.laws.specs.Counting.{total};
ghost use Rattle.exponential.specs.Steps.{lowered};
ghost use Rattle.laws.specs.Pick.{pick};
ghost use Rattle.floats.specs.Starts.{zero_float};
ghost use Rattle.points.specs.Points.{record1};
ghost use Rattle.points.specs.Values.{class_of};
ghost use Rattle.exponential.specs.Runs.{fresh_head};
ghost use Rattle.exponential.specs.Series.{most_size, size_passes, row_in, read, agrees};
ghost use Rattle.exponential.specs.Inner.{Laid, Written, row_agrees, halved, adds_up};
ghost use Rattle.exponential.specs.Series.{refusal_of, outcome, recording};
ghost use Rattle.refusals.specs.Refusals.{code, said};

use numbers::Number;
use refusals::Refusal;
use rows::Row;

// The least and the greatest max_size that can be configured.
pub const LEAST_SIZE: usize = 3;

pub const MOST_SIZE: usize = 160;

#[derive(Clone, Copy)]
pub struct Counts {
    pub count: u64,
    pub zeros: u64,
    pub level: u32,
    pub pos: Row,
    pub neg: Row,
}

#[derive(Clone, Copy)]
pub struct Head {
    pub counts: Counts,
    pub min: f64,
    pub max: f64,
    pub sum: f64,
}

// The head of a series that has counted nothing.
pub fn fresh(top: u32) -> Head
    ensures { result ≡ fresh_head top }
{
    Head {
        counts: Counts {
            count: 0,
            zeros: 0,
            level: top,
            pos: Row { start: 0, len: 0 },
            neg: Row { start: 0, len: 0 },
        },
        min: 1.7976931348623157e308,
        max: -1.7976931348623157e308,
        sum: 0.0,
    }
}

// The row of a sign: a part of the one lent slice or of the other, as much of it as is lent.
pub fn row_of<'a>(c: Counts, negative: bool, pos: &'a [u64], neg: &'a [u64]) -> &'a [u64]
    ensures { result.now ≡ pick negative (take c.neg.len neg.now) (take c.pos.len pos.now) }
{
    let p = c.pos;
    let n = c.neg;
    let i = p.len.min(pos.len());
    let j = n.len.min(neg.len());
    if negative { &neg[0..j] } else { &pos[0..i] }
}

// ---- agreement

// A row at a level whose bins run from low to the one before end.
fn row_agrees(counts: &[u64], row: Row, size: usize, low: u32, end: u64) -> bool
    ensures { result ≡ row_agrees size low end row counts.now }
{
    let n = row.len;
    let start = row.start;
    if n == 0 {
        return start == 0;
    }
    if size < n {
        return false;
    }
    if counts.len() < n {
        return false;
    }
    if start < low {
        return false;
    }
    if end < start as u64 + n as u64 {
        return false;
    }
    if counts[0] == 0 {
        return false;
    }
    counts[n - 1] != 0
}

// Two sums of counts: of their low and of their high 32 bits.
#[derive(Clone, Copy)]
pub struct Halves {
    pub low: u64,
    pub high: u64,
}

// The first n counts added to what is there, the low and the high halves apart: nothing can overflow.
pub fn sum_halves(counts: &[u64], n: usize, from: Halves) -> Halves
    requires n_in_bounds { (n ≤ length counts.now) × (n ≤ most_size) }
    requires low_bound { (from.low ≤ 200 * 4294967295) × (from.high ≤ 200 * 4294967295) }
    ensures value { result ≡ halved from (take n counts.now) }
    ensures low_bound_2 { (result.low ≤ from.low + n * 4294967295) × (result.high ≤ from.high + n * 4294967295) }
{
    let mut low = from.low;
    let mut high = from.high;
    for &x in &counts[..n] {
        low += x % 4294967296;
        high += x / 4294967296;
    }
    Halves { low, high }
}

// Whether count is zeros and the counts of both rows, whatever they are.
fn halves_add_up(c: Counts, pos: &[u64], neg: &[u64]) -> bool
    requires len_in_bounds { (c.pos.len ≤ length pos.now) × (c.pos.len ≤ most_size) }
    requires len_in_bounds_2 { (c.neg.len ≤ length neg.now) × (c.neg.len ≤ most_size) }
    ensures { result ≡ adds_up c pos.now neg.now }
{
    let p = c.pos;
    let n = c.neg;
    let zeros = c.zeros;
    let count = c.count;
    let z = Halves {
        low: zeros % 4294967296,
        high: zeros / 4294967296,
    };
    let a = sum_halves(pos, p.len, z);
    let s = sum_halves(neg, n.len, a);
    if count % 4294967296 != s.low % 4294967296 {
        return false;
    }
    count / 4294967296 == s.high + s.low / 4294967296
}

// The same. A number that no count is above and that is below 2^55 leaves 320 counts and zeros below 2^64.
fn adds_up(c: Counts, pos: &[u64], neg: &[u64]) -> bool
    requires len_in_bounds { (c.pos.len ≤ length pos.now) × (c.pos.len ≤ most_size) }
    requires len_in_bounds_2 { (c.neg.len ≤ length neg.now) × (c.neg.len ≤ most_size) }
    ensures { result ≡ adds_up c pos.now neg.now }
{
    let p = c.pos;
    let n = c.neg;
    let zeros = c.zeros;
    let count = c.count;
    let z = sums::Wrapped {
        sum: zeros,
        most: zeros,
    };
    let a = sums::add_row(pos, p.len, z);
    let s = sums::add_row(neg, n.len, a);
    if s.most < 36028797018963968 {
        return count == s.sum;
    }
    halves_add_up(c, pos, neg)
}

// Whether a max_size could be configured: from 3 to 160.
pub fn size_passes(size: usize) -> bool
    ensures { result ≡ size_passes size }
{
    if size < LEAST_SIZE {
        return false;
    }
    size <= MOST_SIZE
}

// Whether max_size, greatest level, counts and rows agree: `agrees`. It refuses nothing.
pub fn counts_agree(size: usize, top: u32, c: Counts, pos: &[u64], neg: &[u64]) -> bool
    ensures { result ≡ agrees size top c pos.now neg.now }
{
    if !size_passes(size) {
        return false;
    }
    if index::FINEST < top {
        return false;
    }
    let level = c.level;
    if top < level {
        return false;
    }
    let low = index::lowest_bin(level);
    let end = index::end_bin(level);
    let p = c.pos;
    let n = c.neg;
    if !row_agrees(pos, p, size, low, end) {
        return false;
    }
    if !row_agrees(neg, n, size, low, end) {
        return false;
    }
    adds_up(c, pos, neg)
}

// ---- the change of level

// A row k levels lower, in place, and the row then.
pub fn lower(counts: &mut [u64], row: Row, k: u32) -> Row
    requires len_in_bounds { (row.len ≤ length counts.old) × (k < 32) }
    requires counts_bound { total (take row.len counts.old) < 2 ^ 64 }
    ensures { Laid (lowered k (row_in row counts.old)) counts.old result counts.new }
{
    if k == 0 {
        return row;
    }
    let start = row.start;
    let n = row.len;
    rows::downscale(counts, start, n, k)
}

#[derive(Clone, Copy)]
pub struct Moved {
    pub k: u32,
    pub to: Row,
    pub other: Row,
}

// What is counted of a value: a zero, or its bin at the series' level in the row of its sign.
#[derive(Clone, Copy)]
pub enum Class {
    Naught,
    At { negative: bool, bin: u32 },
}

// ---- the call

// Whether a value can be recorded, or why not.
pub fn refusal(
    size: u32,
    top: u32,
    head: Head,
    pos: &[u64],
    neg: &[u64],
    v: f64,
) -> Result<(), Refusal>
    ensures { code result ≡ refusal_of size top head pos.now neg.now v }
{
    let n = size as usize;
    if pos.len() < n {
        return Err(Refusal::LentShort);
    }
    if neg.len() < n {
        return Err(Refusal::LentShort);
    }
    if !floats::is_finite(v) {
        return Err(Refusal::NotFinite);
    }
    let c = head.counts;
    if !counts_agree(n, top, c, pos, neg) {
        return Err(Refusal::Disagrees);
    }
    if !floats::is_finite(head.min) {
        return Err(Refusal::Disagrees);
    }
    if !floats::is_finite(head.max) {
        return Err(Refusal::Disagrees);
    }
    if c.count == u64::MAX {
        return Err(Refusal::Full);
    }
    Ok(())
}

// One value more, where `refusal` is none: what is counted then.
pub fn count_in(size: u32, top: u32, head: Head, pos: &mut [u64], neg: &mut [u64], v: f64) -> Counts
    requires { refusal_of size top head pos.old neg.old v ≡ 0 }
    ensures { Written (record1 size (read head.counts pos.old neg.old) (class_of zero_float v))
        pos.old neg.old result pos.new neg.new }
{
    let c = head.counts;
    let class = adding::class_of(v, c.level);
    let more = adding::add(size as usize, top, c, pos, neg, class);
    more
}

// Records a value into the series and returns its head then, or refuses it: 12 where a row lent is too short, 6 where the value is not
// finite, 8 where the series disagrees with itself or its settings, 9 where its count is full.
pub fn record(
    size: u32,
    top: u32,
    head: Head,
    pos: &mut [u64],
    neg: &mut [u64],
    v: f64,
) -> Result<Head, Refusal>
    ensures { outcome (said result) pos.new neg.new ≡ recording size top head pos.old neg.old v }
{
    refusal(size, top, head, pos, neg, v)?;
    let next = count_in(size, top, head, pos, neg, v);
    let least = head.min.lesser(v);
    let greatest = head.max.greater(v);
    Ok(Head {
        counts: next,
        min: least,
        max: greatest,
        sum: head.sum + v,
    })
}
