// One value added to a series: its class, then its place in the row of its sign, both rows lowered where that needs it.
ghost use Rattle.std.specs.Prelude.{◌≡◌, ◌+◌, ◌^◌, ◌<◌, ◌≤◌, length, take};
ghost use Rattle.index.specs.Answers.{bin_of};
ghost use Rattle.laws.specs.Counting.{total, most_count};
ghost use Rattle.laws.specs.Pick.{pick};
ghost use Rattle.exponential.specs.Steps.{lowered, with1, low_bin, high_bin, lowering, placed};
ghost use Rattle.exponential.specs.Series.{row_in, read};
ghost use Rattle.exponential.specs.Inner.{Laid, Written, class_at, signed, value_of, lower_by, row_to, row_other, Room, one_more, Beside, Tried, Ready};

use crate::{Class, Counts, Moved};
use rows::Row;

// How many levels lower a row of n counts from start on, and one more at bin, are at most size counts.
fn needed(size: usize, row: Row, bin: u32) -> u32
    requires { (0 < size) × (row.start + row.len < 2 ^ 32) }
    ensures { result ≡ lowering size (low_bin row.start row.len bin) (high_bin row.start row.len bin) }
{
    let n = row.len;
    let start = row.start;
    if n == 0 {
        return rows::scale_change(bin, bin, size);
    }
    let last = start + (n - 1) as u32;
    let lo = start.min(bin);
    let hi = last.max(bin);
    rows::scale_change(lo, hi, size)
}

// A row k levels lower, and one more at bin.
fn place(counts: &mut [u64], row: Row, k: u32, bin: u32) -> Row
    requires len_in_bounds { (row.len ≤ length counts.old) × (k < 32) }
    requires counts_bound { total (take row.len counts.old) + 1 < 2 ^ 64 }
    requires bin_in_bounds { length (with1 (lowered k (row_in row counts.old)) bin).counts ≤ length counts.old }
    ensures { Laid (with1 (lowered k (row_in row counts.old)) bin) counts.old result counts.new }
{
    let low = crate::lower(counts, row, k);
    rows::record(counts, low, bin)
}

// One more at bin in the row of a; both rows as many levels lower as that needs.
fn put(size: usize, a: &mut [u64], to: Row, b: &mut [u64], other: Row, bin: u32) -> Moved
    requires { Room size to a.old other b.old bin }
    ensures k_value { result.k ≡ lower_by size to a.old bin }
    ensures laid { Laid (row_to size to a.old bin) a.old result.to a.new }
    ensures laid_2 { Laid (row_other size to a.old other b.old bin) b.old result.other b.new }
{
    let k = needed(size, to, bin);
    let new = place(a, to, k, bin >> k);
    let low = crate::lower(b, other, k);
    Moved {
        k,
        to: new,
        other: low,
    }
}

// What the index tells of a value at a level.
pub fn class_of(v: f64, level: u32) -> Class
    ensures { result ≡ class_at (bin_of v level) }
{
    let b = index::get_bin(v, level);
    match b {
        index::Bin::NoLevel => Class::Naught,
        index::Bin::NotFinite => Class::Naught,
        index::Bin::Zero => Class::Naught,
        index::Bin::At { negative, bin } => Class::At { negative, bin },
    }
}

// One value more that is not zero, the rows k levels lower.
fn one_more(c: Counts, k: u32, pos: Row, neg: Row) -> Counts
    requires { (c.count < most_count) × (k ≤ c.level) }
    ensures { result ≡ one_more c k pos neg }
{
    Counts {
        count: c.count + 1,
        zeros: c.zeros,
        level: c.level - k,
        pos,
        neg,
    }
}

// The row of a sign.
fn signed_row(negative: bool, pos: Row, neg: Row) -> Row
    ensures { result ≡ pick negative neg pos }
{
    if negative {
        return neg;
    }
    pos
}

// One more at bin where the row of its sign has it, and whether it has: most values of a warm series fall so. The signs of values are random, so
// none is asked: one is added to the one row, and none to the other.
fn raise(p: Row, n: Row, pos: &mut [u64], neg: &mut [u64], negative: bool, bin: u32) -> bool
    requires { Beside p pos.old n neg.old }
    ensures { Tried negative p n bin result pos.old neg.old pos.new neg.new }
{
    let row = signed_row(negative, p, n);
    let start = row.start;
    if bin < start {
        return false;
    }
    let k = (bin - start) as usize;
    if row.len <= k {
        return false;
    }
    let m = u64::from(negative);
    pos[k] += 1 - m;
    neg[k] += m;
    true
}

// One more at bin in the row of its sign, both rows as many levels lower as that needs.
fn place_at(
    size: usize,
    top: u32,
    c: Counts,
    pos: &mut [u64],
    neg: &mut [u64],
    negative: bool,
    bin: u32,
) -> Counts
    requires { Ready size top c pos.old neg.old (Class.At negative bin) }
    ensures { Written (placed size (read c pos.old neg.old) (signed negative bin))
        pos.old neg.old result pos.new neg.new }
{
    let p = c.pos;
    let n = c.neg;
    if negative {
        let w = put(size, neg, n, pos, p, bin);
        let to = w.to;
        let other = w.other;
        return one_more(c, w.k, other, to);
    }
    let w = put(size, pos, p, neg, n, bin);
    let to = w.to;
    let other = w.other;
    one_more(c, w.k, to, other)
}

// One value more: a row that has its bin stays where it is, and so does the other.
pub fn add(
    size: usize,
    top: u32,
    c: Counts,
    pos: &mut [u64],
    neg: &mut [u64],
    class: Class,
) -> Counts
    requires { Ready size top c pos.old neg.old class }
    ensures { Written (placed size (read c pos.old neg.old) (value_of class))
        pos.old neg.old result pos.new neg.new }
{
    let p = c.pos;
    let n = c.neg;
    match class {
        Class::Naught => Counts {
            count: c.count + 1,
            zeros: c.zeros + 1,
            level: c.level,
            pos: p,
            neg: n,
        },
        Class::At { negative, bin } => {
            if raise(p, n, pos, neg, negative, bin) {
                return one_more(c, 0, p, n);
            }
            place_at(size, top, c, pos, neg, negative, bin)
        }
    }
}
