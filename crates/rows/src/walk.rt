// The walk of a row that is lowered, from group to group of neighbours: each group becomes one count.
ghost use Rattle.std.specs.Prelude.{◌≡◌, ◌+◌, ◌*◌, ◌/◌, ◌%◌, ◌^◌, ◌<◌, ◌≤◌, length, take};
ghost use Rattle.laws.specs.Counting.{total};
ghost use Rattle.rows.specs.Rows.{over, downscaled};
ghost use Rattle.rows.specs.Parts.{part};
ghost use Rattle.rows.specs.Groups.{gathered, Gatherable};

// How many counts are a group, delta levels lower.
fn width_of(delta: u32) -> usize
    requires { delta < 32 }
    ensures { result ≡ 2 ^ delta }
{
    1usize << delta
}

// How many counts a row that starts at start has of its first group at most.
fn first_end(start: u32, width: usize, delta: u32) -> usize
    requires { (delta < 32) × (width ≡ 2 ^ delta) }
    ensures { start + result ≡ (start / 2 ^ delta + 1) * 2 ^ delta }
{
    ((start >> delta) as usize + 1) * width - start as usize
}

// The counts from i up to e together.
fn part_total(counts: &[u64], i: usize, e: usize) -> u64
    requires { (i ≤ e) × (e ≤ length counts.now) × (total (part counts.now i e) < 2 ^ 64) }
    ensures { result ≡ total (part counts.now i e) }
{
    let mut sum: u64 = 0;
    for &x in &counts[i..e] {
        sum += x;
    }
    sum
}

// The two counts from i on together, and the four.
fn two_total(counts: &[u64], i: usize) -> u64
    requires { (i + 2 ≤ length counts.now) × (total (part counts.now i (i + 2)) < 2 ^ 64) }
    ensures { result ≡ total (part counts.now i (i + 2)) }
{
    counts[i] + counts[i + 1]
}

fn four_total(counts: &[u64], i: usize) -> u64
    requires { (i + 4 ≤ length counts.now) × (total (part counts.now i (i + 4)) < 2 ^ 64) }
    ensures { result ≡ total (part counts.now i (i + 4)) }
{
    let a = two_total(counts, i);
    let b = two_total(counts, i + 2);
    a + b
}

// A whole group of four counts or more together, four a turn: one a turn, LLVM's loop costs more to enter than a short group has counts.
fn group_total(counts: &[u64], i: usize, width: usize) -> u64
    requires width_nonzero { (0 < width) × (width % 4 ≡ 0) }
    requires width_in_bounds { (i + width ≤ length counts.now) × (total (part counts.now i (i + width)) < 2 ^ 64) }
    ensures { result ≡ total (part counts.now i (i + width)) }
{
    let mut sum = four_total(counts, i);
    let mut j: usize = 4;
    while j < width {
        let more = four_total(counts, i + j);
        sum += more;
        j += 4;
    }
    sum
}

// m groups of two from i on, laid behind the first count, two a turn: LLVM adds both at once.
fn pairs(counts: &mut [u64], i: usize, m: usize)
    requires { Gatherable 2 1 i m counts.old }
    ensures { counts.new ≡ gathered 2 1 i m counts.old }
{
    let mut k: usize = 0;
    let mut j = i;
    let mut left = m;
    while 2 <= left {
        let a = two_total(counts, j);
        let b = two_total(counts, j + 2);
        counts[k + 1] = a;
        counts[k + 2] = b;
        k += 2;
        j += 4;
        left -= 2;
    }
    if left == 0 {
        return;
    }
    let a = two_total(counts, j);
    counts[k + 1] = a;
}

// m groups of four counts or more from i on, laid so too.
fn wide_groups(counts: &mut [u64], i: usize, m: usize, width: usize)
    requires width_nonzero { (0 < width) × (width % 4 ≡ 0) }
    requires gatherable { Gatherable width 1 i m counts.old }
    ensures { counts.new ≡ gathered width 1 i m counts.old }
{
    let mut j = i;
    for k in 0..m {
        let x = group_total(counts, j, width);
        counts[k + 1] = x;
        j += width;
    }
}

// The m whole groups from i on, laid behind the first count.
fn whole_groups(counts: &mut [u64], i: usize, m: usize, width: usize, delta: u32)
    requires delta_nonzero { (0 < delta) × (width ≡ 2 ^ delta) }
    requires gatherable { Gatherable width 1 i m counts.old }
    ensures { counts.new ≡ gathered width 1 i m counts.old }
{
    if delta == 1 {
        pairs(counts, i, m);
        return;
    }
    wide_groups(counts, i, m, width);
}

// Lowers the row of the first n counts, which starts at start: the first group, which may be cut, the whole ones, and the rest. Each count is read
// once, and each group's total is written once, at its first count or before it. Returns how many counts the row has then.
pub fn lower(counts: &mut [u64], start: u32, n: usize, delta: u32) -> usize
    requires n_in_bounds { (n ≤ length counts.old) × (delta < 32) }
    requires counts_bound { total (take n counts.old) < 2 ^ 64 }
    ensures value { result ≡ length (downscaled delta start (take n counts.old)) }
    ensures counts_after { counts.new ≡ over (downscaled delta start (take n counts.old)) counts.old }
{
    if delta == 0 {
        return n;
    }
    if n == 0 {
        return 0;
    }
    let width = width_of(delta);
    let first = first_end(start, width, delta);
    if n <= first {
        let x = part_total(counts, 0, n);
        counts[0] = x;
        return 1;
    }
    let x = part_total(counts, 0, first);
    counts[0] = x;
    let m = (n - first) >> delta;
    whole_groups(counts, first, m, width, delta);
    let i = first + m * width;
    if i == n {
        return m + 1;
    }
    let y = part_total(counts, i, n);
    counts[m + 1] = y;
    m + 2
}
