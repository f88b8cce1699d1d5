// A row lowered the plain way, halved over and over: what `rows::downscale` is proved equal to and measured against. For bench/ only.
#![tactic(auto)]

ghost use Rattle.std.specs.Prelude.{◌≡◌, ◌^◌, ◌<◌, ◌≤◌, length, take};
ghost use Rattle.laws.specs.Counting.{total};
ghost use Rattle.rows.specs.Rows.{over};
ghost use Rattle.halving.specs.Plain.{halved_once, plain_start, plain_counts};
ghost use Rattle.halving.specs.Inner.{plain_over};

use rows::Row;

// Halves the row of the first n counts, which starts at start, in place. Returns how many counts it has then.
fn halve(counts: &mut [u64], start: u32, n: usize) -> usize
    requires { (n ≤ length counts.old) × (total (take n counts.old) < 2 ^ 64) }
    ensures value { result ≡ length (halved_once start (take n counts.old)) }
    ensures counts_after { counts.new ≡ over (halved_once start (take n counts.old)) counts.old }
{
    if n == 0 {
        return 0;
    }
    let mut i = (start % 2) as usize;
    let mut len = i;
    while i + 1 < n {
        counts[len] = counts[i] + counts[i + 1];
        len += 1;
        i += 2;
    }
    if i == n {
        return len;
    }
    counts[len] = counts[i];
    len + 1
}

// Lowers the row by delta levels, in place, and returns the row then.
pub fn downscale(counts: &mut [u64], start: u32, n: usize, delta: u32) -> Row
    requires { (n ≤ length counts.old) × (total (take n counts.old) < 2 ^ 64) }
    ensures start_value { result.start ≡ plain_start delta start }
    ensures len_value { result.len ≡ length (plain_counts delta start (take n counts.old)) }
    ensures counts_after { take result.len counts.new ≡ plain_counts delta start (take n counts.old) }
    ensures counts_after_2 { counts.new ≡ plain_over delta start n counts.old }
{
    let mut s = start;
    let mut len = n;
    for _ in 0..delta {
        len = halve(counts, s, len);
        s = s / 2;
    }
    Row { start: s, len }
}
