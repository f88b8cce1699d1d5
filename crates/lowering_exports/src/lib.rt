// Calls for bench/: a row lowered by the walk from group to group, and by halving it over and over. What they require is the driver's to keep.
#![tactic(auto)]

ghost use Rattle.std.specs.Prelude.{◌≡◌, ◌^◌, ◌<◌, ◌≤◌, length, take};
ghost use Rattle.laws.specs.Counting.{total};
ghost use Rattle.rows.specs.Rows.{over, downscaled};
ghost use Rattle.halving.specs.Plain.{plain_counts};
ghost use Rattle.halving.specs.Inner.{plain_over};

use rows::Row;

// The row of the first n counts, which starts at start, delta levels lower: how many counts it has then.
#[unsafe(no_mangle)]
pub extern "C" fn lower_by_walk(counts: &mut [u64], n: usize, start: u32, delta: u32) -> usize
    requires n_in_bounds { n ≤ length counts.old }
    requires delta_bound { delta < 32 }
    requires counts_bound { total (take n counts.old) < 2 ^ 64 }
    ensures value { result ≡ length (downscaled delta start (take n counts.old)) }
    ensures counts_after { counts.new ≡ over (downscaled delta start (take n counts.old)) counts.old }
{
    let row = rows::downscale(counts, start, n, delta);
    row.len
}

// The same by halving.
#[unsafe(no_mangle)]
pub extern "C" fn lower_by_halves(counts: &mut [u64], n: usize, start: u32, delta: u32) -> usize
    requires { (n ≤ length counts.old) × (total (take n counts.old) < 2 ^ 64) }
    ensures value { result ≡ length (plain_counts delta start (take n counts.old)) }
    ensures counts_after { take result counts.new ≡ plain_counts delta start (take n counts.old) }
    ensures counts_after_2 { counts.new ≡ plain_over delta start n counts.old }
{
    let row = halving::downscale(counts, start, n, delta);
    row.len
}
