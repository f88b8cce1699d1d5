// The explicit kind's part of the map over i64: recording a value into the series of one slot of the lent stores.
#![tactic(auto)]

ghost use Rattle.std.specs.Prelude.{◌≡◌, true, ◌+◌, ◌*◌, ◌<◌, ◌≤◌, length};
ghost use Rattle.rows.specs.Recording.{after};
ghost use Rattle.points.specs.Explicit.{bucket_count};
ghost use Rattle.laws.specs.Said.{number};
ghost use Rattle.refusals.specs.Refusals.{code, said};
ghost use Rattle.explicit_wholes.specs.Series.{outcome};
ghost use Rattle.explicit_whole_slots.specs.Cells.{cells, head_with, totals_after, extremes_after, begun, entering, recorded_at};

use explicit_wholes::Head;
use refusals::Refusal;

// The head of a count and a slot's three numbers.
fn head_with(count: u64, m: [i64; 3]) -> Head
    ensures { result ≡ head_with count m }
{
    Head {
        count,
        min: m[0],
        max: m[1],
        sum: m[2],
    }
}

// A value recorded into a series without values, whatever lies in its row.
fn first(bounds: &[f64], sums: bool, counts: &mut [u64], v: i64) -> Result<Head, Refusal>
    requires { bucket_count bounds.now ≤ length counts.old }
    ensures { outcome (said result) counts.new ≡ begun bounds.now sums counts.old v }
{
    let head = explicit_wholes::fresh(bounds, counts)?;
    explicit_wholes::record(bounds, sums, head, counts, v)
}

// A value recorded into a series, or into a fresh one where the entry was not updated.
fn enter(
    bounds: &[f64],
    sums: bool,
    updated: bool,
    head: Head,
    counts: &mut [u64],
    v: i64,
) -> Result<Head, Refusal>
    requires { bucket_count bounds.now ≤ length counts.old }
    ensures { outcome (said result) counts.new ≡ entering bounds.now sums updated head counts.old v }
{
    if updated {
        return explicit_wholes::record(bounds, sums, head, counts, v);
    }
    if !explicit::bounds_pass(bounds) {
        return Err(Refusal::Disagrees);
    }
    first(bounds, sums, counts, v)
}

// The new head written into the slot, or the refusal.
fn keep(
    x: usize,
    totals: &mut [u64],
    extremes: &mut [[i64; 3]],
    got: Result<Head, Refusal>,
) -> Result<(), Refusal>
    requires { (x < length totals.old) × (x < length extremes.old) }
    ensures value { code result ≡ number (said got) }
    ensures totals_after { totals.new ≡ totals_after x totals.old (said got) }
    ensures extremes_after { extremes.new ≡ extremes_after x extremes.old (said got) }
{
    let h = got?;
    totals[x] = h.count;
    extremes[x] = [h.min, h.max, h.sum];
    Ok(())
}

// Records a value into slot x, which holds a series where it was updated; or refuses it: 8 where the series or the bounds
// disagree, 9 where its count is full, 16 where its sum would leave i64.
pub fn record(
    bounds: &[f64],
    sums: bool,
    x: usize,
    updated: bool,
    totals: &mut [u64],
    extremes: &mut [[i64; 3]],
    counts: &mut [u64],
    v: i64,
) -> Result<(), Refusal>
    requires { (x < length totals.old) × (x < length extremes.old)
        × (x * bucket_count bounds.now + bucket_count bounds.now ≤ length counts.old) }
    ensures { after (code result) (cells totals.new extremes.new counts.new)
        ≡ recorded_at bounds.now sums x updated (cells totals.old extremes.old counts.old) v }
{
    let n = explicit::bucket_count(bounds);
    let a = x * n;
    let e = a + n;
    let held = head_with(totals[x], extremes[x]);
    let got = enter(bounds, sums, updated, held, &mut counts[a..e], v);
    keep(x, totals, extremes, got)
}
