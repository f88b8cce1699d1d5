// The explicit kind's part of the map: recording a value into the series of one slot of the lent stores.
#![tactic(auto)]

ghost use Rattle.std.specs.Prelude.{◌≡◌, true, ◌+◌, ◌*◌, ◌<◌, ◌≤◌, length};
ghost use Rattle.std.specs.Float.Ieee.Scale.{finite};
ghost use Rattle.rows.specs.Recording.{after};
ghost use Rattle.points.specs.Explicit.{bucket_count};
ghost use Rattle.refusals.specs.Refusals.{code, said};
ghost use Rattle.explicit.specs.Series.{outcome};
ghost use Rattle.explicit_slots.specs.Cells.{cells, recorded_at};
ghost use Rattle.explicit_slots.specs.Inner.{begun, entering};

use explicit::Head;
use refusals::Refusal;

// A value recorded into a series without values, whatever lies in its row.
fn first(bounds: &[f64], counts: &mut [u64], v: f64) -> Result<Head, Refusal>
    requires { bucket_count bounds.now ≤ length counts.old }
    ensures { outcome (said result) counts.new ≡ begun bounds.now counts.old v }
{
    let head = explicit::fresh(bounds, counts)?;
    explicit::record(bounds, head, counts, v)
}

// A value recorded into a series, or into a fresh one where the entry was not updated.
fn enter(
    bounds: &[f64],
    updated: bool,
    head: Head,
    counts: &mut [u64],
    v: f64,
) -> Result<Head, Refusal>
    requires { bucket_count bounds.now ≤ length counts.old }
    ensures { outcome (said result) counts.new ≡ entering bounds.now updated head counts.old v }
{
    if updated {
        return explicit::record(bounds, head, counts, v);
    }
    if !explicit::bounds_pass(bounds) {
        return Err(Refusal::Disagrees);
    }
    first(bounds, counts, v)
}

// Records a finite value into slot x, which holds a series where it was updated; or refuses it: 8 where the series or the
// bounds disagree, 9 where its count is full.
pub fn record(
    bounds: &[f64],
    x: usize,
    updated: bool,
    totals: &mut [u64],
    extremes: &mut [[f64; 3]],
    counts: &mut [u64],
    v: f64,
) -> Result<(), Refusal>
    requires { (x < length totals.old) × (x < length extremes.old)
        × (x * bucket_count bounds.now + bucket_count bounds.now ≤ length counts.old) × (finite v ≡ true) }
    ensures { after (code result) (cells totals.new extremes.new counts.new)
        ≡ recorded_at bounds.now x updated (cells totals.old extremes.old counts.old) v }
{
    let n = explicit::bucket_count(bounds);
    let a = x * n;
    let e = a + n;
    let held = Head {
        count: totals[x],
        min: extremes[x][0],
        max: extremes[x][1],
        sum: extremes[x][2],
    };
    let head = enter(bounds, updated, held, &mut counts[a..e], v)?;
    totals[x] = head.count;
    extremes[x] = [head.min, head.max, head.sum];
    Ok(())
}
