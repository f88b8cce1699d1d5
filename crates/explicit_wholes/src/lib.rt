// One series of the explicit kind over i64: a head by value beside the same row of counts as over f64. A value's bucket is that of the f64
// nearest to it, so its counts are recorded by crate `explicit`.
#![tactic(auto)]

ghost use Rattle.std.specs.Prelude.{◌≡◌};
ghost use Rattle.explicit_wholes.specs.Series.{under, outcome, freshening, recording};
ghost use Rattle.refusals.specs.Refusals.{said};

use numbers::Number;
use refusals::Refusal;

#[derive(Clone, Copy)]
pub struct Head {
    pub count: u64,
    pub min: i64,
    pub max: i64,
    pub sum: i64,
}

// A series that has counted nothing: zeros in its row, or 12 where the row lent is too short.
pub fn fresh(bounds: &[f64], counts: &mut [u64]) -> Result<Head, Refusal>
    ensures { outcome (said result) counts.new ≡ freshening bounds.now counts.old }
{
    let g = explicit::fresh(bounds, counts)?;
    Ok(Head {
        count: g.count,
        min: 9223372036854775807,
        max: -9223372036854775808,
        sum: 0,
    })
}

// The head under which crate `explicit` records the counts: its extremes and its sum are nobody's.
fn under_count(count: u64) -> explicit::Head
    ensures { result ≡ under count }
{
    explicit::Head {
        count,
        min: 0.0,
        max: 0.0,
        sum: 0.0,
    }
}

// Records a value into the series and returns its head then, or refuses it: 12 where the row lent is too short, 8 where the series or its bounds
// disagree, 9 where its count is full, 16 where its sum would leave i64.
pub fn record(
    bounds: &[f64],
    sums: bool,
    head: Head,
    counts: &mut [u64],
    v: i64,
) -> Result<Head, Refusal>
    ensures { outcome (said result) counts.new ≡ recording bounds.now sums head counts.old v }
{
    let h = under_count(head.count);
    let x = integers::nearest(v);
    let Some(sum) = integers::kept_sum(sums, head.sum, v) else {
        let before = explicit::refusal(bounds, h, counts, x);
        let no = refusals::code(before);
        let n = integers::last_number(no);
        return Err(Refusal::numbered(n));
    };
    let g = explicit::record(bounds, h, counts, x)?;
    Ok(Head {
        count: g.count,
        min: head.min.lesser(v),
        max: head.max.greater(v),
        sum,
    })
}
