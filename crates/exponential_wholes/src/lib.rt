// One series of the exponential kind over i64: a head by value beside the same counts and rows as over f64. A value's bucket is that of the
// f64 nearest to it, so crate `exponential` counts it.
#![tactic(auto)]

ghost use Rattle.std.specs.Prelude.{◌≡◌};
ghost use Rattle.exponential_wholes.specs.Series.{fresh_head, under, outcome, recording};
ghost use Rattle.refusals.specs.Refusals.{said};

use exponential::Counts;
use numbers::Number;
use refusals::Refusal;

#[derive(Clone, Copy)]
pub struct Head {
    pub counts: Counts,
    pub min: i64,
    pub max: i64,
    pub sum: i64,
}

// The head of a series that has counted nothing.
pub fn fresh(top: u32) -> Head
    ensures { result ≡ fresh_head top }
{
    let h = exponential::fresh(top);
    let c = h.counts;
    Head {
        counts: c,
        min: 9223372036854775807,
        max: -9223372036854775808,
        sum: 0,
    }
}

// The head under which crate `exponential` counts: its extremes and its sum are nobody's.
fn under_counts(c: Counts) -> exponential::Head
    ensures { result ≡ under c }
{
    exponential::Head {
        counts: c,
        min: 0.0,
        max: 0.0,
        sum: 0.0,
    }
}

// Records a value into the series and returns its head then, or refuses it: 12 where a row lent is too short, 8 where the series disagrees with
// itself or its settings, 9 where its count is full, 16 where its sum would leave i64. The f64 nearest to any i64 is finite, as 0.0 is: 6 is never said.
pub fn record(
    size: u32,
    top: u32,
    sums: bool,
    head: Head,
    pos: &mut [u64],
    neg: &mut [u64],
    v: i64,
) -> Result<Head, Refusal>
    ensures { outcome (said result) pos.new neg.new
        ≡ recording size top sums head pos.old neg.old v }
{
    let c = head.counts;
    let h = under_counts(c);
    let x = integers::nearest(v);
    // Not `?`: must-fail/sixteen_first.edit changes what is handed on here.
    if let Err(no) = exponential::refusal(size, top, h, pos, neg, x) {
        return Err(no);
    }
    let sum = integers::kept_sum(sums, head.sum, v).ok_or(Refusal::SumOutside)?;
    let counts = exponential::count_in(size, top, h, pos, neg, x);
    Ok(Head {
        counts,
        min: head.min.lesser(v),
        max: head.max.greater(v),
        sum,
    })
}
