// The mean of a point's values in whole hundredths, for the blade card (request L2): the sum must be a whole number of 1/1024.
#![tactic(auto)]

ghost use Rattle.std.specs.Prelude.{◌≡◌, ◌*◌, ◌^◌, ◌≤◌, ◌<◌};
ghost use Rattle.floats.specs.Grid.{signed as with_sign};
ghost use Rattle.point.specs.Handing.{stored};
ghost use Rattle.whole_point.specs.Handing as W;
ghost use Rattle.mean.specs.Rule as Rule;
ghost use Rattle.mean.specs.Rounding as Rounding;
ghost use Rattle.refusals.specs.Refusals.{said};
ghost use Rattle.mean.specs.Mean.{mean_of, mean_in, whole_mean_in};
ghost use Rattle.mean.specs.Inner.{sum_of, sum_of_parts};

use index::Parts;
use point::Point;
use refusals::Refusal;

// A sum as so many 1/1024ths.
#[derive(Clone, Copy)]
struct Steps {
    negative: bool,
    steps: u64,
}

// ---- the sum; none off the grid, where it is no whole number of 1/1024, or its magnitude is above 2^43

// Of mantissa * 2^exponent units of 2^-2048: 1/1024 is 2^2038 of them.
fn sum_of_parts(negative: bool, mantissa: u64, exponent: u64) -> Option<Steps>
    requires { (2 ^ 52 ≤ mantissa) × (mantissa < 2 ^ 53) }
    ensures { result ≡ sum_of_parts negative mantissa exponent }
{
    if exponent > 2038 {
        if exponent == 2039 {
            if mantissa == 0x10_0000_0000_0000 {
                return Some(Steps {
                    negative,
                    steps: 0x20_0000_0000_0000,
                });
            }
            return None;
        }
        return None;
    }
    let down = 2038 - exponent;
    if down > 52 {
        return None;
    }
    let steps = mantissa >> down;
    if steps << down == mantissa {
        return Some(Steps { negative, steps });
    }
    None
}

fn sum_of(x: f64) -> Option<Steps>
    ensures { result ≡ sum_of x }
{
    let parts = index::frexp(x);
    match parts {
        Parts::NotFinite => None,
        Parts::Zero => Some(Steps {
            negative: false,
            steps: 0,
        }),
        Parts::Number {
            negative,
            mantissa,
            exponent,
        } => sum_of_parts(negative, mantissa, exponent),
    }
}

// ---- the mean

// The rule: where q and a half goes.
fn half(q: u64) -> u64
    requires { q ≤ 2 ^ 60 }
    ensures { result ≡ Rule.half q }
{
    q + 1
}

// q + r / d to the nearest whole number.
fn rounded(q: u64, r: u64, d: u64) -> u64
    requires { (q ≤ 2 ^ 60) × (r ≤ 2 ^ 62) }
    ensures { result ≡ Rounding.rounded q r d }
{
    if 2 * r < d {
        return q;
    }
    if d < 2 * r {
        return q + 1;
    }
    half(q)
}

// The magnitude of the mean. A count above 2^52 makes the fraction less than a half; from 2^54 on 1024 times it would leave 64 bits.
fn nearest(steps: u64, count: u64) -> u64
    requires { (steps ≤ 2 ^ 53) × (0 < count) }
    ensures { (result ≡ Rounding.nearest (steps * 100) (count * 1024)) × (result ≤ 2 ^ 61) }
{
    if count > 0x10_0000_0000_0000 {
        return 0;
    }
    let a = steps * 100;
    let d = count * 1024;
    rounded(a / d, a % d, d)
}

// A magnitude with its sign.
fn signed(negative: bool, size: u64) -> i64
    requires { size ≤ 2 ^ 61 }
    ensures { result ≡ with_sign negative size }
{
    let n = size as i64;
    if negative { 0 - n } else { n }
}

fn mean_of(count: u64, sum: f64) -> Result<i64, Refusal>
    ensures { said result ≡ mean_of count sum }
{
    if count == 0 {
        return Err(Refusal::NoValues);
    }
    let total = sum_of(sum).ok_or(Refusal::OffGrid)?;
    Ok(signed(total.negative, nearest(total.steps, count)))
}

// ---- the call

// The mean of a point with its bounds and rows, of either kind, in whole hundredths; or 8, 13, 14. Nothing is changed.
pub fn hundredths(p: Point, bounds: &[f64], pos: &[u64], neg: &[u64]) -> Result<i64, Refusal>
    ensures { said result ≡ mean_in (stored p bounds.now pos.now neg.now) }
{
    let f = p.figures;
    if !point::agrees_alone(p, bounds, pos, neg) {
        return Err(Refusal::Disagrees);
    }
    mean_of(point::count_in(f), p.sum)
}

// The same of a point of i64 values, which has no card (request L6): 8 where it disagrees with itself, else 11. Nothing is changed.
pub fn whole_hundredths(
    p: whole_point::Point,
    bounds: &[f64],
    pos: &[u64],
    neg: &[u64],
) -> Result<i64, Refusal>
    ensures { said result ≡ whole_mean_in (W.stored p bounds.now pos.now neg.now) }
{
    Err(whole_point::alone_number(p, bounds, pos, neg))
}
