// A point of i64 values as it is handed out, of either kind, and two such points merged. Its counts are an f64 point's, so its shadow, an f64
// point with the same counts and 0.0 for each number, is what crate `point` tests and merges.
#![tactic(auto)]

ghost use Rattle.std.specs.Prelude.{◌≡◌, pos as whole};
ghost use Rattle.laws.specs.Pick.{pick};
ghost use Rattle.points.specs.Shadow.{shadow_of};
ghost use Rattle.point.specs.Handing as P;
ghost use Rattle.whole_point.specs.Handing.{stored, shadow_point, exponential_point, explicit_point, merged_of, outcome, merging, beside_number, mixed_number, alone_number};
ghost use Rattle.refusals.specs.Refusals.{number};
ghost use Rattle.numbered.specs.Numbered.{code_by};

use numbered::Numbered;
use point::Figures;
use refusals::Refusal;

// A point; its bounds and its rows of counts lie beside it.
#[derive(Clone, Copy)]
pub struct Point {
    pub figures: Figures,
    pub extremes: bool,
    pub min: Option<i64>,
    pub max: Option<i64>,
    pub sum: i64,
}

// ---- the point of a series, by its two switches

fn shown_sum(on: bool, sum: i64) -> i64
    ensures { result ≡ pick on sum (whole 0) }
{
    if on {
        return sum;
    }
    0
}

// The point that a series of the exponential kind hands out, by its two switches; never refused.
pub fn exponential_point(head: exponential_wholes::Head, extremes: bool, sums: bool) -> Point
    ensures { result ≡ exponential_point head extremes sums }
{
    let c = head.counts;
    let f = Figures::Exponential(c);
    let low = numbers::shown(extremes, c.count, head.min);
    let high = numbers::shown(extremes, c.count, head.max);
    let total = shown_sum(sums, head.sum);
    Point {
        figures: f,
        extremes,
        min: low,
        max: high,
        sum: total,
    }
}

// The point that a series of the explicit kind hands out, by its two switches; never refused.
pub fn explicit_point(head: explicit_wholes::Head, extremes: bool, sums: bool) -> Point
    ensures { result ≡ explicit_point head extremes sums }
{
    let f = Figures::Explicit(head.count);
    let low = numbers::shown(extremes, head.count, head.min);
    let high = numbers::shown(extremes, head.count, head.max);
    let total = shown_sum(sums, head.sum);
    Point {
        figures: f,
        extremes,
        min: low,
        max: high,
        sum: total,
    }
}

// ---- the shadow

fn shadow_extreme(e: Option<i64>) -> Option<f64>
    ensures { result ≡ shadow_of e }
{
    match e {
        None => None,
        Some(x) => Some(0.0),
    }
}

// The f64 point with the same counts, which shows 0.0 for each number that is shown.
pub fn shadow_of(p: Point) -> point::Point
    ensures { result ≡ shadow_point p }
{
    let f = p.figures;
    let min = p.min;
    let max = p.max;
    let low = shadow_extreme(min);
    let high = shadow_extreme(max);
    point::Point {
        figures: f,
        extremes: p.extremes,
        min: low,
        max: high,
        sum: 0.0,
    }
}

// ---- merging

// The merged point of counts that were merged, the sum being s.
fn finish(a: Point, b: Point, s: i64, counted: point::Point) -> Point
    ensures { result ≡ merged_of a b s counted }
{
    let min = numbers::smaller(a.min, b.min);
    let max = numbers::larger(a.max, b.max);
    Point {
        figures: counted.figures,
        extremes: a.extremes,
        min,
        max,
        sum: s,
    }
}

// Two points merged into lent rows: the merged point, which has the first's bounds, or a refusal with nothing changed: 1 max_size,
// 8 a point disagrees, 11 unlike kind, bounds or switch, 9 the count would pass 2^64 - 1, 16 the sum would leave i64, 10 the lent rows are too
// short.
pub fn merge(
    size: u32,
    a: Point,
    abounds: &[f64],
    apos: &[u64],
    aneg: &[u64],
    b: Point,
    bbounds: &[f64],
    bpos: &[u64],
    bneg: &[u64],
    pos: &mut [u64],
    neg: &mut [u64],
) -> Result<Point, Refusal>
    ensures { outcome result abounds.now pos.new neg.new
        ≡ merging size (stored a abounds.now apos.now aneg.now) (stored b bbounds.now bpos.now bneg.now)
        pos.old neg.old }
{
    let x = shadow_of(a);
    let y = shadow_of(b);
    let Some(s) = integers::sum(a.sum, b.sum) else {
        let before = point::refusal(size, x, abounds, apos, aneg, y, bbounds, bpos, bneg);
        let no = refusals::code(before);
        let n = integers::last_number(no);
        return Err(Refusal::numbered(n));
    };
    let counted = point::merge(
        size, x, abounds, apos, aneg, y, bbounds, bpos, bneg, pos, neg,
    )?;
    Ok(finish(a, b, s, counted))
}

// ---- beside f64

// What refuses an i64 point beside an f64 point, of what refuses its shadow: 1 and 8 come first, else it is 11.
pub fn beside<E: Numbered>(no: Result<(), E>) -> Refusal
    ensures { number result ≡ beside_number (code_by E.number no) }
{
    match numbered::code(no) {
        1 => Refusal::MaxSize,
        8 => Refusal::Disagrees,
        _ => Refusal::Unlike,
    }
}

// What refuses an i64 point and an f64 point: 1 max_size, 8 a point disagrees, else 11.
pub fn mixed_number(
    size: u32,
    a: Point,
    abounds: &[f64],
    apos: &[u64],
    aneg: &[u64],
    b: point::Point,
    bbounds: &[f64],
    bpos: &[u64],
    bneg: &[u64],
) -> Refusal
    ensures { number result ≡ mixed_number size (stored a abounds.now apos.now aneg.now)
        (P.stored b bbounds.now bpos.now bneg.now) }
{
    let x = shadow_of(a);
    let no = point::refusal(size, x, abounds, apos, aneg, b, bbounds, bpos, bneg);
    beside(no)
}

// What refuses an i64 point where only f64 points are taken, in a card or a sheet: 8 where it disagrees with itself under
// max_size 160 and the greatest scale, else 11.
pub fn alone_number(p: Point, bounds: &[f64], pos: &[u64], neg: &[u64]) -> Refusal
    ensures { number result ≡ alone_number (stored p bounds.now pos.now neg.now) }
{
    let x = shadow_of(p);
    if point::agrees_alone(x, bounds, pos, neg) {
        return Refusal::Unlike;
    }
    Refusal::Disagrees
}
