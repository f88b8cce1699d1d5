// A point as it is handed out, of either kind, and two such points merged.
#![tactic(auto)]

pub mod signed;

ghost use Rattle.std.specs.Prelude.{◌≡◌, ◌+◌, ◌-◌, ◌^◌, ◌<◌, leb, Some};
ghost use Rattle.floats.specs.Starts.{zero_float};
ghost use Rattle.points.specs.Handed.{extremes_agree};
ghost use Rattle.laws.specs.Pick.{pick};
ghost use Rattle.refusals.specs.Refusals.{code};
ghost use Rattle.point.specs.Handing.{stored, count_in, agrees_alone, shown_point, exponential_point, explicit_point, refusal_before, outcome, merging};
ghost use Rattle.point.specs.Inner.{figures_agree, point_agrees, is_explicit, same_figures, size_fits};
ghost use Rattle.point.specs.Inner.{made_over, counts_over, made_one, laid_one, merged_of};
ghost use Rattle.std.specs.Bool.{beq};
ghost use Rattle.points.specs.Explicit.{bucket_count};
ghost use Rattle.points.specs.Figures.{exponential_counts};
ghost use Rattle.merges.specs.Merges.{Agreeing, merged_point};
ghost use Rattle.explicit.specs.Inner.{Addable};
ghost use Rattle.laws.specs.Counting.{most_count};

use exponential::Counts;
use refusals::Refusal;

// The counts of either kind; the case is the kind's tag.
#[derive(Clone, Copy)]
pub enum Figures {
    Exponential(Counts),
    Explicit(u64),
}

// A point; its bounds and its rows of counts lie beside it.
#[derive(Clone, Copy)]
pub struct Point {
    pub figures: Figures,
    pub extremes: bool,
    pub min: Option<f64>,
    pub max: Option<f64>,
    pub sum: f64,
}

// The count of a point's values.
pub fn count_in(f: Figures) -> u64
    ensures { result ≡ count_in f }
{
    match f {
        Figures::Exponential(c) => c.count,
        Figures::Explicit(count) => count,
    }
}

// ---- the point of a series, by its two switches

fn shown_sum(on: bool, sum: f64) -> f64
    ensures { result ≡ pick on sum zero_float }
{
    if on {
        return sum;
    }
    0.0
}

// The point of a series' figures, by its two switches.
fn handed_out(figures: Figures, min: f64, max: f64, sum: f64, extremes: bool, sums: bool) -> Point
    ensures { result ≡ shown_point figures min max sum extremes sums }
{
    let count = count_in(figures);
    let low = numbers::shown(extremes, count, min);
    let high = numbers::shown(extremes, count, max);
    let total = shown_sum(sums, sum);
    Point {
        figures,
        extremes,
        min: low,
        max: high,
        sum: total,
    }
}

// The point that a series of the exponential kind hands out, by its two switches; never refused.
pub fn exponential_point(head: exponential::Head, extremes: bool, sums: bool) -> Point
    ensures { result ≡ exponential_point head extremes sums }
{
    let c = head.counts;
    let f = Figures::Exponential(c);
    handed_out(f, head.min, head.max, head.sum, extremes, sums)
}

// The point that a series of the explicit kind hands out, by its two switches; never refused.
pub fn explicit_point(head: explicit::Head, extremes: bool, sums: bool) -> Point
    ensures { result ≡ explicit_point head extremes sums }
{
    let f = Figures::Explicit(head.count);
    handed_out(f, head.min, head.max, head.sum, extremes, sums)
}

// ---- agreement

// Whether both extremes are there and finite where they are due, and neither is elsewhere.
fn extremes_agree(due: bool, min: Option<f64>, max: Option<f64>) -> bool
    ensures { result ≡ extremes_agree due min max }
{
    match min {
        None => match max {
            None => !due,
            Some(y) => false,
        },
        Some(x) => match max {
            None => false,
            Some(y) => values_agree(due, x, y),
        },
    }
}

// Two that are there.
fn values_agree(due: bool, x: f64, y: f64) -> bool
    ensures { result ≡ extremes_agree due (Some x) (Some y) }
{
    if !due {
        return false;
    }
    if !floats::is_finite(x) {
        return false;
    }
    floats::is_finite(y)
}

fn figures_agree(size: usize, f: Figures, bounds: &[f64], pos: &[u64], neg: &[u64]) -> bool
    ensures { result ≡ figures_agree size f bounds.now pos.now neg.now }
{
    match f {
        Figures::Exponential(c) => exponential::counts_agree(size, index::FINEST, c, pos, neg),
        Figures::Explicit(count) => explicit::buckets_agree(bounds, count, pos),
    }
}

// Whether a point agrees with itself under a max_size, as number 8 asks.
fn point_agrees(size: usize, p: Point, bounds: &[f64], pos: &[u64], neg: &[u64]) -> bool
    ensures { result ≡ point_agrees size (stored p bounds.now pos.now neg.now) }
{
    let f = p.figures;
    let min = p.min;
    let max = p.max;
    if !figures_agree(size, f, bounds, pos, neg) {
        return false;
    }
    let due = floats::shows_extremes(p.extremes, count_in(f));
    extremes_agree(due, min, max)
}

// Whether a point agrees with itself under max_size 160 and the greatest scale, as number 8 asks where there is no merge; never refused.
pub fn agrees_alone(p: Point, bounds: &[f64], pos: &[u64], neg: &[u64]) -> bool
    ensures { result ≡ agrees_alone (stored p bounds.now pos.now neg.now) }
{
    point_agrees(exponential::MOST_SIZE, p, bounds, pos, neg)
}

// ---- the refusals of a merge that need no room

fn is_explicit(f: Figures) -> bool
    ensures { result ≡ is_explicit f }
{
    match f {
        Figures::Exponential(c) => false,
        Figures::Explicit(count) => true,
    }
}

fn same_kind(f: Figures, bounds: &[f64], g: Figures, others: &[f64]) -> bool
    ensures { result ≡ same_figures f bounds.now g others.now }
{
    match f {
        Figures::Exponential(c) => match g {
            Figures::Exponential(d) => true,
            Figures::Explicit(m) => false,
        },
        Figures::Explicit(n) => match g {
            Figures::Exponential(d) => false,
            Figures::Explicit(m) => explicit::same_bounds(bounds, others),
        },
    }
}

// Whether a max_size is asked of two points: unless both are explicit.
fn size_fits(size: usize, f: Figures, g: Figures) -> bool
    ensures { result ≡ size_fits size f g }
{
    if is_explicit(f) {
        if is_explicit(g) {
            return true;
        }
        return exponential::size_passes(size);
    }
    exponential::size_passes(size)
}

fn same_switch(a: bool, b: bool) -> bool
    ensures { result ≡ beq a b }
{
    if a {
        return b;
    }
    !b
}

fn counts_fit(f: Figures, g: Figures) -> bool
    ensures { result ≡ leb (count_in f + count_in g) most_count }
{
    let x = count_in(f);
    let y = count_in(g);
    y <= u64::MAX - x
}

// What refuses a merge but for the room.
pub fn refusal(
    size: u32,
    a: Point,
    abounds: &[f64],
    apos: &[u64],
    aneg: &[u64],
    b: Point,
    bbounds: &[f64],
    bpos: &[u64],
    bneg: &[u64],
) -> Result<(), Refusal>
    ensures { code result ≡ refusal_before size (stored a abounds.now apos.now aneg.now)
        (stored b bbounds.now bpos.now bneg.now) }
{
    let f = a.figures;
    let g = b.figures;
    if !size_fits(size as usize, f, g) {
        return Err(Refusal::MaxSize);
    }
    if !point_agrees(size as usize, a, abounds, apos, aneg) {
        return Err(Refusal::Disagrees);
    }
    if !point_agrees(size as usize, b, bbounds, bpos, bneg) {
        return Err(Refusal::Disagrees);
    }
    if !same_kind(f, abounds, g, bbounds) {
        return Err(Refusal::Unlike);
    }
    if !same_switch(a.extremes, b.extremes) {
        return Err(Refusal::Unlike);
    }
    if !counts_fit(f, g) {
        return Err(Refusal::Full);
    }
    Ok(())
}

// ---- merging

fn merge_exponential(
    size: usize,
    c: Counts,
    apos: &[u64],
    aneg: &[u64],
    d: Counts,
    bpos: &[u64],
    bneg: &[u64],
    pos: &mut [u64],
    neg: &mut [u64],
) -> Result<Figures, Refusal>
    requires { Agreeing size c apos.now aneg.now d bpos.now bneg.now }
    ensures { made_over result pos.new neg.new
        ≡ counts_over (exponential_counts (merged_point size c apos.now aneg.now d bpos.now bneg.now))
        pos.old neg.old }
{
    let to = merges::plan_of(size, c, d);
    let cp = c.pos;
    let cn = c.neg;
    let dp = d.pos;
    let dn = d.neg;
    if pos.len() < merges::joined_len(cp, to.first, dp, to.second) {
        return Err(Refusal::NoRoom);
    }
    if neg.len() < merges::joined_len(cn, to.first, dn, to.second) {
        return Err(Refusal::NoRoom);
    }
    let r = merges::merge_to(size, to, c, apos, aneg, d, bpos, bneg, pos, neg);
    Ok(Figures::Exponential(r))
}

fn merge_explicit(
    bounds: &[f64],
    n: u64,
    apos: &[u64],
    m: u64,
    bpos: &[u64],
    pos: &mut [u64],
) -> Result<Figures, Refusal>
    requires { Addable (bucket_count bounds.now) apos.now bpos.now × (n + m < 2 ^ 64) }
    ensures { made_one result pos.new
        ≡ laid_one (bucket_count bounds.now) n apos.now m bpos.now pos.old }
{
    let k = explicit::bucket_count(bounds);
    if pos.len() < k {
        return Err(Refusal::NoRoom);
    }
    explicit::add_counts(apos, bpos, k, pos);
    Ok(Figures::Explicit(n + m))
}

// The merged point of the figures that were made.
fn finish(a: Point, b: Point, figures: Figures) -> Point
    ensures { result ≡ merged_of a b figures }
{
    let min = numbers::smaller(a.min, b.min);
    let max = numbers::larger(a.max, b.max);
    Point {
        figures,
        extremes: a.extremes,
        min,
        max,
        sum: a.sum + b.sum,
    }
}

// Two points merged into lent rows: the merged point, which has the first's bounds, or a refusal with nothing changed: 1 max_size,
// 8 a point disagrees, 11 unlike kind, bounds or switch, 9 the count would pass 2^64 - 1, 10 the lent rows are too short.
pub fn merge(
    size: u32,
    a: Point,
    abounds: &[f64],
    apos: &[u64],
    aneg: &[u64],
    b: Point,
    bbounds: &[f64],
    bpos: &[u64],
    bneg: &[u64],
    pos: &mut [u64],
    neg: &mut [u64],
) -> Result<Point, Refusal>
    ensures { outcome result abounds.now pos.new neg.new
        ≡ merging size (stored a abounds.now apos.now aneg.now) (stored b bbounds.now bpos.now bneg.now)
        pos.old neg.old }
{
    refusal(size, a, abounds, apos, aneg, b, bbounds, bpos, bneg)?;
    let f = a.figures;
    let g = b.figures;
    match f {
        Figures::Exponential(c) => match g {
            Figures::Exponential(d) => {
                let made = merge_exponential(
                    size as usize,
                    c,
                    apos,
                    aneg,
                    d,
                    bpos,
                    bneg,
                    pos,
                    neg,
                )?;
                Ok(finish(a, b, made))
            }
            Figures::Explicit(m) => Err(Refusal::Unlike),
        },
        Figures::Explicit(n) => match g {
            Figures::Exponential(d) => Err(Refusal::Unlike),
            Figures::Explicit(m) => {
                let made = merge_explicit(abounds, n, apos, m, bpos, pos)?;
                Ok(finish(a, b, made))
            }
        },
    }
}
