// Values recorded one after another into one series over i64, whose head goes along by value.
ghost use Rattle.std.specs.Prelude.{◌≡◌};
ghost use Rattle.rows.specs.Recording.{after};
ghost use Rattle.refusals.specs.Refusals.{code, said};
ghost use Rattle.many.specs.Many.{many, each};
ghost use Rattle.exponential_wholes.specs.Series.{under};
ghost use Rattle.exponential_whole_batches.specs.Series.{series, Sound, head_after, step};

use exponential::Counts;
use exponential_wholes::Head;
use numbers::Number;
use refusals::Refusal;

// What a list of values leaves: the head, how many were taken, and how it ended: with what refused the next one, if one was refused.
#[derive(Clone, Copy)]
pub struct Run {
    pub head: Head,
    pub taken: usize,
    pub end: Result<(), Refusal>,
}

// The head under which crate `exponential` counts: its extremes and its sum are nobody's.
fn under_counts(c: Counts) -> exponential::Head
    ensures { result ≡ under c }
{
    exponential::Head {
        counts: c,
        min: 0.0,
        max: 0.0,
        sum: 0.0,
    }
}

// A value recorded into a series that agrees; or 9, 16. Neither 12 nor 8 is asked.
fn next(
    size: u32,
    top: u32,
    sums: bool,
    head: Head,
    pos: &mut [u64],
    neg: &mut [u64],
    v: i64,
) -> Result<Head, Refusal>
    requires { Sound size top (series head pos.old neg.old) }
    ensures { after (code result) (series (head_after (said result) head) pos.new neg.new) ≡ step size top sums (series head pos.old neg.old) v }
{
    let c = head.counts;
    if c.count == u64::MAX {
        return Err(Refusal::Full);
    }
    let s = integers::kept_sum(sums, head.sum, v).ok_or(Refusal::SumOutside)?;
    let h = under_counts(c);
    let x = integers::nearest(v);
    let least = head.min.lesser(v);
    let greatest = head.max.greater(v);
    let more = exponential::count_in(size, top, h, pos, neg, x);
    Ok(Head {
        counts: more,
        min: least,
        max: greatest,
        sum: s,
    })
}

// Records values into a series that agrees, one after another, up to the first that is refused: 9, 16.
pub fn record_all(
    size: u32,
    top: u32,
    sums: bool,
    head: Head,
    pos: &mut [u64],
    neg: &mut [u64],
    values: &[i64],
) -> Run
    requires { Sound size top (series head pos.old neg.old) }
    ensures { many result.taken (code result.end) (series result.head pos.new neg.new)
        ≡ each (step size top sums) (series head pos.old neg.old) values.now }
{
    let mut h = head;
    for (i, &v) in values.iter().enumerate() {
        match next(size, top, sums, h, pos, neg, v) {
            Ok(one) => h = one,
            Err(e) => {
                return Run {
                    head: h,
                    taken: i,
                    end: Err(e),
                };
            }
        }
    }
    Run {
        head: h,
        taken: values.len(),
        end: Ok(()),
    }
}
