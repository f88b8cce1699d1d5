// Many values recorded into one series of the exponential kind that is known to agree: of its refusals only 6 and 9 are asked in each turn.
ghost use Rattle.std.specs.Prelude.{◌≡◌};
ghost use Rattle.refusals.specs.Refusals.{code};
ghost use Rattle.exponential.specs.Series.{refusal_of};
ghost use Rattle.rows.specs.Recording.{after};
ghost use Rattle.many.specs.Many.{many, each};
ghost use Rattle.exponential_batches.specs.Series.{series, Sound, step};

use exponential::Head;
use numbers::Number;
use refusals::Refusal;

// The head after many values, how many were taken, and how it ended: with what refused the next one, if one was refused.
#[derive(Clone, Copy)]
pub struct Run {
    pub head: Head,
    pub taken: usize,
    pub end: Result<(), Refusal>,
}

// One value more, where nothing refuses it: the head then.
fn noted(size: u32, top: u32, head: Head, pos: &mut [u64], neg: &mut [u64], v: f64) -> Head
    requires { refusal_of size top head pos.old neg.old v ≡ 0 }
    ensures { after 0 (series result pos.new neg.new) ≡ step size top (series head pos.old neg.old) v }
{
    let next = exponential::count_in(size, top, head, pos, neg, v);
    let least = head.min.lesser(v);
    let greatest = head.max.greater(v);
    Head {
        counts: next,
        min: least,
        max: greatest,
        sum: head.sum + v,
    }
}

// Records values into a series that agrees, one after another, up to the first that is refused: 6, 9.
pub fn record_all(
    size: u32,
    top: u32,
    head: Head,
    pos: &mut [u64],
    neg: &mut [u64],
    values: &[f64],
) -> Run
    requires { Sound size top (series head pos.old neg.old) }
    ensures { many result.taken (code result.end) (series result.head pos.new neg.new)
        ≡ each (step size top) (series head pos.old neg.old) values.now }
{
    let mut h = head;
    for (i, &v) in values.iter().enumerate() {
        if !floats::is_finite(v) {
            return Run {
                head: h,
                taken: i,
                end: Err(Refusal::NotFinite),
            };
        }
        if h.counts.count == u64::MAX {
            return Run {
                head: h,
                taken: i,
                end: Err(Refusal::Full),
            };
        }
        h = noted(size, top, h, pos, neg, v);
    }
    Run {
        head: h,
        taken: values.len(),
        end: Ok(()),
    }
}
