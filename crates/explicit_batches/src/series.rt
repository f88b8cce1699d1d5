// Many values into one series of the explicit kind that agrees: its head by value, its counts at the front of a lent slice.
ghost use Rattle.std.specs.Prelude.{◌≡◌, ◌+◌, ◌<◌};
ghost use Rattle.laws.specs.Counting.{most_count};
ghost use Rattle.refusals.specs.Refusals.{code};
ghost use Rattle.many.specs.Many.{many, each};
ghost use Rattle.points.specs.Values.{noted};
ghost use Rattle.explicit.specs.Series.{head_of, summary};
ghost use Rattle.explicit_batches.specs.Values.{series, step, Sound, barring};

use explicit::Head;
use numbers::Number;
use refusals::Refusal;

// What a list of values left: the head, how many were taken, and how it ended: with what refused the next one, if one was refused.
#[derive(Clone, Copy)]
pub struct Run {
    pub head: Head,
    pub taken: usize,
    pub end: Result<(), Refusal>,
}

// Why a value is refused in a series that agrees, if it is: 6, 9.
fn barred(count: u64, v: f64) -> Result<(), Refusal>
    ensures { code result ≡ barring count v }
{
    if !floats::is_finite(v) {
        return Err(Refusal::NotFinite);
    }
    if count >= u64::MAX {
        return Err(Refusal::Full);
    }
    Ok(())
}

// The head with a value more.
fn raised(h: Head, v: f64) -> Head
    requires { h.count < most_count }
    ensures { result ≡ head_of (h.count + 1) (noted (summary h) v) }
{
    let least = h.min.lesser(v);
    let greatest = h.max.greater(v);
    Head {
        count: h.count + 1,
        min: least,
        max: greatest,
        sum: h.sum + v,
    }
}

// Records values into a series that agrees, one after another, up to the first that is refused: 6, 9.
pub fn record_all(bounds: &[f64], head: Head, counts: &mut [u64], values: &[f64]) -> Run
    requires { Sound bounds.now (series head counts.old) }
    ensures { many result.taken (code result.end) (series result.head counts.new)
        ≡ each (step bounds.now) (series head counts.old) values.now }
{
    let mut h = head;
    for (i, &v) in values.iter().enumerate() {
        if let Err(e) = barred(h.count, v) {
            return Run {
                head: h,
                taken: i,
                end: Err(e),
            };
        }
        explicit::count_in(bounds, counts, v);
        h = raised(h, v);
    }
    Run {
        head: h,
        taken: values.len(),
        end: Ok(()),
    }
}
