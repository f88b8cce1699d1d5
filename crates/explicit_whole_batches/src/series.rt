// Many values into one series of the explicit kind over i64 that agrees: its head by value, its counts at the front of a lent slice. They are
// counted as over f64, by the f64 nearest to each.
ghost use Rattle.std.specs.Prelude.{◌≡◌};
ghost use Rattle.rows.specs.Recording.{after};
ghost use Rattle.refusals.specs.Refusals.{code, said};
ghost use Rattle.many.specs.Many.{many, each};
ghost use Rattle.explicit_batches.specs.Values.{Counted, head_after};
ghost use Rattle.explicit_whole_batches.specs.Values.{series, step, raising};

use explicit_wholes::Head;
use numbers::Number;
use refusals::Refusal;

// What a list of values left: the head, how many were taken, and how it ended: with what refused the next one, if one was refused.
#[derive(Clone, Copy)]
pub struct Run {
    pub head: Head,
    pub taken: usize,
    pub end: Result<(), Refusal>,
}

// The head of a series that agrees with a value more; or 9, 16.
fn raised(sums: bool, head: Head, v: i64) -> Result<Head, Refusal>
    ensures { after (code result) (head_after (said result) head) ≡ raising sums head v }
{
    if head.count >= u64::MAX {
        return Err(Refusal::Full);
    }
    let s = integers::kept_sum(sums, head.sum, v).ok_or(Refusal::SumOutside)?;
    let least = head.min.lesser(v);
    let greatest = head.max.greater(v);
    Ok(Head {
        count: head.count + 1,
        min: least,
        max: greatest,
        sum: s,
    })
}

// Records values into a series that agrees, one after another, up to the first that is refused: 9, 16.
pub fn record_all(bounds: &[f64], sums: bool, head: Head, counts: &mut [u64], values: &[i64]) -> Run
    requires { Counted bounds.now head.count counts.old }
    ensures { many result.taken (code result.end) (series result.head counts.new)
        ≡ each (step bounds.now sums) (series head counts.old) values.now }
{
    let mut h = head;
    for (i, &v) in values.iter().enumerate() {
        match raised(sums, h, v) {
            Ok(next) => {
                explicit::count_in(bounds, counts, integers::nearest(v));
                h = next;
            }
            Err(e) => {
                return Run {
                    head: h,
                    taken: i,
                    end: Err(e),
                };
            }
        }
    }
    Run {
        head: h,
        taken: values.len(),
        end: Ok(()),
    }
}
