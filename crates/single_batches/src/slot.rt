// Many values at one slot of the store: what it holds is read once, kept by value through the list, and written once.
ghost use Rattle.std.specs.Prelude.{◌≡◌, true, ◌<◌, length};
ghost use Rattle.refusals.specs.Refusals.{code};
ghost use Rattle.many.specs.Many.{many, each};
ghost use Rattle.batches.specs.Inner.{recorded_all, Known};
ghost use Rattle.singles.specs.Kinds.{holds};
ghost use Rattle.singles.specs.Stores.{single_store};
ghost use Rattle.single_batches.specs.Inner.{stepped};

use many::Taken;
use refusals::Refusal;
use singles::Aggregation;
use value_map::first;

// What a list of values left: what is held then, how many were taken, and how it ended: with what refused the next one, if one was refused.
#[derive(Clone, Copy)]
struct Run {
    held: f64,
    taken: usize,
    end: Result<(), Refusal>,
}

// Values one after another on what is held, up to the first that is not finite: 6.
fn fold(aggregation: Aggregation, held: f64, list: &[f64]) -> Run
    ensures { many result.taken (code result.end) result.held ≡ each (stepped aggregation) held list.now }
{
    let mut y = held;
    for (i, &v) in list.iter().enumerate() {
        if !first::takes(v) {
            return Run {
                held: y,
                taken: i,
                end: Err(Refusal::NotFinite),
            };
        }
        y = singles::slot::stepped(aggregation, y, v);
    }
    Run {
        held: y,
        taken: list.len(),
        end: Ok(()),
    }
}

// Whether the map may hold what a slot holds: asked, unless that is known.
fn holds_if(known: bool, aggregation: Aggregation, held: f64) -> bool
    requires { known ≡ true → holds aggregation held ≡ true }
    ensures { result ≡ holds aggregation held }
{
    if known {
        return true;
    }
    singles::slot::holds(aggregation, held)
}

// Records values at slot x, up to the first that is refused: 6, 8. A value's 6 comes before the slot's 8, so the list is folded first: it writes nothing.
pub fn record_all(
    known: bool,
    aggregation: Aggregation,
    x: usize,
    updated: bool,
    values: &mut [f64],
    list: &[f64],
) -> Taken
    requires x_in_bounds { x < length values.old }
    requires known { Known (single_store aggregation) tt known x updated values.old }
    ensures { many result.taken (code result.end) values.new
        ≡ recorded_all (single_store aggregation) x updated values.old list.now }
{
    let held = singles::slot::held_at(x, updated, values);
    let run = fold(aggregation, held, list);
    if run.taken == 0 {
        return Taken {
            taken: 0,
            end: run.end,
        };
    }
    if !holds_if(known, aggregation, held) {
        return Taken {
            taken: 0,
            end: Err(Refusal::Disagrees),
        };
    }
    values[x] = run.held;
    Taken {
        taken: run.taken,
        end: run.end,
    }
}
