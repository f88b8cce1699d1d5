// What the calls of every kind share, those of other crates too: whether a value is recorded at all, how a recording ends, configuring.
ghost use Rattle.std.specs.Prelude.{◌≡◌, IfOk};
ghost use Rattle.numbered.specs.Numbered.{code_by};
ghost use Rattle.kinds.specs.Histograms.{histograms};
ghost use Rattle.sets.specs.Sorted.{filter_of};
ghost use Rattle.directory.specs.View.{Stores, stores};
ghost use Rattle.bindings.specs.Calls.{gave, gave_by};
ghost use Rattle.seats.specs.Inner.{Fits};
ghost use Rattle.value_map.specs.Calls.{begun};
ghost use Rattle.value_map.specs.Inner.{target_in, finished};

use bindings::Reply;
use directory::{Directory, Target};
use numbered::Reason;
use refusals::Refusal;

// Whether a map of f64s takes a value, a histogram's or another: number 6 refuses the others.
pub fn takes(v: f64) -> bool
    ensures { result ≡ histograms.finite v }
{
    floats::is_finite(v)
}

// The end of a recording: the refusal, or what the directory writes.
pub fn finish<E: Reason>(
    done: Result<Target, E>,
    d: Directory,
    sets: &mut [[u64; 9]],
    entries: &mut [[u64; 3]],
    order: &mut [u32],
    row: &[u64; 9],
) -> Reply<E>
    requires { IfOk done (λ t. Fits d (stores sets.old entries.old order.old) t) }
    ensures { gave_by E.number result (stores sets.new entries.new order.new)
        ≡ finished (code_by E.number done) d (stores sets.old entries.old order.old) row.now (target_in done) }
{
    let target = match done {
        Ok(target) => target,
        Err(why) => {
            return Reply {
                answer: Err(why),
                dir: d,
            };
        }
    };
    let e = seats::commit(d, sets, entries, order, row, target);
    Reply {
        answer: Ok(None),
        dir: e,
    }
}

// A reply whose refusal is said by another type.
fn told_as<E: Reason>(reply: Reply) -> Reply<E>
    ensures { (s : Stores) → gave_by E.number result s ≡ gave reply s }
{
    let answer = match reply.answer {
        Ok(done) => Ok(done),
        Err(no) => Err(E::of(no)),
    };
    Reply {
        answer,
        dir: reply.dir,
    }
}

// Configures a map, of a kind whose answer to its settings and whose cells are given: a fresh start, or 1, 2, 3, 4, 12.
pub fn begin<E: Reason>(
    unset: Result<(), E>,
    cells: bool,
    limit: u64,
    present: bool,
    filter: &[u32],
    sets: &[[u64; 9]],
    entries: &mut [[u64; 3]],
    order: &[u32],
) -> Reply<E>
    ensures { gave_by E.number result (stores sets.now entries.new order.now)
        ≡ begun (code_by E.number unset) cells limit (filter_of present filter.now) (stores sets.now entries.old order.now) }
{
    let d = Directory {
        used: 0,
        count: 0,
        last: 0,
    };
    if let Err(no) = unset {
        return Reply {
            answer: Err(no),
            dir: d,
        };
    }
    if !directory::accepted(limit, present, filter) {
        return Reply {
            answer: Err(E::of(Refusal::Limit)),
            dir: d,
        };
    }
    if !cells {
        return Reply {
            answer: Err(E::of(Refusal::LentShort)),
            dir: d,
        };
    }
    told_as(bindings::start(limit, present, filter, sets, entries, order))
}
