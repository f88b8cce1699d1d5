// The collections, of lent memory or of a map that is known to agree: 12, 8 and 10 are decided first, by reading, then the points are put.
ghost use Rattle.std.specs.Prelude.{◌≡◌, true};
ghost use Rattle.std.proofs.Math.Option.{none};
ghost use Rattle.directory.specs.View.{stores};
ghost use Rattle.value_map.specs.Calls.{held};
ghost use Rattle.refusals.specs.Refusals.{code};
ghost use Rattle.batches.specs.Owned.{Owned};
ghost use Rattle.collecting.specs.Collected.{gave, uncollected, delta_collected, cumulative_collected};
ghost use Rattle.singles.specs.Stores.{single_store};
ghost use Rattle.singles.specs.Points.{output, single_lister};

use crate::Settings;
use collecting::{Reply, Survey};
use directory::Directory;
use refusals::Refusal;

// What refuses a collection: 12, 8, 10. Everything is decided here, by reading; of a map that is known to agree, only 10.
fn number(
    known: bool,
    cumulative: bool,
    s: Settings,
    d: Directory,
    sets: &[[u64; 9]],
    entries: &[[u64; 3]],
    order: &[u32],
    values: &[f64],
    out_sets: &[[u64; 9]],
    out_values: &[u64],
) -> Result<(), Refusal>
    requires { known ≡ true → Owned (single_store s.aggregation) tt s.limit none (held d (stores sets.now entries.now order.now) values.now) }
    ensures { code result ≡ uncollected (single_lister s.aggregation) tt cumulative s.limit
        (held d (stores sets.now entries.now order.now) values.now)
        (output out_sets.now out_values.now) }
{
    let limit = s.limit;
    let room = directory::suffices(limit, values.len());
    collecting::barred(
        known,
        room,
        Ok::<(), Refusal>(()),
        limit,
        d,
        sets,
        entries,
        order,
    )?;
    let aggregation = s.aggregation;
    let found = crate::walk::survey(
        known,
        cumulative,
        aggregation,
        d.used,
        entries,
        order,
        values,
    );
    collecting::number_of(Survey::found(found), out_sets.len(), out_values.len(), 0, 0)
}

// Delta collection: lists the updated entries and resets them; removes those that were neither updated nor bound, but for overflow.
pub fn delta(
    known: bool,
    s: Settings,
    d: Directory,
    sets: &mut [[u64; 9]],
    entries: &mut [[u64; 3]],
    order: &mut [u32],
    values: &[f64],
    out_sets: &mut [[u64; 9]],
    out_values: &mut [u64],
) -> Reply
    requires { known ≡ true → Owned (single_store s.aggregation) tt s.limit none (held d (stores sets.old entries.old order.old) values.now) }
    ensures { gave result.answer (held result.dir (stores sets.new entries.new order.new) values.now)
        (output out_sets.new out_values.new)
        ≡ delta_collected (single_lister s.aggregation) tt s.limit
        (held d (stores sets.old entries.old order.old) values.now)
        (output out_sets.old out_values.old) }
{
    match number(
        known, false, s, d, sets, entries, order, values, out_sets, out_values,
    ) {
        Err(e) => Reply {
            answer: Err(e),
            dir: d,
        },
        Ok(()) => {
            let end = crate::walk::list(
                false, d.used, sets, entries, order, values, out_sets, out_values,
            );
            let dir = sweep::sweep(d, sets, entries, order);
            Reply {
                answer: Ok(end),
                dir,
            }
        }
    }
}

// Cumulative collection: lists every named entry, and the empty set's if it was updated. The map stays.
pub fn cumulative(
    known: bool,
    s: Settings,
    d: Directory,
    sets: &[[u64; 9]],
    entries: &[[u64; 3]],
    order: &[u32],
    values: &[f64],
    out_sets: &mut [[u64; 9]],
    out_values: &mut [u64],
) -> Result<usize, Refusal>
    requires { known ≡ true → Owned (single_store s.aggregation) tt s.limit none (held d (stores sets.now entries.now order.now) values.now) }
    ensures { gave result (held d (stores sets.now entries.now order.now) values.now)
        (output out_sets.new out_values.new)
        ≡ cumulative_collected (single_lister s.aggregation) tt s.limit
        (held d (stores sets.now entries.now order.now) values.now)
        (output out_sets.old out_values.old) }
{
    number(
        known, true, s, d, sets, entries, order, values, out_sets, out_values,
    )?;
    let end = crate::walk::list(
        true, d.used, sets, entries, order, values, out_sets, out_values,
    );
    Ok(end)
}
