// Sums and last values of f64s: the public calls around recording: configuring, delta and cumulative collection. `Sum` of sum.rs and
// `LastValue` of last_value.rs, and their `ComputeAggregation`. Their stores: the directory's (sets, entries, order), and each slot's
// value.
#![tactic(auto)]

mod collect;
pub mod map;
pub mod slot;
mod walk;

ghost use Rattle.std.specs.Prelude.{◌≡◌};
ghost use Rattle.std.proofs.Math.Option.{none};
ghost use Rattle.sets.specs.Sorted.{filter_of};
ghost use Rattle.directory.specs.View.{stores};
ghost use Rattle.bindings.specs.Calls as Bindings;
ghost use Rattle.value_map.specs.Calls.{held};
ghost use Rattle.batches.specs.Owned.{Owned};
ghost use Rattle.collecting.specs.Configured.{set_up, configuring};
ghost use Rattle.collecting.specs.Collected.{gave, delta_collected, cumulative_collected};
ghost use Rattle.singles.specs.Stores.{single_store};
ghost use Rattle.singles.specs.Points.{output, single_lister};
ghost use Rattle.refusals.specs.Refusals.{said};
ghost use Rattle.singles.specs.Configured.{configured};

use collecting::Reply;
use directory::Directory;
use refusals::Refusal;

// What a map keeps of the values of a set: their sum, or the last of them.
#[derive(Clone, Copy)]
pub enum Aggregation {
    Sum,
    LastValue,
}

// What was configured.
#[derive(Clone, Copy)]
pub struct Settings {
    pub aggregation: Aggregation,
    pub limit: u64,
}

// The settings of a map, and its state.
#[derive(Clone, Copy)]
pub struct Setup {
    pub settings: Settings,
    pub dir: Directory,
}

// A fresh map of these settings, unless its start was refused.
fn set_up(settings: Settings, reply: bindings::Reply) -> Result<Setup, Refusal>
    ensures { said result ≡ set_up (record { settings = settings; dir = reply.dir }) (Bindings.said reply.answer) }
{
    reply.answer?;
    Ok(Setup {
        settings,
        dir: reply.dir,
    })
}

// Configures a map: its settings and fresh state, or 4, 12.
pub fn configure(
    aggregation: Aggregation,
    limit: u64,
    present: bool,
    filter: &[u32],
    sets: &[[u64; 9]],
    entries: &mut [[u64; 3]],
    order: &[u32],
    values: &[f64],
) -> Result<Setup, Refusal>
    ensures { configuring (said result) (stores sets.now entries.new order.now)
        ≡ configured aggregation limit (filter_of present filter.now)
        (stores sets.now entries.old order.now) values.now }
{
    let room = directory::suffices(limit, values.len());
    let reply = value_map::first::begin(Ok(()), room, limit, present, filter, sets, entries, order);
    let settings = Settings { aggregation, limit };
    set_up(settings, reply)
}

// Delta collection: lists the updated entries and resets them; removes those that were neither updated nor bound, but for overflow;
// or 12, 8, 10.
pub fn delta(
    s: Settings,
    d: Directory,
    sets: &mut [[u64; 9]],
    entries: &mut [[u64; 3]],
    order: &mut [u32],
    values: &[f64],
    out_sets: &mut [[u64; 9]],
    out_values: &mut [u64],
) -> Reply
    ensures { gave result.answer (held result.dir (stores sets.new entries.new order.new) values.now)
        (output out_sets.new out_values.new)
        ≡ delta_collected (single_lister s.aggregation) tt s.limit
        (held d (stores sets.old entries.old order.old) values.now)
        (output out_sets.old out_values.old) }
{
    crate::collect::delta(
        false, s, d, sets, entries, order, values, out_sets, out_values,
    )
}

// Requires a map known to agree: delta collection of it, where only 10 is left to ask.
pub fn delta_agreed(
    s: Settings,
    d: Directory,
    sets: &mut [[u64; 9]],
    entries: &mut [[u64; 3]],
    order: &mut [u32],
    values: &[f64],
    out_sets: &mut [[u64; 9]],
    out_values: &mut [u64],
) -> Reply
    requires { Owned (single_store s.aggregation) tt s.limit none (held d (stores sets.old entries.old order.old) values.now) }
    ensures { gave result.answer (held result.dir (stores sets.new entries.new order.new) values.now)
        (output out_sets.new out_values.new)
        ≡ delta_collected (single_lister s.aggregation) tt s.limit
        (held d (stores sets.old entries.old order.old) values.now)
        (output out_sets.old out_values.old) }
{
    crate::collect::delta(
        true, s, d, sets, entries, order, values, out_sets, out_values,
    )
}

// Cumulative collection (`LowMemory` too): lists every named entry, 0.0 for one bound and never recorded, and the empty set's if it was
// updated; or 12, 8, 10. The map stays.
pub fn cumulative(
    s: Settings,
    d: Directory,
    sets: &[[u64; 9]],
    entries: &[[u64; 3]],
    order: &[u32],
    values: &[f64],
    out_sets: &mut [[u64; 9]],
    out_values: &mut [u64],
) -> Result<usize, Refusal>
    ensures { gave result (held d (stores sets.now entries.now order.now) values.now)
        (output out_sets.new out_values.new)
        ≡ cumulative_collected (single_lister s.aggregation) tt s.limit
        (held d (stores sets.now entries.now order.now) values.now)
        (output out_sets.old out_values.old) }
{
    crate::collect::cumulative(
        false, s, d, sets, entries, order, values, out_sets, out_values,
    )
}

// Requires a map known to agree: cumulative collection of it, where only 10 is left to ask.
pub fn cumulative_agreed(
    s: Settings,
    d: Directory,
    sets: &[[u64; 9]],
    entries: &[[u64; 3]],
    order: &[u32],
    values: &[f64],
    out_sets: &mut [[u64; 9]],
    out_values: &mut [u64],
) -> Result<usize, Refusal>
    requires { Owned (single_store s.aggregation) tt s.limit none (held d (stores sets.now entries.now order.now) values.now) }
    ensures { gave result (held d (stores sets.now entries.now order.now) values.now)
        (output out_sets.new out_values.new)
        ≡ cumulative_collected (single_lister s.aggregation) tt s.limit
        (held d (stores sets.now entries.now order.now) values.now)
        (output out_sets.old out_values.old) }
{
    crate::collect::cumulative(
        true, s, d, sets, entries, order, values, out_sets, out_values,
    )
}
