// The public calls of the explicit kind around recording: configuring, delta and cumulative collection. `Histogram` of histogram.rs, and
// its `ComputeAggregation`.
#![tactic(auto)]

mod collect;
pub mod slot;
mod walk;

ghost use Rattle.std.specs.Prelude.{◌≡◌};
ghost use Rattle.std.proofs.Math.Option.{none};
ghost use Rattle.refusals.specs.Refusals.{said};
ghost use Rattle.numbered.specs.Numbered.{said_by};
ghost use Rattle.sets.specs.Sorted.{filter_of};
ghost use Rattle.directory.specs.View.{stores};
ghost use Rattle.bindings.specs.Calls as Bindings;
ghost use Rattle.explicit_slots.specs.Cells.{cells};
ghost use Rattle.value_map.specs.Calls.{held};
ghost use Rattle.value_map.specs.Explicit.{explicit_store};
ghost use Rattle.batches.specs.Owned.{Owned};
ghost use Rattle.listing.specs.Listed.{output};
ghost use Rattle.collecting.specs.Configured.{set_up, configuring};
ghost use Rattle.collecting.specs.Collected.{gave, delta_collected, cumulative_collected};
ghost use Rattle.explicit_collection.specs.Points.{explicit_lister};
ghost use Rattle.explicit_collection.specs.Configured.{configured};

use collecting::Reply;
use directory::Directory;
use numbered::Numbered;
use refusals::Refusal;

// What was configured: the two switches and the cardinality limit; the bounds are lent at every call.
#[derive(Clone, Copy)]
pub struct Settings {
    pub extremes: bool,
    pub sums: bool,
    pub limit: u64,
}

// The settings of a map, and its state.
#[derive(Clone, Copy)]
pub struct Setup {
    pub settings: Settings,
    pub dir: Directory,
}

// What configuring says by what the start of the map replied.
pub fn set_up<E: Numbered>(settings: Settings, reply: bindings::Reply<E>) -> Result<Setup, E>
    ensures { said_by E.number result ≡ set_up (record { settings = settings; dir = reply.dir }) (Bindings.said_by E.number reply.answer) }
{
    reply.answer?;
    Ok(Setup {
        settings,
        dir: reply.dir,
    })
}

// Configures a map: its settings and fresh state, or 3, 4, 12.
pub fn configure(
    bounds: &[f64],
    show: bool,
    sums: bool,
    limit: u64,
    present: bool,
    filter: &[u32],
    sets: &[[u64; 9]],
    entries: &mut [[u64; 3]],
    order: &[u32],
    totals: &[u64],
    extremes: &[[f64; 3]],
    counts: &[u64],
) -> Result<Setup, Refusal>
    ensures { configuring (said result) (stores sets.now entries.new order.now)
        ≡ configured bounds.now show sums limit (filter_of present filter.now)
        (stores sets.now entries.old order.now) (cells totals.now extremes.now counts.now) }
{
    let reply = value_map::explicit_map::start(
        bounds, limit, present, filter, sets, entries, order, totals, extremes, counts,
    );
    let settings = Settings {
        extremes: show,
        sums,
        limit,
    };
    set_up(settings, reply)
}

// Delta collection: lists the updated entries and resets them; removes those that were neither updated nor bound, but for overflow; or 12, 8, 10.
pub fn delta(
    bounds: &[f64],
    s: Settings,
    d: Directory,
    sets: &mut [[u64; 9]],
    entries: &mut [[u64; 3]],
    order: &mut [u32],
    totals: &[u64],
    extremes: &[[f64; 3]],
    counts: &[u64],
    out_sets: &mut [[u64; 9]],
    out_words: &mut [[u64; 12]],
    out_pos: &mut [u64],
    out_neg: &mut [u64],
) -> Reply
    ensures { gave result.answer
        (held result.dir (stores sets.new entries.new order.new) (cells totals.now extremes.now counts.now))
        (output out_sets.new out_words.new out_pos.new out_neg.new)
        ≡ delta_collected (explicit_lister bounds.now) (s.extremes, s.sums) s.limit
        (held d (stores sets.old entries.old order.old) (cells totals.now extremes.now counts.now))
        (output out_sets.old out_words.old out_pos.old out_neg.old) }
{
    crate::collect::delta(
        false, bounds, s, d, sets, entries, order, totals, extremes, counts, out_sets, out_words,
        out_pos, out_neg,
    )
}

// Requires a map known to agree: delta collection of it, where only 10 is left to ask.
pub fn delta_agreed(
    bounds: &[f64],
    s: Settings,
    d: Directory,
    sets: &mut [[u64; 9]],
    entries: &mut [[u64; 3]],
    order: &mut [u32],
    totals: &[u64],
    extremes: &[[f64; 3]],
    counts: &[u64],
    out_sets: &mut [[u64; 9]],
    out_words: &mut [[u64; 12]],
    out_pos: &mut [u64],
    out_neg: &mut [u64],
) -> Reply
    requires { Owned (explicit_store bounds.now) (s.extremes, s.sums) s.limit none
        (held d (stores sets.old entries.old order.old) (cells totals.now extremes.now counts.now)) }
    ensures { gave result.answer
        (held result.dir (stores sets.new entries.new order.new) (cells totals.now extremes.now counts.now))
        (output out_sets.new out_words.new out_pos.new out_neg.new)
        ≡ delta_collected (explicit_lister bounds.now) (s.extremes, s.sums) s.limit
        (held d (stores sets.old entries.old order.old) (cells totals.now extremes.now counts.now))
        (output out_sets.old out_words.old out_pos.old out_neg.old) }
{
    crate::collect::delta(
        true, bounds, s, d, sets, entries, order, totals, extremes, counts, out_sets, out_words,
        out_pos, out_neg,
    )
}

// Cumulative collection (`LowMemory` too): lists every named entry, and the empty set's if it was updated; or 12, 8, 10. The map stays.
pub fn cumulative(
    bounds: &[f64],
    s: Settings,
    d: Directory,
    sets: &[[u64; 9]],
    entries: &[[u64; 3]],
    order: &[u32],
    totals: &[u64],
    extremes: &[[f64; 3]],
    counts: &[u64],
    out_sets: &mut [[u64; 9]],
    out_words: &mut [[u64; 12]],
    out_pos: &mut [u64],
    out_neg: &mut [u64],
) -> Result<usize, Refusal>
    ensures { gave result
        (held d (stores sets.now entries.now order.now) (cells totals.now extremes.now counts.now))
        (output out_sets.new out_words.new out_pos.new out_neg.new)
        ≡ cumulative_collected (explicit_lister bounds.now) (s.extremes, s.sums) s.limit
        (held d (stores sets.now entries.now order.now) (cells totals.now extremes.now counts.now))
        (output out_sets.old out_words.old out_pos.old out_neg.old) }
{
    crate::collect::cumulative(
        false, bounds, s, d, sets, entries, order, totals, extremes, counts, out_sets, out_words,
        out_pos, out_neg,
    )
}

// Requires a map known to agree: cumulative collection of it, where only 10 is left to ask.
pub fn cumulative_agreed(
    bounds: &[f64],
    s: Settings,
    d: Directory,
    sets: &[[u64; 9]],
    entries: &[[u64; 3]],
    order: &[u32],
    totals: &[u64],
    extremes: &[[f64; 3]],
    counts: &[u64],
    out_sets: &mut [[u64; 9]],
    out_words: &mut [[u64; 12]],
    out_pos: &mut [u64],
    out_neg: &mut [u64],
) -> Result<usize, Refusal>
    requires { Owned (explicit_store bounds.now) (s.extremes, s.sums) s.limit none
        (held d (stores sets.now entries.now order.now) (cells totals.now extremes.now counts.now)) }
    ensures { gave result
        (held d (stores sets.now entries.now order.now) (cells totals.now extremes.now counts.now))
        (output out_sets.new out_words.new out_pos.new out_neg.new)
        ≡ cumulative_collected (explicit_lister bounds.now) (s.extremes, s.sums) s.limit
        (held d (stores sets.now entries.now order.now) (cells totals.now extremes.now counts.now))
        (output out_sets.old out_words.old out_pos.old out_neg.old) }
{
    crate::collect::cumulative(
        true, bounds, s, d, sets, entries, order, totals, extremes, counts, out_sets, out_words,
        out_pos, out_neg,
    )
}
