// The public calls of the exponential kind around recording: configuring, delta and cumulative collection. `ExpoHistogram` of
// exponential_histogram.rs, and its `ComputeAggregation`.
#![tactic(auto)]

mod collect;
pub mod slot;
mod walk;

ghost use Rattle.std.specs.Prelude.{◌≡◌};
ghost use Rattle.std.proofs.Math.Option.{none};
ghost use Rattle.refusals.specs.Refusals.{said};
ghost use Rattle.numbered.specs.Numbered.{said_by};
ghost use Rattle.sets.specs.Sorted.{filter_of};
ghost use Rattle.directory.specs.View.{stores};
ghost use Rattle.bindings.specs.Calls as bindings-calls;
ghost use Rattle.exponential_slots.specs.Cells.{cells};
ghost use Rattle.value_map.specs.Calls.{held};
ghost use Rattle.value_map.specs.Exponential.{exponential_store};
ghost use Rattle.batches.specs.Owned.{Owned};
ghost use Rattle.listing.specs.Listed.{output};
ghost use Rattle.collecting.specs.Configured.{set_up, configuring};
ghost use Rattle.collecting.specs.Collected.{gave, delta_collected, cumulative_collected};
ghost use Rattle.exponential_collection.specs.Points.{exponential_lister};
ghost use Rattle.exponential_collection.specs.Configured.{level_or, configured};

use collecting::Reply;
use directory::Directory;
use numbered::Numbered;
use refusals::Refusal;

// What was configured: max_size, the greatest level, the two switches, the cardinality limit.
#[derive(Clone, Copy)]
pub struct Settings {
    pub size: u32,
    pub top: u32,
    pub extremes: bool,
    pub sums: bool,
    pub limit: u64,
}

// The settings of a map, and its state.
#[derive(Clone, Copy)]
pub struct Setup {
    pub settings: Settings,
    pub dir: Directory,
}

// The greatest level of a max_scale; one above the finest where the scale is out of range, which number 2 refuses.
pub fn level_or(found: Option<u32>) -> u32
    ensures { result ≡ level_or found }
{
    match found {
        None => index::FINEST + 1,
        Some(level) => level,
    }
}

// What configuring says by what the start said: a refusal hands out no state.
pub fn set_up<E: Numbered>(z: Settings, r: bindings::Reply<E>) -> Result<Setup, E>
    ensures { said_by E.number result ≡ set_up (record { settings = z; dir = r.dir }) (bindings-calls.said_by E.number r.answer) }
{
    r.answer?;
    Ok(Setup {
        settings: z,
        dir: r.dir,
    })
}

// Configures a map: its settings and fresh state, or 1, 2, 4, 12.
pub fn configure(
    size: u32,
    scale: i32,
    show: bool,
    sums: bool,
    limit: u64,
    present: bool,
    filter: &[u32],
    sets: &[[u64; 9]],
    entries: &mut [[u64; 3]],
    order: &[u32],
    figures: &[[u64; 8]],
    extremes: &[[f64; 3]],
    pos: &[u64],
    neg: &[u64],
) -> Result<Setup, Refusal>
    ensures { configuring (said result) (stores sets.now entries.new order.now)
        ≡ configured size scale show sums limit (filter_of present filter.now)
        (stores sets.now entries.old order.now) (cells figures.now extremes.now pos.now neg.now) }
{
    let found = index::signed::level_of(scale);
    let top = level_or(found);
    let reply = value_map::exponential_map::start(
        size, top, limit, present, filter, sets, entries, order, figures, extremes, pos, neg,
    );
    let settings = Settings {
        size,
        top,
        extremes: show,
        sums,
        limit,
    };
    set_up(settings, reply)
}

// Delta collection: lists the updated entries and resets them; removes those that were neither updated nor bound, but for overflow; or
// 12, 8, 10.
pub fn delta(
    s: Settings,
    d: Directory,
    sets: &mut [[u64; 9]],
    entries: &mut [[u64; 3]],
    order: &mut [u32],
    figures: &[[u64; 8]],
    extremes: &[[f64; 3]],
    pos: &[u64],
    neg: &[u64],
    out_sets: &mut [[u64; 9]],
    out_words: &mut [[u64; 12]],
    out_pos: &mut [u64],
    out_neg: &mut [u64],
) -> Reply
    ensures { gave result.answer (held result.dir (stores sets.new entries.new order.new)
        (cells figures.now extremes.now pos.now neg.now))
        (output out_sets.new out_words.new out_pos.new out_neg.new)
        ≡ delta_collected (exponential_lister s.size s.top) (s.extremes, s.sums) s.limit
        (held d (stores sets.old entries.old order.old) (cells figures.now extremes.now pos.now neg.now))
        (output out_sets.old out_words.old out_pos.old out_neg.old) }
{
    crate::collect::delta(
        false, s, d, sets, entries, order, figures, extremes, pos, neg, out_sets, out_words,
        out_pos, out_neg,
    )
}

// Requires a map known to agree: delta collection of it, where only 10 is left to ask.
pub fn delta_agreed(
    s: Settings,
    d: Directory,
    sets: &mut [[u64; 9]],
    entries: &mut [[u64; 3]],
    order: &mut [u32],
    figures: &[[u64; 8]],
    extremes: &[[f64; 3]],
    pos: &[u64],
    neg: &[u64],
    out_sets: &mut [[u64; 9]],
    out_words: &mut [[u64; 12]],
    out_pos: &mut [u64],
    out_neg: &mut [u64],
) -> Reply
    requires { Owned (exponential_store s.size s.top) (s.extremes, s.sums) s.limit none
        (held d (stores sets.old entries.old order.old) (cells figures.now extremes.now pos.now neg.now)) }
    ensures { gave result.answer (held result.dir (stores sets.new entries.new order.new)
        (cells figures.now extremes.now pos.now neg.now))
        (output out_sets.new out_words.new out_pos.new out_neg.new)
        ≡ delta_collected (exponential_lister s.size s.top) (s.extremes, s.sums) s.limit
        (held d (stores sets.old entries.old order.old) (cells figures.now extremes.now pos.now neg.now))
        (output out_sets.old out_words.old out_pos.old out_neg.old) }
{
    crate::collect::delta(
        true, s, d, sets, entries, order, figures, extremes, pos, neg, out_sets, out_words,
        out_pos, out_neg,
    )
}

// Cumulative collection (`LowMemory` too): lists every named entry, and the empty set's if it was updated; or 12, 8, 10. The map stays.
pub fn cumulative(
    s: Settings,
    d: Directory,
    sets: &[[u64; 9]],
    entries: &[[u64; 3]],
    order: &[u32],
    figures: &[[u64; 8]],
    extremes: &[[f64; 3]],
    pos: &[u64],
    neg: &[u64],
    out_sets: &mut [[u64; 9]],
    out_words: &mut [[u64; 12]],
    out_pos: &mut [u64],
    out_neg: &mut [u64],
) -> Result<usize, Refusal>
    ensures { gave result
        (held d (stores sets.now entries.now order.now) (cells figures.now extremes.now pos.now neg.now))
        (output out_sets.new out_words.new out_pos.new out_neg.new)
        ≡ cumulative_collected (exponential_lister s.size s.top) (s.extremes, s.sums) s.limit
        (held d (stores sets.now entries.now order.now) (cells figures.now extremes.now pos.now neg.now))
        (output out_sets.old out_words.old out_pos.old out_neg.old) }
{
    crate::collect::cumulative(
        false, s, d, sets, entries, order, figures, extremes, pos, neg, out_sets, out_words,
        out_pos, out_neg,
    )
}

// Requires a map known to agree: cumulative collection of it, where only 10 is left to ask.
pub fn cumulative_agreed(
    s: Settings,
    d: Directory,
    sets: &[[u64; 9]],
    entries: &[[u64; 3]],
    order: &[u32],
    figures: &[[u64; 8]],
    extremes: &[[f64; 3]],
    pos: &[u64],
    neg: &[u64],
    out_sets: &mut [[u64; 9]],
    out_words: &mut [[u64; 12]],
    out_pos: &mut [u64],
    out_neg: &mut [u64],
) -> Result<usize, Refusal>
    requires { Owned (exponential_store s.size s.top) (s.extremes, s.sums) s.limit none
        (held d (stores sets.now entries.now order.now) (cells figures.now extremes.now pos.now neg.now)) }
    ensures { gave result
        (held d (stores sets.now entries.now order.now) (cells figures.now extremes.now pos.now neg.now))
        (output out_sets.new out_words.new out_pos.new out_neg.new)
        ≡ cumulative_collected (exponential_lister s.size s.top) (s.extremes, s.sums) s.limit
        (held d (stores sets.now entries.now order.now) (cells figures.now extremes.now pos.now neg.now))
        (output out_sets.old out_words.old out_pos.old out_neg.old) }
{
    crate::collect::cumulative(
        true, s, d, sets, entries, order, figures, extremes, pos, neg, out_sets, out_words,
        out_pos, out_neg,
    )
}
