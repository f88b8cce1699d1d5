// The public calls of the exponential kind over i64 around recording: configuring, delta and cumulative collection. What configuring says and
// hands out is as over f64.
#![tactic(auto)]

mod collect;
mod slot;
mod walk;

ghost use Rattle.std.specs.Prelude.{◌≡◌};
ghost use Rattle.std.proofs.Math.Option.{none};
ghost use Rattle.refusals.specs.Refusals.{said};
ghost use Rattle.sets.specs.Sorted.{filter_of};
ghost use Rattle.directory.specs.View.{stores};
ghost use Rattle.exponential_whole_slots.specs.Cells.{cells};
ghost use Rattle.value_map.specs.Calls.{held};
ghost use Rattle.batches.specs.Owned.{Owned};
ghost use Rattle.whole_map.specs.Exponential.{exponential_wholes};
ghost use Rattle.listing.specs.Listed.{output};
ghost use Rattle.collecting.specs.Configured.{configuring};
ghost use Rattle.collecting.specs.Collected.{gave, delta_collected, cumulative_collected};
ghost use Rattle.exponential_whole_collection.specs.Points.{exponential_whole_lister};
ghost use Rattle.exponential_whole_collection.specs.Configured.{configured};

use collecting::Reply;
use directory::Directory;
use exponential_collection::{Settings, Setup};
use refusals::Refusal;

// Configures a map: its settings and fresh state, or 1, 2, 4, 12.
pub fn configure(
    size: u32,
    scale: i32,
    show: bool,
    sums: bool,
    limit: u64,
    present: bool,
    filter: &[u32],
    sets: &[[u64; 9]],
    entries: &mut [[u64; 3]],
    order: &[u32],
    figures: &[[u64; 8]],
    extremes: &[[i64; 3]],
    pos: &[u64],
    neg: &[u64],
) -> Result<Setup, Refusal>
    ensures { configuring (said result) (stores sets.now entries.new order.now)
        ≡ configured size scale show sums limit (filter_of present filter.now)
        (stores sets.now entries.old order.now) (cells figures.now extremes.now pos.now neg.now) }
{
    let found = index::signed::level_of(scale);
    let top = exponential_collection::level_or(found);
    let reply = whole_map::exponential_map::start(
        size, top, sums, limit, present, filter, sets, entries, order, figures, extremes, pos, neg,
    );
    let settings = Settings {
        size,
        top,
        extremes: show,
        sums,
        limit,
    };
    exponential_collection::set_up(settings, reply)
}

// Delta collection: lists the updated entries and resets them; removes those that were neither updated nor bound, but for overflow; or
// 12, 8, 10.
pub fn delta(
    s: Settings,
    d: Directory,
    sets: &mut [[u64; 9]],
    entries: &mut [[u64; 3]],
    order: &mut [u32],
    figures: &[[u64; 8]],
    extremes: &[[i64; 3]],
    pos: &[u64],
    neg: &[u64],
    out_sets: &mut [[u64; 9]],
    out_words: &mut [[u64; 12]],
    out_pos: &mut [u64],
    out_neg: &mut [u64],
) -> Reply
    ensures { gave result.answer (held result.dir (stores sets.new entries.new order.new)
        (cells figures.now extremes.now pos.now neg.now))
        (output out_sets.new out_words.new out_pos.new out_neg.new)
        ≡ delta_collected (exponential_whole_lister s.size s.top s.sums) s.extremes s.limit
        (held d (stores sets.old entries.old order.old) (cells figures.now extremes.now pos.now neg.now))
        (output out_sets.old out_words.old out_pos.old out_neg.old) }
{
    crate::collect::delta(
        false, s, d, sets, entries, order, figures, extremes, pos, neg, out_sets, out_words,
        out_pos, out_neg,
    )
}

// Requires a map known to agree: delta collection of it, where only 10 is left to ask.
pub fn delta_agreed(
    s: Settings,
    d: Directory,
    sets: &mut [[u64; 9]],
    entries: &mut [[u64; 3]],
    order: &mut [u32],
    figures: &[[u64; 8]],
    extremes: &[[i64; 3]],
    pos: &[u64],
    neg: &[u64],
    out_sets: &mut [[u64; 9]],
    out_words: &mut [[u64; 12]],
    out_pos: &mut [u64],
    out_neg: &mut [u64],
) -> Reply
    requires { Owned (exponential_wholes s.size s.top s.sums) s.extremes s.limit none
        (held d (stores sets.old entries.old order.old) (cells figures.now extremes.now pos.now neg.now)) }
    ensures { gave result.answer (held result.dir (stores sets.new entries.new order.new)
        (cells figures.now extremes.now pos.now neg.now))
        (output out_sets.new out_words.new out_pos.new out_neg.new)
        ≡ delta_collected (exponential_whole_lister s.size s.top s.sums) s.extremes s.limit
        (held d (stores sets.old entries.old order.old) (cells figures.now extremes.now pos.now neg.now))
        (output out_sets.old out_words.old out_pos.old out_neg.old) }
{
    crate::collect::delta(
        true, s, d, sets, entries, order, figures, extremes, pos, neg, out_sets, out_words,
        out_pos, out_neg,
    )
}

// Cumulative collection (`LowMemory` too): lists every named entry, and the empty set's if it was updated; or 12, 8, 10. The map stays.
pub fn cumulative(
    s: Settings,
    d: Directory,
    sets: &[[u64; 9]],
    entries: &[[u64; 3]],
    order: &[u32],
    figures: &[[u64; 8]],
    extremes: &[[i64; 3]],
    pos: &[u64],
    neg: &[u64],
    out_sets: &mut [[u64; 9]],
    out_words: &mut [[u64; 12]],
    out_pos: &mut [u64],
    out_neg: &mut [u64],
) -> Result<usize, Refusal>
    ensures { gave result
        (held d (stores sets.now entries.now order.now) (cells figures.now extremes.now pos.now neg.now))
        (output out_sets.new out_words.new out_pos.new out_neg.new)
        ≡ cumulative_collected (exponential_whole_lister s.size s.top s.sums) s.extremes s.limit
        (held d (stores sets.now entries.now order.now) (cells figures.now extremes.now pos.now neg.now))
        (output out_sets.old out_words.old out_pos.old out_neg.old) }
{
    crate::collect::cumulative(
        false, s, d, sets, entries, order, figures, extremes, pos, neg, out_sets, out_words,
        out_pos, out_neg,
    )
}

// Requires a map known to agree: cumulative collection of it, where only 10 is left to ask.
pub fn cumulative_agreed(
    s: Settings,
    d: Directory,
    sets: &[[u64; 9]],
    entries: &[[u64; 3]],
    order: &[u32],
    figures: &[[u64; 8]],
    extremes: &[[i64; 3]],
    pos: &[u64],
    neg: &[u64],
    out_sets: &mut [[u64; 9]],
    out_words: &mut [[u64; 12]],
    out_pos: &mut [u64],
    out_neg: &mut [u64],
) -> Result<usize, Refusal>
    requires { Owned (exponential_wholes s.size s.top s.sums) s.extremes s.limit none
        (held d (stores sets.now entries.now order.now) (cells figures.now extremes.now pos.now neg.now)) }
    ensures { gave result
        (held d (stores sets.now entries.now order.now) (cells figures.now extremes.now pos.now neg.now))
        (output out_sets.new out_words.new out_pos.new out_neg.new)
        ≡ cumulative_collected (exponential_whole_lister s.size s.top s.sums) s.extremes s.limit
        (held d (stores sets.now entries.now order.now) (cells figures.now extremes.now pos.now neg.now))
        (output out_sets.old out_words.old out_pos.old out_neg.old) }
{
    crate::collect::cumulative(
        true, s, d, sets, entries, order, figures, extremes, pos, neg, out_sets, out_words,
        out_pos, out_neg,
    )
}
