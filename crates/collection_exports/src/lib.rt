// Calls for programs in other languages: delta and cumulative collection of a map of the exponential kind.
#![tactic(auto)]

ghost use Rattle.std.specs.Prelude.{◌≡◌, true, [], get_or};
ghost use Rattle.laws.specs.Said.{number};
ghost use Rattle.directory.specs.View.{stores};
ghost use Rattle.exponential_slots.specs.Cells.{cells};
ghost use Rattle.value_map.specs.Calls.{held};
ghost use Rattle.listing.specs.Listed.{output};
ghost use Rattle.refusals.specs.Refusals.{said};
ghost use Rattle.collecting.specs.Collected.{delta_collected, cumulative_collected};
ghost use Rattle.exponential_collection.specs.Points.{exponential_lister};
ghost use Rattle.map_words.specs.Words.{state_of};
ghost use Rattle.collection_exports.specs.Words.{points_in, listed, listed_out, handed, handed_out};

use exponential_collection::Settings;
use refusals::Refusal;

// Document 01's number of an answer.
fn number_of(answer: Result<usize, Refusal>) -> u64
    ensures { result ≡ number (said answer) }
{
    match answer {
        Err(e) => e.number() as u64,
        Ok(_) => 0,
    }
}

// How many points an answer tells of.
fn points_of(answer: Result<usize, Refusal>) -> u64
    ensures { result ≡ points_in (said answer) }
{
    match answer {
        Err(_) => 0,
        Ok(n) => n as u64,
    }
}

// Collects with both switches on, and resets. The state is one entry of three words. Returns document 01's number; how many points lie in the
// output is put into `points`.
#[unsafe(no_mangle)]
pub extern "C" fn map_delta(
    size: u32,
    top: u32,
    limit: u64,
    state: &mut [[u64; 3]; 1],
    sets: &mut [[u64; 9]],
    entries: &mut [[u64; 3]],
    order: &mut [u32],
    figures: &[[u64; 8]],
    extremes: &[[f64; 3]],
    pos: &[u64],
    neg: &[u64],
    out_sets: &mut [[u64; 9]],
    out_words: &mut [[u64; 12]],
    out_pos: &mut [u64],
    out_neg: &mut [u64],
    points: &mut [u64; 1],
) -> u64
    ensures { handed result state.new points.new (stores sets.new entries.new order.new)
        (output out_sets.new out_words.new out_pos.new out_neg.new)
        ≡ handed_out state.old points.old (delta_collected (exponential_lister size top) (true, true) limit
        (held (state_of (get_or state.old 0 [])) (stores sets.old entries.old order.old)
        (cells figures.now extremes.now pos.now neg.now))
        (output out_sets.old out_words.old out_pos.old out_neg.old)) }
{
    let d = map_words::state_of(state[0]);
    let s = Settings {
        size,
        top,
        extremes: true,
        sums: true,
        limit,
    };
    let reply = exponential_collection::delta(
        s, d, sets, entries, order, figures, extremes, pos, neg, out_sets, out_words, out_pos,
        out_neg,
    );
    let answer = reply.answer;
    let next = reply.dir;
    state[0] = map_words::words_of(next);
    points[0] = points_of(answer);
    number_of(answer)
}

// The same of a cumulative collection: the map stays.
#[unsafe(no_mangle)]
pub extern "C" fn map_cumulative(
    size: u32,
    top: u32,
    limit: u64,
    state: &[[u64; 3]; 1],
    sets: &[[u64; 9]],
    entries: &[[u64; 3]],
    order: &[u32],
    figures: &[[u64; 8]],
    extremes: &[[f64; 3]],
    pos: &[u64],
    neg: &[u64],
    out_sets: &mut [[u64; 9]],
    out_words: &mut [[u64; 12]],
    out_pos: &mut [u64],
    out_neg: &mut [u64],
    points: &mut [u64; 1],
) -> u64
    ensures { listed result points.new (output out_sets.new out_words.new out_pos.new out_neg.new)
        ≡ listed_out points.old (cumulative_collected (exponential_lister size top) (true, true) limit
        (held (state_of (get_or state.now 0 [])) (stores sets.now entries.now order.now)
        (cells figures.now extremes.now pos.now neg.now))
        (output out_sets.old out_words.old out_pos.old out_neg.old)) }
{
    let d = map_words::state_of(state[0]);
    let s = Settings {
        size,
        top,
        extremes: true,
        sums: true,
        limit,
    };
    let answer = exponential_collection::cumulative(
        s, d, sets, entries, order, figures, extremes, pos, neg, out_sets, out_words, out_pos,
        out_neg,
    );
    points[0] = points_of(answer);
    number_of(answer)
}
