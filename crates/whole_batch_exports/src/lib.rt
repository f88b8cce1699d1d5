// Calls for programs in other languages: values recorded one after another by one handle into a map of the exponential kind over i64, with the sum on.
#![tactic(auto)]

ghost use Rattle.std.specs.Prelude.{◌≡◌, true, [], get_or};
ghost use Rattle.directory.specs.View.{stores};
ghost use Rattle.exponential_whole_slots.specs.Cells.{cells};
ghost use Rattle.value_map.specs.Calls.{held};
ghost use Rattle.whole_map.specs.Exponential.{exponential_wholes};
ghost use Rattle.map_words.specs.Words.{state_of};
ghost use Rattle.batches.specs.Batch.{measured_all_by};
ghost use Rattle.batch_words.specs.Words.{handed, handed_out};

// Records values into the series that the handle names, up to the first that is refused; how many were taken is put into `taken`. The state is
// one entry of three words. Returns document 01's number of the refusal, 0 if none.
#[unsafe(no_mangle)]
pub extern "C" fn whole_measure_all_by(
    size: u32,
    top: u32,
    limit: u64,
    state: &mut [[u64; 3]; 1],
    sets: &mut [[u64; 9]],
    entries: &mut [[u64; 3]],
    order: &mut [u32],
    figures: &mut [[u64; 8]],
    extremes: &mut [[i64; 3]],
    pos: &mut [u64],
    neg: &mut [u64],
    values: &[i64],
    handle: u64,
    taken: &mut [u64; 1],
) -> u64
    ensures { handed result taken.new state.new (stores sets.new entries.new order.new) (cells figures.new extremes.new pos.new neg.new)
        ≡ handed_out taken.old state.old (measured_all_by (exponential_wholes size top true) limit
        (held (state_of (get_or state.old 0 [])) (stores sets.old entries.old order.old)
        (cells figures.old extremes.old pos.old neg.old)) values.now handle) }
{
    let d = map_words::state_of(state[0]);
    let got = exponential_whole_batches::measure_all_by(
        size, top, true, limit, d, sets, entries, order, figures, extremes, pos, neg, values,
        handle,
    );
    let next = got.dir;
    state[0] = map_words::words_of(next);
    taken[0] = got.taken as u64;
    refusals::code(got.end) as u64
}
