// Calls for programs in other languages: values recorded one after another into one set's series into a map of the exponential kind.
#![tactic(auto)]

ghost use Rattle.std.specs.Prelude.{◌≡◌, [], get_or};
ghost use Rattle.std.proofs.Math.Option.{none};
ghost use Rattle.sets.specs.Sorted.{given};
ghost use Rattle.directory.specs.View.{stores};
ghost use Rattle.exponential_slots.specs.Cells.{cells};
ghost use Rattle.value_map.specs.Calls.{held};
ghost use Rattle.value_map.specs.Exponential.{exponential_store};
ghost use Rattle.map_words.specs.Words.{state_of};
ghost use Rattle.batches.specs.Batch.{measured_all};
ghost use Rattle.batch_words.specs.Words.{handed, handed_out};

// Records values into the series of the attributes' set, up to the first that is refused; how many were taken is put into `taken`. The state is
// one entry of three words. Returns document 01's number of the refusal, 0 if none.
#[unsafe(no_mangle)]
pub extern "C" fn map_measure_all(
    size: u32,
    top: u32,
    limit: u64,
    state: &mut [[u64; 3]; 1],
    sets: &mut [[u64; 9]],
    entries: &mut [[u64; 3]],
    order: &mut [u32],
    figures: &mut [[u64; 8]],
    extremes: &mut [[f64; 3]],
    pos: &mut [u64],
    neg: &mut [u64],
    values: &[f64],
    attrs: &[[u32; 2]],
    taken: &mut [u64; 1],
) -> u64
    ensures { handed result taken.new state.new (stores sets.new entries.new order.new)
        (cells figures.new extremes.new pos.new neg.new)
        ≡ handed_out taken.old state.old (measured_all (exponential_store size top) limit none
        (held (state_of (get_or state.old 0 [])) (stores sets.old entries.old order.old)
        (cells figures.old extremes.old pos.old neg.old)) values.now (given attrs.now)) }
{
    let d = map_words::state_of(state[0]);
    let no_keys = [0u32; 1];
    let got = exponential_batches::measure_all(
        size, top, limit, d, sets, entries, order, figures, extremes, pos, neg, values, attrs,
        false, &no_keys,
    );
    let next = got.dir;
    state[0] = map_words::words_of(next);
    taken[0] = got.taken as u64;
    refusals::code(got.end) as u64
}
