// Calls for programs in other languages: a value recorded by handle into a map
// of the exponential kind that the caller keeps agreeing.
#![tactic(auto)]

ghost use Rattle.std.specs.Prelude.{◌≡◌, true, [], get_or};
ghost use Rattle.directory.specs.View.{stores};
ghost use Rattle.exponential_slots.specs.Cells.{cells};
ghost use Rattle.value_map.specs.Calls.{held, measured_by};
ghost use Rattle.value_map.specs.Exponential.{exponential_store};
ghost use Rattle.map_words.specs.Words.{state_of, handed, handed_out};
ghost use Rattle.batches.specs.Agreed.{AgreedBy};

// Records a value into the series that the handle names. The state is one entry of three words. The map must agree, as it does
// after configuring and after every call of these crates, where nobody else writes its memory. Returns document 01's number.
#[unsafe(no_mangle)]
pub extern "C" fn agreed_measure_by(
    size: u32,
    top: u32,
    limit: u64,
    state: &mut [[u64; 3]; 1],
    sets: &mut [[u64; 9]],
    entries: &mut [[u64; 3]],
    order: &mut [u32],
    figures: &mut [[u64; 8]],
    extremes: &mut [[f64; 3]],
    pos: &mut [u64],
    neg: &mut [u64],
    v: f64,
    handle: u64,
) -> u64
    requires { AgreedBy (exponential_store size top) (true, true) limit (held (state_of (get_or state.old 0 []))
        (stores sets.old entries.old order.old) (cells figures.old extremes.old pos.old neg.old)) handle }
    ensures { handed result state.new (stores sets.new entries.new order.new)
        (cells figures.new extremes.new pos.new neg.new)
        ≡ handed_out state.old (measured_by (exponential_store size top) limit
        (held (state_of (get_or state.old 0 [])) (stores sets.old entries.old order.old)
        (cells figures.old extremes.old pos.old neg.old)) v handle) }
{
    let d = map_words::state_of(state[0]);
    let reply = exponential_batches::measure_by_agreed(
        size, top, limit, d, sets, entries, order, figures, extremes, pos, neg, v, handle,
    );
    let answer = reply.answer;
    let next = reply.dir;
    state[0] = map_words::words_of(next);
    map_words::number_of(answer)
}
