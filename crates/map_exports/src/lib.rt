// Calls for programs in other languages: a value recorded by set into the map of the exponential kind.
#![tactic(auto)]

ghost use Rattle.std.specs.Prelude.{◌≡◌, [], get_or};
ghost use Rattle.std.proofs.Math.Option.{none};
ghost use Rattle.sets.specs.Sorted.{given};
ghost use Rattle.directory.specs.View.{stores};
ghost use Rattle.exponential_slots.specs.Cells.{cells};
ghost use Rattle.value_map.specs.Calls.{held, measured};
ghost use Rattle.value_map.specs.Exponential.{exponential_store};
ghost use Rattle.map_words.specs.Words.{state_of, handed, handed_out};

// Records a value into the series of the attributes' set. The state is one entry of three words. Returns document 01's number.
#[unsafe(no_mangle)]
pub extern "C" fn map_measure(
    size: u32,
    top: u32,
    limit: u64,
    state: &mut [[u64; 3]; 1],
    sets: &mut [[u64; 9]],
    entries: &mut [[u64; 3]],
    order: &mut [u32],
    figures: &mut [[u64; 8]],
    extremes: &mut [[f64; 3]],
    pos: &mut [u64],
    neg: &mut [u64],
    v: f64,
    attrs: &[[u32; 2]],
) -> u64
    ensures { handed result state.new (stores sets.new entries.new order.new) (cells figures.new extremes.new pos.new neg.new)
        ≡ handed_out state.old (measured (exponential_store size top) limit none
        (held (state_of (get_or state.old 0 [])) (stores sets.old entries.old order.old)
        (cells figures.old extremes.old pos.old neg.old)) v (given attrs.now)) }
{
    let d = map_words::state_of(state[0]);
    let no_keys = [0u32; 1];
    let reply = value_map::exponential_map::measure(
        size, top, limit, d, sets, entries, order, figures, extremes, pos, neg, v, attrs, false,
        &no_keys,
    );
    let answer = reply.answer;
    let next = reply.dir;
    state[0] = map_words::words_of(next);
    map_words::number_of(answer)
}
