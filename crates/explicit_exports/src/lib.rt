// Calls for programs in other languages: a value recorded by set into the map of the explicit kind.
#![tactic(auto)]

ghost use Rattle.std.specs.Prelude.{◌≡◌, [], get_or};
ghost use Rattle.std.proofs.Math.Option.{none};
ghost use Rattle.sets.specs.Sorted.{given};
ghost use Rattle.directory.specs.View.{stores};
ghost use Rattle.explicit_slots.specs.Cells.{cells};
ghost use Rattle.value_map.specs.Calls.{held, measured};
ghost use Rattle.value_map.specs.Explicit.{explicit_store};
ghost use Rattle.map_words.specs.Words.{state_of, handed, handed_out};

// Records a value into the series of the attributes' set. The state is one entry of three words. Returns document 01's number.
#[unsafe(no_mangle)]
pub extern "C" fn explicit_measure(
    bounds: &[f64],
    limit: u64,
    state: &mut [[u64; 3]; 1],
    sets: &mut [[u64; 9]],
    entries: &mut [[u64; 3]],
    order: &mut [u32],
    totals: &mut [u64],
    extremes: &mut [[f64; 3]],
    counts: &mut [u64],
    v: f64,
    attrs: &[[u32; 2]],
) -> u64
    ensures { handed result state.new (stores sets.new entries.new order.new) (cells totals.new extremes.new counts.new)
        ≡ handed_out state.old (measured (explicit_store bounds.now) limit none
        (held (state_of (get_or state.old 0 [])) (stores sets.old entries.old order.old)
        (cells totals.old extremes.old counts.old)) v (given attrs.now)) }
{
    let d = map_words::state_of(state[0]);
    let no_keys = [0u32; 1];
    let reply = value_map::explicit_map::measure(
        bounds, limit, d, sets, entries, order, totals, extremes, counts, v, attrs, false, &no_keys,
    );
    let answer = reply.answer;
    let next = reply.dir;
    state[0] = map_words::words_of(next);
    map_words::number_of(answer)
}
