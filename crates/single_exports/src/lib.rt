// Calls for programs in other languages: a value recorded by set into a map of sums.
#![tactic(auto)]

ghost use Rattle.std.specs.Prelude.{◌≡◌, [], get_or};
ghost use Rattle.std.proofs.Math.Option.{none};
ghost use Rattle.sets.specs.Sorted.{given};
ghost use Rattle.directory.specs.View.{stores};
ghost use Rattle.value_map.specs.Calls.{held, measured};
ghost use Rattle.singles.specs.Stores.{single_store};
ghost use Rattle.singles.specs.declared.Aggregation.TheVariants.{Sum};
ghost use Rattle.map_words.specs.Words.{state_of, handed, handed_out};

use singles::Aggregation;

// Records a value into the sum of the attributes' set. The state is one entry of three words. Returns document 01's number.
#[unsafe(no_mangle)]
pub extern "C" fn sum_measure(
    limit: u64,
    state: &mut [[u64; 3]; 1],
    sets: &mut [[u64; 9]],
    entries: &mut [[u64; 3]],
    order: &mut [u32],
    values: &mut [f64],
    v: f64,
    attrs: &[[u32; 2]],
) -> u64
    ensures { handed result state.new (stores sets.new entries.new order.new) values.new
        ≡ handed_out state.old (measured (single_store Sum) limit none
        (held (state_of (get_or state.old 0 [])) (stores sets.old entries.old order.old) values.old)
        v (given attrs.now)) }
{
    let d = map_words::state_of(state[0]);
    let no_keys = [0u32; 1];
    let reply = singles::map::measure(
        Aggregation::Sum,
        limit,
        d,
        sets,
        entries,
        order,
        values,
        v,
        attrs,
        false,
        &no_keys,
    );
    let answer = reply.answer;
    let next = reply.dir;
    state[0] = map_words::words_of(next);
    map_words::number_of(answer)
}
