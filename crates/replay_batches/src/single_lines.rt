// Sums and last values. Their values lie behind the bounds.
ghost use Rattle.std.specs.Prelude.{◌≡◌};
ghost use Rattle.singles.specs.Stores.{single_store};
ghost use Rattle.replay_state.specs.After.{single};
ghost use Rattle.replay_state.specs.Bound.{lent_stores, given_in};
ghost use Rattle.replay_singles.specs.Followed.{kind_of, values_in};
ghost use Rattle.replay_batches.specs.Batched.{list_in, after_all, after_all_by, after_batch};

use replay_state::{State, lent};

fn measure_all(
    s: State,
    floats: &[f64],
    attrs: &[[u32; 2]],
    bounds: &mut [f64],
    sets: &mut [[u64; 9]],
    entries: &mut [[u64; 3]],
    order: &mut [u32],
) -> State
    ensures { result ≡ after_all (single_store (kind_of s)) s (list_in s 1 floats.now) (given_in s attrs.now)
        (lent_stores s sets.old entries.old order.old) (values_in s bounds.old) }
{
    let n = s.entries;
    let filter = s.filter;
    let reply = single_batches::measure_all(
        replay_singles::aggregation(s),
        s.limit,
        s.dir,
        lent::sets(sets, n),
        lent::entries(entries, n),
        lent::order(order, n),
        lent::values(bounds, n),
        crate::floats_in(floats, s.f[1]),
        lent::given(attrs, s.f[2]),
        s.filtered,
        lent::keys(&filter, s.keys as u64),
    );
    crate::batched(s, reply)
}

fn measure_all_by(
    s: State,
    floats: &[f64],
    bounds: &mut [f64],
    sets: &mut [[u64; 9]],
    entries: &mut [[u64; 3]],
    order: &mut [u32],
) -> State
    ensures { result ≡ after_all_by (single_store (kind_of s)) s (list_in s 2 floats.now)
        (lent_stores s sets.old entries.old order.old) (values_in s bounds.old) }
{
    let n = s.entries;
    let reply = single_batches::measure_all_by(
        replay_singles::aggregation(s),
        s.limit,
        s.dir,
        lent::sets(sets, n),
        lent::entries(entries, n),
        lent::order(order, n),
        lent::values(bounds, n),
        crate::floats_in(floats, s.f[2]),
        s.f[1],
    );
    crate::batched(s, reply)
}

// Makes the call of a line with many values, if it is one of a map of these kinds.
pub fn follow(
    s: State,
    floats: &[f64],
    attrs: &[[u32; 2]],
    bounds: &mut [f64],
    sets: &mut [[u64; 9]],
    entries: &mut [[u64; 3]],
    order: &mut [u32],
) -> State
    ensures { result ≡ after_batch (single_store (kind_of s)) (single s.of) s floats.now (given_in s attrs.now)
        (lent_stores s sets.old entries.old order.old) (values_in s bounds.old) }
{
    if !replay_state::is_single(s.of) {
        return s;
    }
    let letter = s.letter;
    match letter {
        b'R' => measure_all(s, floats, attrs, bounds, sets, entries, order),
        b'H' => measure_all_by(s, floats, bounds, sets, entries, order),
        _ => s,
    }
}
