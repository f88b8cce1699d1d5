// The explicit kind over f64.
ghost use Rattle.std.specs.Prelude.{◌≡◌, eqb};
ghost use Rattle.value_map.specs.Explicit.{explicit_store};
ghost use Rattle.replay_state.specs.Bound.{lent_stores, given_in};
ghost use Rattle.replay_explicit.specs.Followed.{bounds_in, cells_in};
ghost use Rattle.replay_batches.specs.Batched.{list_in, after_all, after_all_by, after_batch};

use replay_state::{State, lent};

fn measure_all(
    s: State,
    floats: &[f64],
    attrs: &[[u32; 2]],
    bounds: &[f64],
    sets: &mut [[u64; 9]],
    entries: &mut [[u64; 3]],
    order: &mut [u32],
    extremes: &mut [[f64; 3]],
    pos: &mut [u64],
    neg: &mut [u64],
) -> State
    ensures { result ≡ after_all (explicit_store (bounds_in s bounds.now)) s (list_in s 1 floats.now) (given_in s attrs.now)
        (lent_stores s sets.old entries.old order.old) (cells_in s neg.old extremes.old pos.old) }
{
    let n = s.entries;
    let filter = s.filter;
    let reply = explicit_batches::measure_all(
        lent::bounds_in(bounds, 1, s.bounds as u64),
        s.limit,
        s.dir,
        lent::sets(sets, n),
        lent::entries(entries, n),
        lent::order(order, n),
        lent::totals(neg, n),
        lent::extremes(extremes, n),
        lent::counts(pos, s.counts),
        crate::floats_in(floats, s.f[1]),
        lent::given(attrs, s.f[2]),
        s.filtered,
        lent::keys(&filter, s.keys as u64),
    );
    crate::batched(s, reply)
}

fn measure_all_by(
    s: State,
    floats: &[f64],
    bounds: &[f64],
    sets: &mut [[u64; 9]],
    entries: &mut [[u64; 3]],
    order: &mut [u32],
    extremes: &mut [[f64; 3]],
    pos: &mut [u64],
    neg: &mut [u64],
) -> State
    ensures { result ≡ after_all_by (explicit_store (bounds_in s bounds.now)) s (list_in s 2 floats.now)
        (lent_stores s sets.old entries.old order.old) (cells_in s neg.old extremes.old pos.old) }
{
    let n = s.entries;
    let reply = explicit_batches::measure_all_by(
        lent::bounds_in(bounds, 1, s.bounds as u64),
        s.limit,
        s.dir,
        lent::sets(sets, n),
        lent::entries(entries, n),
        lent::order(order, n),
        lent::totals(neg, n),
        lent::extremes(extremes, n),
        lent::counts(pos, s.counts),
        crate::floats_in(floats, s.f[2]),
        s.f[1],
    );
    crate::batched(s, reply)
}

// Makes the call of a line with many values, if it is one of a map of this kind.
pub fn follow(
    s: State,
    floats: &[f64],
    attrs: &[[u32; 2]],
    bounds: &[f64],
    sets: &mut [[u64; 9]],
    entries: &mut [[u64; 3]],
    order: &mut [u32],
    extremes: &mut [[f64; 3]],
    pos: &mut [u64],
    neg: &mut [u64],
) -> State
    ensures { result ≡ after_batch (explicit_store (bounds_in s bounds.now)) (eqb s.of 120) s floats.now (given_in s attrs.now)
        (lent_stores s sets.old entries.old order.old) (cells_in s neg.old extremes.old pos.old) }
{
    if s.of != b'x' {
        return s;
    }
    let letter = s.letter;
    match letter {
        b'R' => measure_all(
            s, floats, attrs, bounds, sets, entries, order, extremes, pos, neg,
        ),
        b'H' => measure_all_by(s, floats, bounds, sets, entries, order, extremes, pos, neg),
        _ => s,
    }
}
