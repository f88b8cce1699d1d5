// The explicit kind over i64.
ghost use Rattle.std.specs.Prelude.{◌≡◌, eqb};
ghost use Rattle.whole_map.specs.Explicit.{explicit_wholes};
ghost use Rattle.replay_state.specs.Bound.{lent_stores, given_in};
ghost use Rattle.replay_explicit.specs.Followed.{bounds_in};
ghost use Rattle.replay_explicit_wholes.specs.Followed.{cells_in};
ghost use Rattle.replay_batches.specs.Batched.{list_in, after_all, after_all_by, after_batch};

use replay_state::{State, lent};

fn measure_all(
    s: State,
    integers: &[i64],
    attrs: &[[u32; 2]],
    bounds: &[f64],
    sets: &mut [[u64; 9]],
    entries: &mut [[u64; 3]],
    order: &mut [u32],
    extremes: &mut [[i64; 3]],
    pos: &mut [u64],
    neg: &mut [u64],
) -> State
    ensures { result ≡ after_all (explicit_wholes (bounds_in s bounds.now) s.sums) s (list_in s 1 integers.now) (given_in s attrs.now)
        (lent_stores s sets.old entries.old order.old) (cells_in s neg.old extremes.old pos.old) }
{
    let n = s.entries;
    let filter = s.filter;
    let reply = explicit_whole_batches::measure_all(
        lent::bounds_in(bounds, 1, s.bounds as u64),
        s.sums,
        s.limit,
        s.dir,
        lent::sets(sets, n),
        lent::entries(entries, n),
        lent::order(order, n),
        lent::totals(neg, n),
        lent::wholes(extremes, n),
        lent::counts(pos, s.counts),
        replay_batches::integers_in(integers, s.f[1]),
        lent::given(attrs, s.f[2]),
        s.filtered,
        lent::keys(&filter, s.keys as u64),
    );
    replay_batches::batched(s, reply)
}

fn measure_all_by(
    s: State,
    integers: &[i64],
    bounds: &[f64],
    sets: &mut [[u64; 9]],
    entries: &mut [[u64; 3]],
    order: &mut [u32],
    extremes: &mut [[i64; 3]],
    pos: &mut [u64],
    neg: &mut [u64],
) -> State
    ensures { result ≡ after_all_by (explicit_wholes (bounds_in s bounds.now) s.sums) s (list_in s 2 integers.now)
        (lent_stores s sets.old entries.old order.old) (cells_in s neg.old extremes.old pos.old) }
{
    let n = s.entries;
    let reply = explicit_whole_batches::measure_all_by(
        lent::bounds_in(bounds, 1, s.bounds as u64),
        s.sums,
        s.limit,
        s.dir,
        lent::sets(sets, n),
        lent::entries(entries, n),
        lent::order(order, n),
        lent::totals(neg, n),
        lent::wholes(extremes, n),
        lent::counts(pos, s.counts),
        replay_batches::integers_in(integers, s.f[2]),
        s.f[1],
    );
    replay_batches::batched(s, reply)
}

// Makes the call of a line with many values, if it is one of a map of this kind.
pub fn follow(
    s: State,
    integers: &[i64],
    attrs: &[[u32; 2]],
    bounds: &[f64],
    sets: &mut [[u64; 9]],
    entries: &mut [[u64; 3]],
    order: &mut [u32],
    extremes: &mut [[i64; 3]],
    pos: &mut [u64],
    neg: &mut [u64],
) -> State
    ensures { result ≡ after_batch (explicit_wholes (bounds_in s bounds.now) s.sums) (eqb s.of 88) s integers.now (given_in s attrs.now)
        (lent_stores s sets.old entries.old order.old) (cells_in s neg.old extremes.old pos.old) }
{
    if s.of != b'X' {
        return s;
    }
    let letter = s.letter;
    match letter {
        b'R' => measure_all(
            s, integers, attrs, bounds, sets, entries, order, extremes, pos, neg,
        ),
        b'H' => measure_all_by(
            s, integers, bounds, sets, entries, order, extremes, pos, neg,
        ),
        _ => s,
    }
}
