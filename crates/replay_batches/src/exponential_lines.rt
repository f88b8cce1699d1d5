// The exponential kind over f64.
ghost use Rattle.std.specs.Prelude.{◌≡◌, eqb};
ghost use Rattle.value_map.specs.Exponential.{exponential_store};
ghost use Rattle.replay_state.specs.Bound.{lent_stores, given_in};
ghost use Rattle.replay_exponential.specs.Followed.{cells_in};
ghost use Rattle.replay_batches.specs.Batched.{list_in, after_all, after_all_by, after_batch};

use replay_state::{State, lent};

fn measure_all(
    s: State,
    floats: &[f64],
    attrs: &[[u32; 2]],
    sets: &mut [[u64; 9]],
    entries: &mut [[u64; 3]],
    order: &mut [u32],
    figures: &mut [[u64; 8]],
    extremes: &mut [[f64; 3]],
    pos: &mut [u64],
    neg: &mut [u64],
) -> State
    ensures { result ≡ after_all (exponential_store s.size s.top) s (list_in s 1 floats.now) (given_in s attrs.now)
        (lent_stores s sets.old entries.old order.old) (cells_in s figures.old extremes.old pos.old neg.old) }
{
    let n = s.entries;
    let m = s.counts;
    let filter = s.filter;
    let reply = exponential_batches::measure_all(
        s.size,
        s.top,
        s.limit,
        s.dir,
        lent::sets(sets, n),
        lent::entries(entries, n),
        lent::order(order, n),
        lent::figures(figures, n),
        lent::extremes(extremes, n),
        lent::counts(pos, m),
        lent::counts(neg, m),
        crate::floats_in(floats, s.f[1]),
        lent::given(attrs, s.f[2]),
        s.filtered,
        lent::keys(&filter, s.keys as u64),
    );
    crate::batched(s, reply)
}

fn measure_all_by(
    s: State,
    floats: &[f64],
    sets: &mut [[u64; 9]],
    entries: &mut [[u64; 3]],
    order: &mut [u32],
    figures: &mut [[u64; 8]],
    extremes: &mut [[f64; 3]],
    pos: &mut [u64],
    neg: &mut [u64],
) -> State
    ensures { result ≡ after_all_by (exponential_store s.size s.top) s (list_in s 2 floats.now)
        (lent_stores s sets.old entries.old order.old) (cells_in s figures.old extremes.old pos.old neg.old) }
{
    let n = s.entries;
    let m = s.counts;
    let reply = exponential_batches::measure_all_by(
        s.size,
        s.top,
        s.limit,
        s.dir,
        lent::sets(sets, n),
        lent::entries(entries, n),
        lent::order(order, n),
        lent::figures(figures, n),
        lent::extremes(extremes, n),
        lent::counts(pos, m),
        lent::counts(neg, m),
        crate::floats_in(floats, s.f[2]),
        s.f[1],
    );
    crate::batched(s, reply)
}

// Makes the call of a line with many values, if it is one of a map of this kind.
pub fn follow(
    s: State,
    floats: &[f64],
    attrs: &[[u32; 2]],
    sets: &mut [[u64; 9]],
    entries: &mut [[u64; 3]],
    order: &mut [u32],
    figures: &mut [[u64; 8]],
    extremes: &mut [[f64; 3]],
    pos: &mut [u64],
    neg: &mut [u64],
) -> State
    ensures { result ≡ after_batch (exponential_store s.size s.top) (eqb s.of 101) s floats.now (given_in s attrs.now)
        (lent_stores s sets.old entries.old order.old) (cells_in s figures.old extremes.old pos.old neg.old) }
{
    if s.of != b'e' {
        return s;
    }
    let letter = s.letter;
    match letter {
        b'R' => measure_all(
            s, floats, attrs, sets, entries, order, figures, extremes, pos, neg,
        ),
        b'H' => measure_all_by(s, floats, sets, entries, order, figures, extremes, pos, neg),
        _ => s,
    }
}
