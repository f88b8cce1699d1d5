// The exponential kind over i64.
ghost use Rattle.std.specs.Prelude.{◌≡◌, eqb};
ghost use Rattle.whole_map.specs.Exponential.{exponential_wholes};
ghost use Rattle.replay_state.specs.Bound.{lent_stores, given_in};
ghost use Rattle.replay_exponential_wholes.specs.Followed.{cells_in};
ghost use Rattle.replay_batches.specs.Batched.{list_in, after_all, after_all_by, after_batch};

use replay_state::{State, lent};

fn measure_all(
    s: State,
    integers: &[i64],
    attrs: &[[u32; 2]],
    sets: &mut [[u64; 9]],
    entries: &mut [[u64; 3]],
    order: &mut [u32],
    figures: &mut [[u64; 8]],
    extremes: &mut [[i64; 3]],
    pos: &mut [u64],
    neg: &mut [u64],
) -> State
    ensures { result ≡ after_all (exponential_wholes s.size s.top s.sums) s (list_in s 1 integers.now) (given_in s attrs.now)
        (lent_stores s sets.old entries.old order.old) (cells_in s figures.old extremes.old pos.old neg.old) }
{
    let n = s.entries;
    let m = s.counts;
    let filter = s.filter;
    let reply = exponential_whole_batches::measure_all(
        s.size,
        s.top,
        s.sums,
        s.limit,
        s.dir,
        lent::sets(sets, n),
        lent::entries(entries, n),
        lent::order(order, n),
        lent::figures(figures, n),
        lent::wholes(extremes, n),
        lent::counts(pos, m),
        lent::counts(neg, m),
        replay_batches::integers_in(integers, s.f[1]),
        lent::given(attrs, s.f[2]),
        s.filtered,
        lent::keys(&filter, s.keys as u64),
    );
    replay_batches::batched(s, reply)
}

fn measure_all_by(
    s: State,
    integers: &[i64],
    sets: &mut [[u64; 9]],
    entries: &mut [[u64; 3]],
    order: &mut [u32],
    figures: &mut [[u64; 8]],
    extremes: &mut [[i64; 3]],
    pos: &mut [u64],
    neg: &mut [u64],
) -> State
    ensures { result ≡ after_all_by (exponential_wholes s.size s.top s.sums) s (list_in s 2 integers.now)
        (lent_stores s sets.old entries.old order.old) (cells_in s figures.old extremes.old pos.old neg.old) }
{
    let n = s.entries;
    let m = s.counts;
    let reply = exponential_whole_batches::measure_all_by(
        s.size,
        s.top,
        s.sums,
        s.limit,
        s.dir,
        lent::sets(sets, n),
        lent::entries(entries, n),
        lent::order(order, n),
        lent::figures(figures, n),
        lent::wholes(extremes, n),
        lent::counts(pos, m),
        lent::counts(neg, m),
        replay_batches::integers_in(integers, s.f[2]),
        s.f[1],
    );
    replay_batches::batched(s, reply)
}

// Makes the call of a line with many values, if it is one of a map of this kind.
pub fn follow(
    s: State,
    integers: &[i64],
    attrs: &[[u32; 2]],
    sets: &mut [[u64; 9]],
    entries: &mut [[u64; 3]],
    order: &mut [u32],
    figures: &mut [[u64; 8]],
    extremes: &mut [[i64; 3]],
    pos: &mut [u64],
    neg: &mut [u64],
) -> State
    ensures { result ≡ after_batch (exponential_wholes s.size s.top s.sums) (eqb s.of 69) s integers.now (given_in s attrs.now)
        (lent_stores s sets.old entries.old order.old) (cells_in s figures.old extremes.old pos.old neg.old) }
{
    if s.of != b'E' {
        return s;
    }
    let letter = s.letter;
    match letter {
        b'R' => measure_all(
            s, integers, attrs, sets, entries, order, figures, extremes, pos, neg,
        ),
        b'H' => measure_all_by(
            s, integers, sets, entries, order, figures, extremes, pos, neg,
        ),
        _ => s,
    }
}
