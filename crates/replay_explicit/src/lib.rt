// The calls of the explicit kind that lines of a script make: configuring (`n`), recording (`r`, `h`), binding and releasing (`b`, `u`),
// collecting (`c`).
//
// The map's stores are lent as long as a line `m` says, the output as long as the line `c` does: too few of any is number 12 or 10.
// A function makes one call of the map: each is proved for itself.
#![tactic(auto)]

ghost use Rattle.std.specs.Prelude.{◌≡◌};
ghost use Rattle.numbered.specs.Numbered.{said_by};
ghost use Rattle.replay_state.specs.Bound.{lent_stores, given_in};
ghost use Rattle.replay_explicit.specs.Followed.{cells_in, configured_by};
ghost use Rattle.replay_explicit.specs.Followed.{after_configured, after_measured, after_measured_by, after_followed};
ghost use Rattle.replay_explicit.specs.Collected.{output_in, after_delta, after_cumulative, after_collected};

use explicit_collection::{Settings, Setup};
use numbered::Numbered;
use replay_state::{State, after, binding, lent};

// ---- every line but collections

pub fn configured<E: Numbered>(s: State, reply: Result<Setup, E>) -> State
    ensures { result ≡ configured_by (said_by E.number reply) s }
{
    match reply {
        Err(no) => after::unbegun(s, no),
        Ok(setup) => after::begun(s, 0, setup.dir),
    }
}

fn configure(
    s: State,
    bounds: &[f64],
    sets: &[[u64; 9]],
    entries: &mut [[u64; 3]],
    order: &[u32],
    extremes: &[[f64; 3]],
    pos: &[u64],
    neg: &[u64],
) -> State
    ensures { result ≡ after_configured s bounds.now (lent_stores s sets.now entries.old order.now)
        (cells_in s neg.now extremes.now pos.now) }
{
    let n = s.entries;
    let waiting = s.next_filter;
    let reply = explicit_collection::configure(
        lent::bounds_in(bounds, 0, s.next_bounds),
        s.f[8] == 49,
        s.f[9] == 49,
        s.f[6],
        s.next_filtered,
        lent::keys(&waiting, s.next_keys),
        lent::sets_in(sets, n),
        lent::entries(entries, n),
        lent::order_in(order, n),
        lent::totals_in(neg, n),
        lent::extremes_in(extremes, n),
        lent::counts_in(pos, s.counts),
    );
    configured(s, reply)
}

fn measure(
    s: State,
    attrs: &[[u32; 2]],
    bounds: &[f64],
    sets: &mut [[u64; 9]],
    entries: &mut [[u64; 3]],
    order: &mut [u32],
    extremes: &mut [[f64; 3]],
    pos: &mut [u64],
    neg: &mut [u64],
) -> State
    ensures { result ≡ after_measured s bounds.now (given_in s attrs.now)
        (lent_stores s sets.old entries.old order.old) (cells_in s neg.old extremes.old pos.old) }
{
    let n = s.entries;
    let filter = s.filter;
    let reply = value_map::explicit_map::measure(
        lent::bounds_in(bounds, 1, s.bounds as u64),
        s.limit,
        s.dir,
        lent::sets(sets, n),
        lent::entries(entries, n),
        lent::order(order, n),
        lent::totals(neg, n),
        lent::extremes(extremes, n),
        lent::counts(pos, s.counts),
        floats::of_bits(s.f[1]),
        lent::given(attrs, s.f[2]),
        s.filtered,
        lent::keys(&filter, s.keys as u64),
    );
    after::done(s, reply)
}

fn measure_by(
    s: State,
    bounds: &[f64],
    sets: &mut [[u64; 9]],
    entries: &mut [[u64; 3]],
    order: &mut [u32],
    extremes: &mut [[f64; 3]],
    pos: &mut [u64],
    neg: &mut [u64],
) -> State
    ensures { result ≡ after_measured_by s bounds.now (lent_stores s sets.old entries.old order.old)
        (cells_in s neg.old extremes.old pos.old) }
{
    let n = s.entries;
    let reply = value_map::explicit_map::measure_by(
        lent::bounds_in(bounds, 1, s.bounds as u64),
        s.limit,
        s.dir,
        lent::sets(sets, n),
        lent::entries(entries, n),
        lent::order(order, n),
        lent::totals(neg, n),
        lent::extremes(extremes, n),
        lent::counts(pos, s.counts),
        floats::of_bits(s.f[2]),
        s.f[1],
    );
    after::done(s, reply)
}

// Makes the call of a line, if it is one of a map of this kind, but for collections.
pub fn follow(
    s: State,
    attrs: &[[u32; 2]],
    bounds: &[f64],
    sets: &mut [[u64; 9]],
    entries: &mut [[u64; 3]],
    order: &mut [u32],
    extremes: &mut [[f64; 3]],
    pos: &mut [u64],
    neg: &mut [u64],
) -> State
    ensures { result ≡ after_followed s bounds.now (given_in s attrs.now)
        (lent_stores s sets.old entries.old order.old) (cells_in s neg.old extremes.old pos.old) }
{
    if s.of != b'x' {
        return s;
    }
    let letter = s.letter;
    match letter {
        b'n' => configure(s, bounds, sets, entries, order, extremes, pos, neg),
        b'r' => measure(s, attrs, bounds, sets, entries, order, extremes, pos, neg),
        b'h' => measure_by(s, bounds, sets, entries, order, extremes, pos, neg),
        b'b' | b'u' => binding::bind(s, attrs, sets, entries, order),
        _ => s,
    }
}

// ---- collections. What lies behind a collection's part of the output is the kept points'

pub fn settings(s: State) -> Settings
    ensures { result ≡ record { extremes = s.extremes; sums = s.sums; limit = s.limit } }
{
    Settings {
        extremes: s.extremes,
        sums: s.sums,
        limit: s.limit,
    }
}

fn delta(
    s: State,
    bounds: &[f64],
    sets: &mut [[u64; 9]],
    entries: &mut [[u64; 3]],
    order: &mut [u32],
    extremes: &[[f64; 3]],
    pos: &[u64],
    neg: &[u64],
    out_sets: &mut [[u64; 9]],
    out_words: &mut [[u64; 12]],
    out_pos: &mut [u64],
    out_neg: &mut [u64],
) -> State
    ensures { result ≡ after_delta s bounds.now (lent_stores s sets.old entries.old order.old)
        (cells_in s neg.now extremes.now pos.now)
        (output_in s out_sets.old out_words.old out_pos.old out_neg.old) }
{
    let n = s.entries;
    let i = replay_state::within(s.f[2], 66) as u64;
    let j = replay_state::within(s.f[3], 10560) as u64;
    let reply = explicit_collection::delta(
        lent::bounds_in(bounds, 1, s.bounds as u64),
        settings(s),
        s.dir,
        lent::sets(sets, n),
        lent::entries(entries, n),
        lent::order(order, n),
        lent::totals_in(neg, n),
        lent::extremes_in(extremes, n),
        lent::counts_in(pos, s.counts),
        lent::sets(out_sets, i),
        lent::words(out_words, i),
        lent::counts(out_pos, j),
        lent::counts(out_neg, j),
    );
    let answer = reply.answer;
    let dir = reply.dir;
    after::collected(s, dir, answer)
}

fn cumulative(
    s: State,
    bounds: &[f64],
    sets: &[[u64; 9]],
    entries: &[[u64; 3]],
    order: &[u32],
    extremes: &[[f64; 3]],
    pos: &[u64],
    neg: &[u64],
    out_sets: &mut [[u64; 9]],
    out_words: &mut [[u64; 12]],
    out_pos: &mut [u64],
    out_neg: &mut [u64],
) -> State
    ensures { result ≡ after_cumulative s bounds.now (lent_stores s sets.now entries.now order.now)
        (cells_in s neg.now extremes.now pos.now)
        (output_in s out_sets.old out_words.old out_pos.old out_neg.old) }
{
    let n = s.entries;
    let i = replay_state::within(s.f[2], 66) as u64;
    let j = replay_state::within(s.f[3], 10560) as u64;
    let answer = explicit_collection::cumulative(
        lent::bounds_in(bounds, 1, s.bounds as u64),
        settings(s),
        s.dir,
        lent::sets_in(sets, n),
        lent::entries_in(entries, n),
        lent::order_in(order, n),
        lent::totals_in(neg, n),
        lent::extremes_in(extremes, n),
        lent::counts_in(pos, s.counts),
        lent::sets(out_sets, i),
        lent::words(out_words, i),
        lent::counts(out_pos, j),
        lent::counts(out_neg, j),
    );
    after::collected(s, s.dir, answer)
}

// Collects, if a line asks that of a map of this kind.
pub fn collect(
    s: State,
    bounds: &[f64],
    sets: &mut [[u64; 9]],
    entries: &mut [[u64; 3]],
    order: &mut [u32],
    extremes: &[[f64; 3]],
    pos: &[u64],
    neg: &[u64],
    out_sets: &mut [[u64; 9]],
    out_words: &mut [[u64; 12]],
    out_pos: &mut [u64],
    out_neg: &mut [u64],
) -> State
    ensures { result ≡ after_collected s bounds.now (lent_stores s sets.old entries.old order.old)
        (cells_in s neg.now extremes.now pos.now)
        (output_in s out_sets.old out_words.old out_pos.old out_neg.old) }
{
    if s.of != b'x' {
        return s;
    }
    if s.letter != b'c' {
        return s;
    }
    if s.delta {
        return delta(
            s, bounds, sets, entries, order, extremes, pos, neg, out_sets, out_words, out_pos,
            out_neg,
        );
    }
    cumulative(
        s, bounds, sets, entries, order, extremes, pos, neg, out_sets, out_words, out_pos, out_neg,
    )
}
