// The calls of sums and last values that lines of a script make: configuring (`n`), recording (`r`, `h`), binding and releasing (`b`, `u`),
// collecting (`c`).
//
// The map's stores are lent as long as a line `m` says, the output as long as the line `c` does: too few of any is number 12 or 10. Where
// bounds are a parameter here, the values lie behind them. A function makes one call of the map: each is proved for itself.
#![tactic(auto)]

ghost use Rattle.std.specs.Prelude.{◌≡◌};
ghost use Rattle.numbered.specs.Numbered.{said_by};
ghost use Rattle.replay_state.specs.Bound.{lent_stores, given_in};
ghost use Rattle.replay_singles.specs.Followed.{kind_of, values_in, configured_by};
ghost use Rattle.replay_singles.specs.Followed.{after_configured, after_measured, after_measured_by, after_followed};
ghost use Rattle.replay_singles.specs.Collected.{output_in, after_delta, after_cumulative, after_collected};

use numbered::Numbered;
use replay_state::{State, after, binding, lent};
use singles::{Aggregation, Settings, Setup};

pub fn aggregation(s: State) -> Aggregation
    ensures { result ≡ kind_of s }
{
    if s.of == b's' {
        return Aggregation::Sum;
    }
    Aggregation::LastValue
}

// ---- every line but collections

fn configured<E: Numbered>(s: State, reply: Result<Setup, E>) -> State
    ensures { result ≡ configured_by (said_by E.number reply) s }
{
    match reply {
        Err(no) => after::unbegun(s, no),
        Ok(setup) => after::begun(s, 0, setup.dir),
    }
}

fn configure(
    s: State,
    bounds: &[f64],
    sets: &[[u64; 9]],
    entries: &mut [[u64; 3]],
    order: &[u32],
) -> State
    ensures { result ≡ after_configured s (lent_stores s sets.now entries.old order.now) (values_in s bounds.now) }
{
    let n = s.entries;
    let waiting = s.next_filter;
    let reply = singles::configure(
        aggregation(s),
        s.f[6],
        s.next_filtered,
        lent::keys(&waiting, s.next_keys),
        lent::sets_in(sets, n),
        lent::entries(entries, n),
        lent::order_in(order, n),
        lent::values_in(bounds, n),
    );
    configured(s, reply)
}

fn measure(
    s: State,
    attrs: &[[u32; 2]],
    bounds: &mut [f64],
    sets: &mut [[u64; 9]],
    entries: &mut [[u64; 3]],
    order: &mut [u32],
) -> State
    ensures { result ≡ after_measured s (given_in s attrs.now)
        (lent_stores s sets.old entries.old order.old) (values_in s bounds.old) }
{
    let n = s.entries;
    let filter = s.filter;
    let reply = singles::map::measure(
        aggregation(s),
        s.limit,
        s.dir,
        lent::sets(sets, n),
        lent::entries(entries, n),
        lent::order(order, n),
        lent::values(bounds, n),
        floats::of_bits(s.f[1]),
        lent::given(attrs, s.f[2]),
        s.filtered,
        lent::keys(&filter, s.keys as u64),
    );
    after::done(s, reply)
}

fn measure_by(
    s: State,
    bounds: &mut [f64],
    sets: &mut [[u64; 9]],
    entries: &mut [[u64; 3]],
    order: &mut [u32],
) -> State
    ensures { result ≡ after_measured_by s (lent_stores s sets.old entries.old order.old) (values_in s bounds.old) }
{
    let n = s.entries;
    let reply = singles::map::measure_by(
        aggregation(s),
        s.limit,
        s.dir,
        lent::sets(sets, n),
        lent::entries(entries, n),
        lent::order(order, n),
        lent::values(bounds, n),
        floats::of_bits(s.f[2]),
        s.f[1],
    );
    after::done(s, reply)
}

// Makes the call of a line, if it is one of a map of these kinds, but for collections.
pub fn follow(
    s: State,
    attrs: &[[u32; 2]],
    bounds: &mut [f64],
    sets: &mut [[u64; 9]],
    entries: &mut [[u64; 3]],
    order: &mut [u32],
) -> State
    ensures { result ≡ after_followed s (given_in s attrs.now)
        (lent_stores s sets.old entries.old order.old) (values_in s bounds.old) }
{
    if !replay_state::is_single(s.of) {
        return s;
    }
    let letter = s.letter;
    match letter {
        b'n' => configure(s, bounds, sets, entries, order),
        b'r' => measure(s, attrs, bounds, sets, entries, order),
        b'h' => measure_by(s, bounds, sets, entries, order),
        b'b' | b'u' => binding::bind(s, attrs, sets, entries, order),
        _ => s,
    }
}

// ---- collections, whose points' bits go into the first of the output's counts

fn settings(s: State) -> Settings
    ensures { result ≡ record { aggregation = kind_of s; limit = s.limit } }
{
    Settings {
        aggregation: aggregation(s),
        limit: s.limit,
    }
}

fn delta(
    s: State,
    bounds: &[f64],
    sets: &mut [[u64; 9]],
    entries: &mut [[u64; 3]],
    order: &mut [u32],
    out_sets: &mut [[u64; 9]],
    out_counts: &mut [u64],
) -> State
    ensures { result ≡ after_delta s (lent_stores s sets.old entries.old order.old) (values_in s bounds.now)
        (output_in s out_sets.old out_counts.old) }
{
    let n = s.entries;
    let i = replay_state::within(s.f[2], 66) as u64;
    let reply = singles::delta(
        settings(s),
        s.dir,
        lent::sets(sets, n),
        lent::entries(entries, n),
        lent::order(order, n),
        lent::values_in(bounds, n),
        lent::sets(out_sets, i),
        lent::counts(out_counts, i),
    );
    let answer = reply.answer;
    let dir = reply.dir;
    after::collected(s, dir, answer)
}

fn cumulative(
    s: State,
    bounds: &[f64],
    sets: &[[u64; 9]],
    entries: &[[u64; 3]],
    order: &[u32],
    out_sets: &mut [[u64; 9]],
    out_counts: &mut [u64],
) -> State
    ensures { result ≡ after_cumulative s (lent_stores s sets.now entries.now order.now) (values_in s bounds.now)
        (output_in s out_sets.old out_counts.old) }
{
    let n = s.entries;
    let i = replay_state::within(s.f[2], 66) as u64;
    let answer = singles::cumulative(
        settings(s),
        s.dir,
        lent::sets_in(sets, n),
        lent::entries_in(entries, n),
        lent::order_in(order, n),
        lent::values_in(bounds, n),
        lent::sets(out_sets, i),
        lent::counts(out_counts, i),
    );
    after::collected(s, s.dir, answer)
}

// Collects, if a line asks that of a map of these kinds.
pub fn collect(
    s: State,
    bounds: &[f64],
    sets: &mut [[u64; 9]],
    entries: &mut [[u64; 3]],
    order: &mut [u32],
    out_sets: &mut [[u64; 9]],
    out_counts: &mut [u64],
) -> State
    ensures { result ≡ after_collected s (lent_stores s sets.old entries.old order.old) (values_in s bounds.now)
        (output_in s out_sets.old out_counts.old) }
{
    if !replay_state::is_single(s.of) {
        return s;
    }
    if s.letter != b'c' {
        return s;
    }
    if s.delta {
        return delta(s, bounds, sets, entries, order, out_sets, out_counts);
    }
    cumulative(s, bounds, sets, entries, order, out_sets, out_counts)
}
