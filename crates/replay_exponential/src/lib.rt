// The calls of the exponential kind that lines of a script make: configuring (`n`), recording (`r`, `h`), binding and releasing (`b`, `u`),
// collecting (`c`).
//
// The map's stores are lent as long as a line `m` says, the output as long as the line `c` does: too few of any is number 12 or 10. A
// function makes one call of the map: each is proved for itself.
#![tactic(auto)]

ghost use Rattle.std.specs.Prelude.{◌≡◌};
ghost use Rattle.numbered.specs.Numbered.{said_by};
ghost use Rattle.replay_state.specs.Bound.{lent_stores, given_in};
ghost use Rattle.replay_exponential.specs.Followed.{cells_in, scale_in, configured_by};
ghost use Rattle.replay_exponential.specs.Followed.{after_configured, after_measured, after_measured_by, after_followed};
ghost use Rattle.replay_exponential.specs.Collected.{output_in, after_delta, after_cumulative, after_collected};

use exponential_collection::{Settings, Setup};
use numbered::Numbered;
use replay_state::{State, after, binding, lent};

// ---- every line but collections

// The scale of a number 128 above it. It has the bin of the finest level that lies as far above it: so nothing signed is reckoned with
// here.
pub fn scale_of(n: u64) -> i32
    ensures { result ≡ scale_in n }
{
    let bin = replay_state::cut(2097152 - 128 + n % 256);
    let found = index::signed::index_of(index::FINEST, bin);
    match found {
        None => 0,
        Some(x) => x,
    }
}

pub fn configured<E: Numbered>(s: State, reply: Result<Setup, E>) -> State
    ensures { result ≡ configured_by (said_by E.number reply) s }
{
    match reply {
        Err(no) => after::unbegun(s, no),
        Ok(setup) => after::begun(s, setup.settings.top, setup.dir),
    }
}

fn configure(
    s: State,
    sets: &[[u64; 9]],
    entries: &mut [[u64; 3]],
    order: &[u32],
    figures: &[[u64; 8]],
    extremes: &[[f64; 3]],
    pos: &[u64],
    neg: &[u64],
) -> State
    ensures { result ≡ after_configured s (lent_stores s sets.now entries.old order.now)
        (cells_in s figures.now extremes.now pos.now neg.now) }
{
    let n = s.entries;
    let m = s.counts;
    let waiting = s.next_filter;
    let reply = exponential_collection::configure(
        replay_state::cut(s.f[3]),
        scale_of(s.f[4]),
        s.f[8] == 49,
        s.f[9] == 49,
        s.f[6],
        s.next_filtered,
        lent::keys(&waiting, s.next_keys),
        lent::sets_in(sets, n),
        lent::entries(entries, n),
        lent::order_in(order, n),
        lent::figures_in(figures, n),
        lent::extremes_in(extremes, n),
        lent::counts_in(pos, m),
        lent::counts_in(neg, m),
    );
    configured(s, reply)
}

fn measure(
    s: State,
    attrs: &[[u32; 2]],
    sets: &mut [[u64; 9]],
    entries: &mut [[u64; 3]],
    order: &mut [u32],
    figures: &mut [[u64; 8]],
    extremes: &mut [[f64; 3]],
    pos: &mut [u64],
    neg: &mut [u64],
) -> State
    ensures { result ≡ after_measured s (given_in s attrs.now) (lent_stores s sets.old entries.old order.old)
        (cells_in s figures.old extremes.old pos.old neg.old) }
{
    let n = s.entries;
    let m = s.counts;
    let filter = s.filter;
    let reply = value_map::exponential_map::measure(
        s.size,
        s.top,
        s.limit,
        s.dir,
        lent::sets(sets, n),
        lent::entries(entries, n),
        lent::order(order, n),
        lent::figures(figures, n),
        lent::extremes(extremes, n),
        lent::counts(pos, m),
        lent::counts(neg, m),
        floats::of_bits(s.f[1]),
        lent::given(attrs, s.f[2]),
        s.filtered,
        lent::keys(&filter, s.keys as u64),
    );
    after::done(s, reply)
}

fn measure_by(
    s: State,
    sets: &mut [[u64; 9]],
    entries: &mut [[u64; 3]],
    order: &mut [u32],
    figures: &mut [[u64; 8]],
    extremes: &mut [[f64; 3]],
    pos: &mut [u64],
    neg: &mut [u64],
) -> State
    ensures { result ≡ after_measured_by s (lent_stores s sets.old entries.old order.old)
        (cells_in s figures.old extremes.old pos.old neg.old) }
{
    let n = s.entries;
    let m = s.counts;
    let reply = value_map::exponential_map::measure_by(
        s.size,
        s.top,
        s.limit,
        s.dir,
        lent::sets(sets, n),
        lent::entries(entries, n),
        lent::order(order, n),
        lent::figures(figures, n),
        lent::extremes(extremes, n),
        lent::counts(pos, m),
        lent::counts(neg, m),
        floats::of_bits(s.f[2]),
        s.f[1],
    );
    after::done(s, reply)
}

// Makes the call of a line, if it is one of a map of this kind, but for collections.
pub fn follow(
    s: State,
    attrs: &[[u32; 2]],
    sets: &mut [[u64; 9]],
    entries: &mut [[u64; 3]],
    order: &mut [u32],
    figures: &mut [[u64; 8]],
    extremes: &mut [[f64; 3]],
    pos: &mut [u64],
    neg: &mut [u64],
) -> State
    ensures { result ≡ after_followed s (given_in s attrs.now) (lent_stores s sets.old entries.old order.old)
        (cells_in s figures.old extremes.old pos.old neg.old) }
{
    if s.of != b'e' {
        return s;
    }
    let letter = s.letter;
    match letter {
        b'n' => configure(s, sets, entries, order, figures, extremes, pos, neg),
        b'r' => measure(s, attrs, sets, entries, order, figures, extremes, pos, neg),
        b'h' => measure_by(s, sets, entries, order, figures, extremes, pos, neg),
        b'b' | b'u' => binding::bind(s, attrs, sets, entries, order),
        _ => s,
    }
}

// ---- collections. What lies behind a collection's part of the output is the kept points'.

pub fn settings(s: State) -> Settings
    ensures { result ≡ record { size = s.size; top = s.top; extremes = s.extremes; sums = s.sums; limit = s.limit } }
{
    Settings {
        size: s.size,
        top: s.top,
        extremes: s.extremes,
        sums: s.sums,
        limit: s.limit,
    }
}

fn delta(
    s: State,
    sets: &mut [[u64; 9]],
    entries: &mut [[u64; 3]],
    order: &mut [u32],
    figures: &[[u64; 8]],
    extremes: &[[f64; 3]],
    pos: &[u64],
    neg: &[u64],
    out_sets: &mut [[u64; 9]],
    out_words: &mut [[u64; 12]],
    out_pos: &mut [u64],
    out_neg: &mut [u64],
) -> State
    ensures { result ≡ after_delta s (lent_stores s sets.old entries.old order.old)
        (cells_in s figures.now extremes.now pos.now neg.now)
        (output_in s out_sets.old out_words.old out_pos.old out_neg.old) }
{
    let n = s.entries;
    let m = s.counts;
    let i = replay_state::within(s.f[2], 66) as u64;
    let j = replay_state::within(s.f[3], 10560) as u64;
    let reply = exponential_collection::delta(
        settings(s),
        s.dir,
        lent::sets(sets, n),
        lent::entries(entries, n),
        lent::order(order, n),
        lent::figures_in(figures, n),
        lent::extremes_in(extremes, n),
        lent::counts_in(pos, m),
        lent::counts_in(neg, m),
        lent::sets(out_sets, i),
        lent::words(out_words, i),
        lent::counts(out_pos, j),
        lent::counts(out_neg, j),
    );
    let answer = reply.answer;
    let dir = reply.dir;
    after::collected(s, dir, answer)
}

fn cumulative(
    s: State,
    sets: &[[u64; 9]],
    entries: &[[u64; 3]],
    order: &[u32],
    figures: &[[u64; 8]],
    extremes: &[[f64; 3]],
    pos: &[u64],
    neg: &[u64],
    out_sets: &mut [[u64; 9]],
    out_words: &mut [[u64; 12]],
    out_pos: &mut [u64],
    out_neg: &mut [u64],
) -> State
    ensures { result ≡ after_cumulative s (lent_stores s sets.now entries.now order.now)
        (cells_in s figures.now extremes.now pos.now neg.now)
        (output_in s out_sets.old out_words.old out_pos.old out_neg.old) }
{
    let n = s.entries;
    let m = s.counts;
    let i = replay_state::within(s.f[2], 66) as u64;
    let j = replay_state::within(s.f[3], 10560) as u64;
    let answer = exponential_collection::cumulative(
        settings(s),
        s.dir,
        lent::sets_in(sets, n),
        lent::entries_in(entries, n),
        lent::order_in(order, n),
        lent::figures_in(figures, n),
        lent::extremes_in(extremes, n),
        lent::counts_in(pos, m),
        lent::counts_in(neg, m),
        lent::sets(out_sets, i),
        lent::words(out_words, i),
        lent::counts(out_pos, j),
        lent::counts(out_neg, j),
    );
    after::collected(s, s.dir, answer)
}

// Collects, if a line asks that of a map of this kind.
pub fn collect(
    s: State,
    sets: &mut [[u64; 9]],
    entries: &mut [[u64; 3]],
    order: &mut [u32],
    figures: &[[u64; 8]],
    extremes: &[[f64; 3]],
    pos: &[u64],
    neg: &[u64],
    out_sets: &mut [[u64; 9]],
    out_words: &mut [[u64; 12]],
    out_pos: &mut [u64],
    out_neg: &mut [u64],
) -> State
    ensures { result ≡ after_collected s (lent_stores s sets.old entries.old order.old)
        (cells_in s figures.now extremes.now pos.now neg.now)
        (output_in s out_sets.old out_words.old out_pos.old out_neg.old) }
{
    if s.of != b'e' {
        return s;
    }
    if s.letter != b'c' {
        return s;
    }
    if s.delta {
        return delta(
            s, sets, entries, order, figures, extremes, pos, neg, out_sets, out_words, out_pos,
            out_neg,
        );
    }
    cumulative(
        s, sets, entries, order, figures, extremes, pos, neg, out_sets, out_words, out_pos, out_neg,
    )
}
