// Binding (`b`) and releasing (`u`), for maps of every kind.
ghost use Rattle.std.specs.Prelude.{◌≡◌};
ghost use Rattle.replay_state.specs.Bound.{lent_stores, given_in, after_bound};

use crate::{State, after, lent};

pub fn bind(
    s: State,
    attrs: &[[u32; 2]],
    sets: &mut [[u64; 9]],
    entries: &mut [[u64; 3]],
    order: &mut [u32],
) -> State
    ensures { result ≡ after_bound s (given_in s attrs.now) (lent_stores s sets.old entries.old order.old) }
{
    let n = s.entries;
    let filter = s.filter;
    if s.letter == b'b' {
        let reply = bindings::bind(
            s.limit,
            s.dir,
            lent::sets(sets, n),
            lent::entries(entries, n),
            lent::order(order, n),
            lent::given(attrs, s.f[2]),
            s.filtered,
            lent::keys(&filter, s.keys as u64),
        );
        return after::done(s, reply);
    }
    let reply = bindings::release(
        s.limit,
        s.dir,
        lent::sets_in(sets, n),
        lent::entries(entries, n),
        lent::order_in(order, n),
        s.f[1],
    );
    after::done(s, reply)
}
