// Binding a set to a handle and releasing it, in the directory of the map: `bind` of internal/mod.rs.
#![tactic(auto)]

mod calls;

ghost use Rattle.std.specs.Prelude.{◌≡◌};
ghost use Rattle.sets.specs.Sorted.{given, filter_of};
ghost use Rattle.std.proofs.Math.Option.{none};
ghost use Rattle.bindings.specs.Calls.{gave, started, bound, released};
ghost use Rattle.bindings.specs.Agreed.{Agreed};
ghost use Rattle.directory.specs.View.{stores};

use directory::Directory;
use refusals::Refusal;

// What a call answers, and the directory after it, which a refusal leaves as it was. answer: done, or a bound handle; or what refused it, of
// whatever type says so.
#[derive(Clone, Copy)]
pub struct Reply<E = Refusal> {
    pub answer: Result<Option<u64>, E>,
    pub dir: Directory,
}

// Configures the directory: a fresh start, which holds the empty set only; or 4, 12.
pub fn start(
    limit: u64,
    present: bool,
    filter: &[u32],
    sets: &[[u64; 9]],
    entries: &mut [[u64; 3]],
    order: &[u32],
) -> Reply
    ensures { gave result (stores sets.now entries.new order.now)
        ≡ started limit (filter_of present filter.now) (stores sets.now entries.old order.now) }
{
    let dir = Directory {
        used: 0,
        count: 0,
        last: 0,
    };
    if !directory::accepted(limit, present, filter) {
        return Reply {
            answer: Err(Refusal::Limit),
            dir: dir,
        };
    }
    if !directory::stores_suffice(limit, sets.len(), entries.len(), order.len()) {
        return Reply {
            answer: Err(Refusal::LentShort),
            dir: dir,
        };
    }
    entries[0] = [0, 0, 0];
    Reply {
        answer: Ok(None),
        dir: dir,
    }
}

// Binds the attributes' set: the birth number of its own entry, held or new, or of that of overflow; or 12, 5, 8, 9.
pub fn bind(
    limit: u64,
    d: Directory,
    sets: &mut [[u64; 9]],
    entries: &mut [[u64; 3]],
    order: &mut [u32],
    attrs: &[[u32; 2]],
    present: bool,
    filter: &[u32],
) -> Reply
    ensures { gave result (stores sets.new entries.new order.new)
        ≡ bound limit (filter_of present filter.now) d (stores sets.old entries.old order.old) (given attrs.now) }
{
    if !directory::stores_suffice(limit, sets.len(), entries.len(), order.len()) {
        return Reply {
            answer: Err(Refusal::LentShort),
            dir: d,
        };
    }
    if !sets::canon::few(attrs) {
        return Reply {
            answer: Err(Refusal::Attributes),
            dir: d,
        };
    }
    if !directory::accepted(limit, present, filter) {
        return Reply {
            answer: Err(Refusal::Disagrees),
            dir: d,
        };
    }
    let mut row: [u64; 9] = [0; 9];
    sets::canon::sort_into(attrs, present, filter, &mut row);
    calls::bind_in(limit, d, sets, entries, order, row)
}

// Takes one binding off the entry that the handle names; or 12, 8, 7.
pub fn release(
    limit: u64,
    d: Directory,
    sets: &[[u64; 9]],
    entries: &mut [[u64; 3]],
    order: &[u32],
    h: u64,
) -> Reply
    ensures { gave result (stores sets.now entries.new order.now)
        ≡ released limit d (stores sets.now entries.old order.now) h }
{
    if !directory::stores_suffice(limit, sets.len(), entries.len(), order.len()) {
        return Reply {
            answer: Err(Refusal::LentShort),
            dir: d,
        };
    }
    if limit > directory::MOST_SETS {
        return Reply {
            answer: Err(Refusal::Disagrees),
            dir: d,
        };
    }
    calls::release_in(limit, d, sets, entries, order, h)
}

// Requires a map known to agree. `bind` there: only 5 and 9 are left to ask.
pub fn bind_agreed(
    limit: u64,
    d: Directory,
    sets: &mut [[u64; 9]],
    entries: &mut [[u64; 3]],
    order: &mut [u32],
    attrs: &[[u32; 2]],
    present: bool,
    filter: &[u32],
) -> Reply
    requires { Agreed limit (filter_of present filter.now) d (stores sets.old entries.old order.old) }
    ensures { gave result (stores sets.new entries.new order.new)
        ≡ bound limit (filter_of present filter.now) d (stores sets.old entries.old order.old) (given attrs.now) }
{
    if !sets::canon::few(attrs) {
        return Reply {
            answer: Err(Refusal::Attributes),
            dir: d,
        };
    }
    let mut row: [u64; 9] = [0; 9];
    sets::canon::sort_into(attrs, present, filter, &mut row);
    calls::bind_right(limit, d, sets, entries, order, row)
}

// Requires a map known to agree. `release` there: only 7 is left to ask.
pub fn release_agreed(
    limit: u64,
    d: Directory,
    sets: &[[u64; 9]],
    entries: &mut [[u64; 3]],
    order: &[u32],
    h: u64,
) -> Reply
    requires { Agreed limit none d (stores sets.now entries.old order.now) }
    ensures { gave result (stores sets.now entries.new order.now)
        ≡ released limit d (stores sets.now entries.old order.now) h }
{
    let found = directory::find::by_birth(d, entries, order, h);
    calls::free(d, entries, found)
}
