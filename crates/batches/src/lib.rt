// Many values in one call, and calls in a map that is known to agree: what every kind shares. What the calls `.._agreed` require is in
// specs/Agreed.antt, what a batch is in specs/Batch.antt.
#![tactic(auto)]

pub mod room;

ghost use Rattle.std.specs.Prelude.{◌≡◌, ◌<◌, get_or};
ghost use Rattle.numbered.specs.Numbered.{code_by};
ghost use Rattle.many.specs.Many.{many};
ghost use Rattle.tally.specs.Sets.{Lendable};
ghost use Rattle.sets.specs.Sorted.{given};
ghost use Rattle.directory.specs.View.{stores};
ghost use Rattle.directory.specs.Calls.{kept};
ghost use Rattle.bindings.specs.Calls.{said_by};
ghost use Rattle.seats.specs.Inner.{Fits};
ghost use Rattle.batches.specs.Inner.{finished_all, answer_of};

use bindings::Reply;
use directory::{Directory, Target};
use numbered::{Numbered, Reason};
use refusals::Refusal;

// What a call with many values says: how many were taken, how it ended (with what refused the next one, if one was refused), and the
// directory's state.
#[derive(Clone, Copy)]
pub struct Batch<E = Refusal> {
    pub taken: usize,
    pub end: Result<(), E>,
    pub dir: Directory,
}

// The end of a batch: the directory is written if anything was taken.
pub fn finish_all<E: Numbered>(
    taken: usize,
    end: Result<(), E>,
    d: Directory,
    sets: &mut [[u64; 9]],
    entries: &mut [[u64; 3]],
    order: &mut [u32],
    row: &[u64; 9],
    target: Target,
) -> Batch<E>
    requires { (taken ≡ 0 → ⊥) → Fits d (stores sets.old entries.old order.old) target }
    ensures { many result.taken (code_by E.number result.end) (kept result.dir (stores sets.new entries.new order.new))
        ≡ many taken (code_by E.number end) (finished_all taken d (stores sets.old entries.old order.old) row.now target) }
{
    if taken == 0 {
        return Batch { taken, end, dir: d };
    }
    let e = seats::commit(d, sets, entries, order, row, target);
    Batch { taken, end, dir: e }
}

// What a single call replies, which was made as a batch of one value.
pub fn single<E: Reason>(b: Batch<E>) -> Reply<E>
    ensures { (said_by E.number result.answer ≡ answer_of (code_by E.number b.end)) × (result.dir ≡ b.dir) }
{
    match b.end {
        Ok(_) => Reply {
            answer: Ok(None),
            dir: b.dir,
        },
        Err(e) => Reply {
            answer: Err(e),
            dir: b.dir,
        },
    }
}

// What the type of an attribute says of it: a proof knows it of a parameter only, not of what lies in a list.
fn pair_lent(a: [u32; 2]) -> bool
    ensures { (get_or a 0 0 < 4294967296) × (get_or a 1 0 < 4294967296) }
{
    true
}

// What the type of lent attributes says of them, for the proofs of calls that come to a set twice. It does nothing, and is compiled to nothing.
pub fn all_lent(attrs: &[[u32; 2]])
    ensures { Lendable (given attrs.now) }
{
    for a in attrs {
        pair_lent(*a);
    }
}
