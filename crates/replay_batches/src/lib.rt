// Lines with many values (`R`, `H`): the calls of each kind over f64 that they make, and what those over i64 share with them (docs/REPLAY.md).
//
// The map's stores are lent as in the crates of the single calls, whose definitions the contracts cite.
#![tactic(auto)]

ghost use Rattle.std.specs.Prelude.{◌≡◌, take};
ghost use Rattle.numbered.specs.Numbered.{code_by};
ghost use Rattle.replay_batches.specs.Batched.{batched_in};

use batches::Batch;
use numbered::Numbered;
use replay_state::{State, within};

pub mod explicit_lines;
pub mod exponential_lines;
pub mod single_lines;

// The values of a line, of either number.
pub type Floats = [f64; 100];

pub type Integers = [i64; 100];

// ---- what is lent of them: the first n, all of them where there are no more

pub fn floats_in<'a>(xs: &'a [f64], n: u64) -> &'a [f64]
    ensures { result.now ≡ take n xs.now }
{
    let e = within(n, xs.len());
    &xs[0..e]
}

pub fn integers_in<'a>(xs: &'a [i64], n: u64) -> &'a [i64]
    ensures { result.now ≡ take n xs.now }
{
    let e = within(n, xs.len());
    &xs[0..e]
}

// ---- the state after such a line

// It tells how many values were taken, with what refused the next one and the directory that the call left.
pub fn batched<E: Numbered>(s: State, reply: Batch<E>) -> State
    ensures { result ≡ batched_in reply.taken (code_by E.number reply.end) reply.dir s }
{
    let dir = reply.dir;
    let no = numbered::code(reply.end);
    let mut next = s;
    next.no = replay_state::outcome(no);
    next.told = reply.taken as u64;
    next.dir = dir;
    next
}
