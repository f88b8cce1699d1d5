// Calls for programs in other languages: a list of values recorded into one exponential series.
#![tactic(auto)]

ghost use Rattle.std.specs.Prelude.{◌≡◌, min};
ghost use Rattle.refusals.specs.Refusals.{said};
ghost use Rattle.exponential.specs.Inner.{head_after};
ghost use Rattle.exports.specs.Exports.{recorded};

use exponential::Head;
use refusals::Refusal;

// The head that a call leaves: a refused one leaves the old.
fn head_after(answer: Result<Head, Refusal>, old: Head) -> Head
    ensures { result ≡ head_after (said answer) old }
{
    answer.unwrap_or(old)
}

fn count_of(head: Head) -> u64
    ensures { result ≡ head.counts.count }
{
    let c = head.counts;
    c.count
}

// How many values of a list are recorded.
fn most(n: usize) -> usize
    ensures { result ≡ min n 1000000 }
{
    n.min(1000000)
}

// Records the values, up to a million, into a fresh series over these rows, and returns how many it counts then.
#[unsafe(no_mangle)]
pub extern "C" fn record_all(
    size: u32,
    top: u32,
    pos: &mut [u64],
    neg: &mut [u64],
    values: &[f64],
) -> u64
    ensures value { result ≡ (recorded size top pos.old neg.old values.now).head.counts.count }
    ensures pos_after { pos.new ≡ (recorded size top pos.old neg.old values.now).pos }
    ensures neg_after { neg.new ≡ (recorded size top pos.old neg.old values.now).neg }
{
    let mut head = exponential::fresh(top);
    let n = most(values.len());
    for v in &values[..n] {
        let answer = exponential::record(size, top, head, pos, neg, *v);
        head = head_after(answer, head);
    }
    count_of(head)
}
