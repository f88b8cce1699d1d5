// Many values recorded into one slot of the lent stores over i64: its series is read once, and its head written once.
ghost use Rattle.std.specs.Prelude.{◌≡◌, true, ◌<◌, ◌≤◌, eqb, pos, length, set};
ghost use Rattle.laws.specs.Pick.{pick};
ghost use Rattle.refusals.specs.Refusals.{code};
ghost use Rattle.many.specs.Many.{many};
ghost use Rattle.points.specs.Explicit.{bounds_pass, bucket_count};
ghost use Rattle.explicit_whole_slots.specs.Cells.{cells, head_with};
ghost use Rattle.whole_map.specs.Explicit.{explicit_wholes};
ghost use Rattle.batches.specs.Inner.{recorded_all};
ghost use Rattle.batches.specs.Asked.{Asked};
ghost use Rattle.explicit_whole_batches.specs.Values.{series};
ghost use Rattle.explicit_whole_batches.specs.Slot.{extremes_of, agrees_if, begun, entering};

use crate::series::Run;
use explicit_wholes::Head;
use many::Taken;
use refusals::Refusal;

// Whether the series agrees, where one is held: not asked again where it is known. Every i64 is an extreme.
fn agrees_if(known: bool, bounds: &[f64], updated: bool, count: u64, counts: &[u64]) -> bool
    requires { known ≡ true → agrees_if bounds.now updated count counts.now ≡ true }
    ensures { result ≡ agrees_if bounds.now updated count counts.now }
{
    if known {
        return true;
    }
    if updated {
        return explicit::buckets_agree(bounds, count, counts);
    }
    true
}

// The head to go on from: that of the series, or a fresh one with zeros in its row where none is held.
fn begin(bounds: &[f64], updated: bool, head: Head, counts: &mut [u64]) -> Head
    requires { bucket_count bounds.now ≤ length counts.old }
    ensures { series result counts.new ≡ begun bounds.now updated head counts.old }
{
    if updated {
        return head;
    }
    explicit_wholes::fresh(bounds, counts).unwrap_or(head)
}

// Values recorded into the series of a row, or into a fresh one where the entry was not updated; 8 where the series disagrees.
fn enter_all(
    known: bool,
    bounds: &[f64],
    sums: bool,
    updated: bool,
    head: Head,
    counts: &mut [u64],
    values: &[i64],
) -> Run
    requires { (bounds_pass bounds.now ≡ true) × (bucket_count bounds.now ≤ length counts.old)
        × (known ≡ true → agrees_if bounds.now updated head.count counts.old ≡ true) }
    ensures { many result.taken (code result.end) (series result.head counts.new)
        ≡ entering bounds.now sums updated head counts.old values.now }
{
    if !agrees_if(known, bounds, updated, head.count, counts) {
        return Run {
            head,
            taken: 0,
            end: Err(Refusal::Disagrees),
        };
    }
    let from = begin(bounds, updated, head, counts);
    crate::series::record_all(bounds, sums, from, counts, values)
}

// The head of a count and a slot's three numbers.
fn head_with(count: u64, m: [i64; 3]) -> Head
    ensures { result ≡ head_with count m }
{
    Head {
        count,
        min: m[0],
        max: m[1],
        sum: m[2],
    }
}

// The head written into the slot, if a value was taken.
fn keep(x: usize, totals: &mut [u64], extremes: &mut [[i64; 3]], run: Run)
    requires { (x < length totals.old) × (x < length extremes.old) }
    ensures totals_after { totals.new ≡ pick (eqb run.taken 0) totals.old (set totals.old x run.head.count) }
    ensures extremes_after { extremes.new ≡ pick (eqb run.taken 0) extremes.old (set extremes.old x (extremes_of run.head)) }
{
    if run.taken == 0 {
        return;
    }
    let h = run.head;
    totals[x] = h.count;
    extremes[x] = [h.min, h.max, h.sum];
}

// Records values into slot x, which holds a series where it was updated, up to the first that is refused: 8 where the series disagrees, 9, 16.
// The first value of an empty slot is taken: its row is written over only then.
pub fn record_all(
    known: bool,
    bounds: &[f64],
    sums: bool,
    x: usize,
    updated: bool,
    totals: &mut [u64],
    extremes: &mut [[i64; 3]],
    counts: &mut [u64],
    values: &[i64],
) -> Taken
    requires { Asked (explicit_wholes bounds.now sums) true (pos 0) known x updated (cells totals.old extremes.old counts.old) values.now }
    ensures { many result.taken (code result.end) (cells totals.new extremes.new counts.new)
        ≡ recorded_all (explicit_wholes bounds.now sums) x updated (cells totals.old extremes.old counts.old) values.now }
{
    let n = explicit::bucket_count(bounds);
    let a = x * n;
    let e = a + n;
    let head = head_with(totals[x], extremes[x]);
    let run = enter_all(
        known,
        bounds,
        sums,
        updated,
        head,
        &mut counts[a..e],
        values,
    );
    keep(x, totals, extremes, run);
    Taken {
        taken: run.taken,
        end: run.end,
    }
}
