// Many values recorded into one slot of the lent stores: its series is read once, and its head written once.
ghost use Rattle.std.specs.Prelude.{◌≡◌, true, ◌<◌, eqb, length, set};
ghost use Rattle.std.specs.Float.{nan};
ghost use Rattle.laws.specs.Pick.{pick};
ghost use Rattle.refusals.specs.Refusals.{code};
ghost use Rattle.many.specs.Many.{many};
ghost use Rattle.exponential_slots.specs.Cells.{cells, Room, words_of, recorded_at};
ghost use Rattle.value_map.specs.Exponential.{exponential_store};
ghost use Rattle.batches.specs.Inner.{recorded_all};
ghost use Rattle.batches.specs.Asked.{Asked};
ghost use Rattle.exponential_batches.specs.Slot.{extremes_of};

use many::Taken;
use refusals::Refusal;

// Why the slot refuses a finite value, if it does. Where its series is known to agree nothing is asked: the loop asks what is left.
fn refusal(
    known: bool,
    size: u32,
    top: u32,
    x: usize,
    updated: bool,
    figures: &[[u64; 8]],
    extremes: &[[f64; 3]],
    pos: &[u64],
    neg: &[u64],
    v: f64,
) -> Result<(), Refusal>
    requires { Room size (cells figures.now extremes.now pos.now neg.now) x }
    ensures { code result ≡ pick known 0 (recorded_at size top x updated (cells figures.now extremes.now pos.now neg.now) v).no }
{
    if known {
        return Ok(());
    }
    let f = figures[x];
    if !exponential_slots::can_read(updated, f) {
        return Err(Refusal::Disagrees);
    }
    let head = exponential_slots::head_of(top, updated, f, extremes[x]);
    let n = size as usize;
    let a = x * n;
    let e = a + n;
    exponential::refusal(size, top, head, &pos[a..e], &neg[a..e], v)
}

// The head written into the slot, if a value was taken.
fn keep(x: usize, figures: &mut [[u64; 8]], extremes: &mut [[f64; 3]], run: crate::series::Run)
    requires { (x < length figures.old) × (x < length extremes.old) }
    ensures figures_after { figures.new ≡ pick (eqb run.taken 0) figures.old
        (set figures.old x (words_of run.head.counts)) }
    ensures extremes_after { extremes.new ≡ pick (eqb run.taken 0) extremes.old
        (set extremes.old x (extremes_of run.head)) }
{
    if run.taken == 0 {
        return;
    }
    let h = run.head;
    let c = h.counts;
    figures[x] = exponential_slots::words_of(c);
    extremes[x] = [h.min, h.max, h.sum];
}

// Records values, the first of which is finite, into slot x, which holds a series where it was updated, up to the first that is refused: 8
// where the slot's words are no head or the series disagrees, 6, 9.
pub fn record_all(
    known: bool,
    size: u32,
    top: u32,
    x: usize,
    updated: bool,
    figures: &mut [[u64; 8]],
    extremes: &mut [[f64; 3]],
    pos: &mut [u64],
    neg: &mut [u64],
    values: &[f64],
) -> Taken
    requires { Asked (exponential_store size top) (true, true) nan known x updated (cells figures.old extremes.old pos.old neg.old) values.now }
    ensures { many result.taken (code result.end) (cells figures.new extremes.new pos.new neg.new)
        ≡ recorded_all (exponential_store size top) x updated (cells figures.old extremes.old pos.old neg.old) values.now }
{
    let asked = refusal(
        known, size, top, x, updated, figures, extremes, pos, neg, values[0],
    );
    if let Err(e) = asked {
        return Taken {
            taken: 0,
            end: Err(e),
        };
    }
    let head = exponential_slots::head_of(top, updated, figures[x], extremes[x]);
    let n = size as usize;
    let a = x * n;
    let e = a + n;
    let run = crate::series::record_all(size, top, head, &mut pos[a..e], &mut neg[a..e], values);
    keep(x, figures, extremes, run);
    Taken {
        taken: run.taken,
        end: run.end,
    }
}
