// Many values recorded into one slot of the lent stores over i64: its series is read once, and its head written once.
ghost use Rattle.std.specs.Prelude.{◌≡◌, true, ◌<◌, eqb, length, set};
ghost use Rattle.laws.specs.Pick.{pick};
ghost use Rattle.refusals.specs.Refusals.{code};
ghost use Rattle.many.specs.Many.{many};
ghost use Rattle.exponential_slots.specs.Cells.{words_of};
ghost use Rattle.exponential_whole_slots.specs.Cells.{cells};
ghost use Rattle.value_map.specs.Exponential.{unset};
ghost use Rattle.whole_map.specs.Exponential.{exponential_wholes};
ghost use Rattle.batches.specs.Inner.{recorded_all};
ghost use Rattle.exponential_whole_batches.specs.Slot.{agrees_at, Asks, extremes_of};

use crate::series;
use crate::series::Run;
use many::Taken;
use refusals::Refusal;

// Whether the series of a slot's words and rows agrees, where one is held. What is known is not asked.
fn agrees(
    known: bool,
    size: u32,
    top: u32,
    updated: bool,
    f: [u64; 8],
    pos: &[u64],
    neg: &[u64],
) -> bool
    requires top_value { (unset size top ≡ 0) × (length pos.now ≡ size) × (length neg.now ≡ size) }
    requires neg_value { known ≡ true → agrees_at size top updated f pos.now neg.now ≡ true }
    ensures { result ≡ agrees_at size top updated f pos.now neg.now }
{
    if known {
        return true;
    }
    if !updated {
        return true;
    }
    if !exponential_slots::can_read(updated, f) {
        return false;
    }
    let h = exponential_slots::head_of(top, updated, f, [0.0, 0.0, 0.0]);
    let c = h.counts;
    exponential::counts_agree(size as usize, top, c, pos, neg)
}

// The head written into the slot, if a value was taken.
fn keep(x: usize, figures: &mut [[u64; 8]], extremes: &mut [[i64; 3]], run: Run)
    requires { (x < length figures.old) × (x < length extremes.old) }
    ensures figures_after { figures.new ≡ pick (eqb run.taken 0) figures.old (set figures.old x (words_of run.head.counts)) }
    ensures extremes_after { extremes.new ≡ pick (eqb run.taken 0) extremes.old (set extremes.old x (extremes_of run.head)) }
{
    if run.taken == 0 {
        return;
    }
    let h = run.head;
    let c = h.counts;
    figures[x] = exponential_slots::words_of(c);
    extremes[x] = [h.min, h.max, h.sum];
}

// Records values into slot x, which holds a series where it was updated, up to the first that is refused: 8 where the slot's words are no head
// or the series disagrees, then 9, 16.
pub fn record_all(
    known: bool,
    size: u32,
    top: u32,
    sums: bool,
    x: usize,
    updated: bool,
    figures: &mut [[u64; 8]],
    extremes: &mut [[i64; 3]],
    pos: &mut [u64],
    neg: &mut [u64],
    values: &[i64],
) -> Taken
    requires { Asks known size top sums x updated (cells figures.old extremes.old pos.old neg.old) values.now }
    ensures { many result.taken (code result.end) (cells figures.new extremes.new pos.new neg.new)
        ≡ recorded_all (exponential_wholes size top sums) x updated (cells figures.old extremes.old pos.old neg.old) values.now }
{
    let f = figures[x];
    let n = size as usize;
    let a = x * n;
    let e = a + n;
    if !agrees(known, size, top, updated, f, &pos[a..e], &neg[a..e]) {
        return Taken {
            taken: 0,
            end: Err(Refusal::Disagrees),
        };
    }
    let head = exponential_whole_slots::head_of(top, updated, f, extremes[x]);
    let run = series::record_all(
        size,
        top,
        sums,
        head,
        &mut pos[a..e],
        &mut neg[a..e],
        values,
    );
    keep(x, figures, extremes, run);
    Taken {
        taken: run.taken,
        end: run.end,
    }
}
