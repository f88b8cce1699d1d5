// The exponential kind's part of the map over i64: recording a value into the series of one slot of the lent stores.
#![tactic(auto)]

ghost use Rattle.std.specs.Prelude.{◌≡◌, true, ◌+◌, ◌*◌, ◌<◌, ◌≤◌, length};
ghost use Rattle.laws.specs.Said.{number};
ghost use Rattle.rows.specs.Recording.{after};
ghost use Rattle.exponential_slots.specs.Cells.{readable};
ghost use Rattle.refusals.specs.Refusals.{code, said};
ghost use Rattle.exponential_whole_slots.specs.Cells.{cells, head_in, head_of, figures_after, extremes_after, recorded_at};

use exponential::Counts;
use exponential_wholes::Head;
use refusals::Refusal;

// The head of counts and a slot's three numbers.
fn head_with(c: Counts, m: [i64; 3]) -> Head
    ensures { result ≡ head_in c m }
{
    Head {
        counts: c,
        min: m[0],
        max: m[1],
        sum: m[2],
    }
}

// The head of a slot: that of its words, or a fresh one where no series is.
pub fn head_of(top: u32, updated: bool, f: [u64; 8], m: [i64; 3]) -> Head
    requires { readable updated f ≡ true }
    ensures { result ≡ head_of top updated f m }
{
    if updated {
        let h = exponential_slots::head_of(top, updated, f, [0.0, 0.0, 0.0]);
        let c = h.counts;
        return head_with(c, m);
    }
    exponential_wholes::fresh(top)
}

// The new head written into the slot, or the refusal.
fn keep(
    x: usize,
    figures: &mut [[u64; 8]],
    extremes: &mut [[i64; 3]],
    got: Result<Head, Refusal>,
) -> Result<(), Refusal>
    requires { (x < length figures.old) × (x < length extremes.old) }
    ensures value { code result ≡ number (said got) }
    ensures figures_after { figures.new ≡ figures_after x figures.old (said got) }
    ensures extremes_after { extremes.new ≡ extremes_after x extremes.old (said got) }
{
    let h = got?;
    let c = h.counts;
    figures[x] = exponential_slots::words_of(c);
    extremes[x] = [h.min, h.max, h.sum];
    Ok(())
}

// Records a value into slot x, which holds a series where it was updated; or refuses it: 8 where the slot's words are no head or
// the series disagrees, 9 where its count is full, 16 where its sum would leave i64.
pub fn record(
    size: u32,
    top: u32,
    sums: bool,
    x: usize,
    updated: bool,
    figures: &mut [[u64; 8]],
    extremes: &mut [[i64; 3]],
    pos: &mut [u64],
    neg: &mut [u64],
    v: i64,
) -> Result<(), Refusal>
    requires { (x < length figures.old) × (x < length extremes.old)
        × (x * size + size ≤ length pos.old) × (x * size + size ≤ length neg.old) }
    ensures { after (code result) (cells figures.new extremes.new pos.new neg.new)
        ≡ recorded_at size top sums x updated (cells figures.old extremes.old pos.old neg.old) v }
{
    let f = figures[x];
    if !exponential_slots::can_read(updated, f) {
        return Err(Refusal::Disagrees);
    }
    let head = head_of(top, updated, f, extremes[x]);
    let n = size as usize;
    let a = x * n;
    let e = a + n;
    let got = exponential_wholes::record(size, top, sums, head, &mut pos[a..e], &mut neg[a..e], v);
    keep(x, figures, extremes, got)
}
