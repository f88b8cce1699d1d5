// The exponential kind's part of the map: recording a value into the series of one slot of the lent stores.
#![tactic(auto)]

ghost use Rattle.std.specs.Prelude.{◌≡◌, true, ◌+◌, ◌*◌, ◌<◌, ◌≤◌, length};
ghost use Rattle.std.specs.Float.Ieee.Scale.{finite};
ghost use Rattle.laws.specs.Said.{number};
ghost use Rattle.rows.specs.Recording.{after};
ghost use Rattle.refusals.specs.Refusals.{code, said};
ghost use Rattle.exponential_slots.specs.Cells.{cells, narrow, readable, head_in, head_of, words_of, recorded_at};
ghost use Rattle.exponential_slots.specs.Inner.{figures_after, extremes_after};

use exponential::{Counts, Head};
use refusals::Refusal;
use rows::Row;

// The greatest u32.
const MOST: u64 = 4294967295;

// Whether level and starts, words of 64 bits, are numbers of 32.
fn are_narrow(f: [u64; 8]) -> bool
    ensures { result ≡ narrow f }
{
    if f[2] > MOST {
        return false;
    }
    if f[3] > MOST {
        return false;
    }
    f[5] <= MOST
}

// Whether a slot's words can be read: where no series is, nothing is read.
pub fn can_read(updated: bool, f: [u64; 8]) -> bool
    ensures { result ≡ readable updated f }
{
    if updated {
        return are_narrow(f);
    }
    true
}

// The head that a slot's words are.
fn head_in(f: [u64; 8], m: [f64; 3]) -> Head
    requires { narrow f ≡ true }
    ensures { result ≡ head_in f m }
{
    Head {
        counts: Counts {
            count: f[0],
            zeros: f[1],
            level: f[2] as u32,
            pos: Row {
                start: f[3] as u32,
                len: f[4] as usize,
            },
            neg: Row {
                start: f[5] as u32,
                len: f[6] as usize,
            },
        },
        min: m[0],
        max: m[1],
        sum: m[2],
    }
}

// The head of a slot: that of its words, or a fresh one where no series is.
pub fn head_of(top: u32, updated: bool, f: [u64; 8], m: [f64; 3]) -> Head
    requires { readable updated f ≡ true }
    ensures { result ≡ head_of top updated f m }
{
    if updated {
        return head_in(f, m);
    }
    exponential::fresh(top)
}

// The words of counts; the last is spare.
pub fn words_of(c: Counts) -> [u64; 8]
    ensures { result ≡ words_of c }
{
    let p = c.pos;
    let n = c.neg;
    [
        c.count,
        c.zeros,
        c.level as u64,
        p.start as u64,
        p.len as u64,
        n.start as u64,
        n.len as u64,
        0,
    ]
}

// The new head written into the slot, or the refusal.
fn keep(
    x: usize,
    figures: &mut [[u64; 8]],
    extremes: &mut [[f64; 3]],
    got: Result<Head, Refusal>,
) -> Result<(), Refusal>
    requires { (x < length figures.old) × (x < length extremes.old) }
    ensures value { code result ≡ number (said got) }
    ensures figures_after { figures.new ≡ figures_after x figures.old (said got) }
    ensures extremes_after { extremes.new ≡ extremes_after x extremes.old (said got) }
{
    let h = got?;
    let c = h.counts;
    figures[x] = words_of(c);
    extremes[x] = [h.min, h.max, h.sum];
    Ok(())
}

// Records a finite value into slot x, which holds a series where it was updated; or refuses it: 8 where the slot's words are
// no head or the series disagrees, 9 where its count is full.
pub fn record(
    size: u32,
    top: u32,
    x: usize,
    updated: bool,
    figures: &mut [[u64; 8]],
    extremes: &mut [[f64; 3]],
    pos: &mut [u64],
    neg: &mut [u64],
    v: f64,
) -> Result<(), Refusal>
    requires { (x < length figures.old) × (x < length extremes.old)
        × (x * size + size ≤ length pos.old) × (x * size + size ≤ length neg.old) × (finite v ≡ true) }
    ensures { after (code result) (cells figures.new extremes.new pos.new neg.new)
        ≡ recorded_at size top x updated (cells figures.old extremes.old pos.old neg.old) v }
{
    let f = figures[x];
    if !can_read(updated, f) {
        return Err(Refusal::Disagrees);
    }
    let head = head_of(top, updated, f, extremes[x]);
    let n = size as usize;
    let a = x * n;
    let e = a + n;
    let got = exponential::record(size, top, head, &mut pos[a..e], &mut neg[a..e], v);
    keep(x, figures, extremes, got)
}
