// One slot of the stores: what a collection finds there, and its point put into the output.
ghost use Rattle.std.specs.Prelude.{◌≡◌, true, not, ◌||◌, ◌≤◌, get_or};
ghost use Rattle.laws.specs.Pick.{pick};
ghost use Rattle.kinds.specs.Histograms.{histograms};
ghost use Rattle.exponential_slots.specs.Cells.{cells, Room};
ghost use Rattle.exponential_slots.specs.Meaning.{settings, series_at};
ghost use Rattle.value_map.specs.Exponential.{unset, exponential_store};
ghost use Rattle.batches.specs.Inner.{Known};
ghost use Rattle.listing.specs.Listed.{output};
ghost use Rattle.listing.specs.Inner.{left};
ghost use Rattle.collecting.specs.Slots.{one_more, Few, More, surveyed_at, Sound, Free, put_slot};
ghost use Rattle.exponential_collection.specs.Points.{exponential_lister};

use collecting::Survey;
use listing::Cursor;

// Whether the series of slot x agrees: its words are a head, and head and rows agree.
fn agrees_at(
    size: u32,
    top: u32,
    x: usize,
    figures: &[[u64; 8]],
    extremes: &[[f64; 3]],
    pos: &[u64],
    neg: &[u64],
) -> bool
    requires { (unset size top ≡ 0) × Room size (cells figures.now extremes.now pos.now neg.now) x }
    ensures { result ≡ histograms.agrees (settings size top true true)
        (series_at size (cells figures.now extremes.now pos.now neg.now) x) }
{
    let f = figures[x];
    if !exponential_slots::can_read(true, f) {
        return false;
    }
    let head = exponential_slots::head_of(top, true, f, extremes[x]);
    let n = size as usize;
    let a = x * n;
    let e = a + n;
    let c = head.counts;
    if !exponential::counts_agree(n, top, c, &pos[a..e], &neg[a..e]) {
        return false;
    }
    if !floats::is_finite(head.min) {
        return false;
    }
    floats::is_finite(head.max)
}

// Whether the series of slot x agrees, if it holds one. Where that is known, it is not asked.
fn is_sound(
    known: bool,
    size: u32,
    top: u32,
    x: usize,
    updated: bool,
    figures: &[[u64; 8]],
    extremes: &[[f64; 3]],
    pos: &[u64],
    neg: &[u64],
) -> bool
    requires top_value { (unset size top ≡ 0) × Room size (cells figures.now extremes.now pos.now neg.now) x }
    requires known { Known (exponential_store size top) (true, true) known x updated (cells figures.now extremes.now pos.now neg.now) }
    ensures { result ≡ (not updated || histograms.agrees (settings size top true true)
        (series_at size (cells figures.now extremes.now pos.now neg.now) x)) }
{
    if known {
        return true;
    }
    if updated {
        return agrees_at(size, top, x, figures, extremes, pos, neg);
    }
    true
}

// The survey with a point more: that of a slot's words, or a fresh one, which has no counts.
pub fn counted(s: Survey, updated: bool, f: [u64; 8]) -> Survey
    requires few { Few s }
    requires f_bound { updated ≡ true → (get_or f 4 0 ≤ 160) × (get_or f 6 0 ≤ 160) }
    ensures { result ≡ one_more s (pick updated (get_or f 4 0) 0) (pick updated (get_or f 6 0) 0) }
{
    if updated {
        return Survey {
            sound: true,
            points: s.points + 1,
            pos: s.pos + f[4] as usize,
            neg: s.neg + f[6] as usize,
        };
    }
    Survey {
        sound: true,
        points: s.points + 1,
        pos: s.pos,
        neg: s.neg,
    }
}

// The survey with slot x more, which was updated or not and is due or not.
pub fn survey(
    known: bool,
    size: u32,
    top: u32,
    s: Survey,
    x: usize,
    updated: bool,
    due: bool,
    figures: &[[u64; 8]],
    extremes: &[[f64; 3]],
    pos: &[u64],
    neg: &[u64],
) -> Survey
    requires top_value { (unset size top ≡ 0) × Room size (cells figures.now extremes.now pos.now neg.now) x }
    requires few { Few s × Known (exponential_store size top) (true, true) known x updated (cells figures.now extremes.now pos.now neg.now) }
    ensures value { result ≡ surveyed_at (exponential_lister size top) (true, true) updated due
        (cells figures.now extremes.now pos.now neg.now) s x }
    ensures more { More s result }
{
    if !is_sound(known, size, top, x, updated, figures, extremes, pos, neg) {
        return Survey {
            sound: false,
            points: 0,
            pos: 0,
            neg: 0,
        };
    }
    if !due {
        return s;
    }
    counted(s, updated, figures[x])
}

// Puts the point of slot x at the cursor, if it is due; the next cursor.
pub fn put(
    size: u32,
    top: u32,
    show: bool,
    sums: bool,
    at: Cursor,
    x: usize,
    updated: bool,
    due: bool,
    row: [u64; 9],
    figures: &[[u64; 8]],
    extremes: &[[f64; 3]],
    pos: &[u64],
    neg: &[u64],
    out_sets: &mut [[u64; 9]],
    out_words: &mut [[u64; 12]],
    out_pos: &mut [u64],
    out_neg: &mut [u64],
) -> Cursor
    requires sound { Sound (exponential_lister size top) (show, sums) updated (cells figures.now extremes.now pos.now neg.now) x }
    requires free { due ≡ true → Free (exponential_lister size top) (show, sums) updated (cells figures.now extremes.now pos.now neg.now) x at
        (output out_sets.old out_words.old out_pos.old out_neg.old) }
    ensures { left result (output out_sets.new out_words.new out_pos.new out_neg.new)
        ≡ put_slot (exponential_lister size top) (show, sums) updated due (cells figures.now extremes.now pos.now neg.now) x row at
        (output out_sets.old out_words.old out_pos.old out_neg.old) }
{
    if !due {
        return at;
    }
    let head = exponential_slots::head_of(top, updated, figures[x], extremes[x]);
    let p = point::exponential_point(head, show, sums);
    let n = size as usize;
    let a = x * n;
    let e = a + n;
    let none = listing::Span { start: 0, len: 0 };
    listing::put::put(
        at,
        row,
        p,
        none,
        &pos[a..e],
        &neg[a..e],
        out_sets,
        out_words,
        out_pos,
        out_neg,
    )
}
