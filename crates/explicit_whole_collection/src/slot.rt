// One slot of the stores: what a collection finds there, and its point put into the output.
ghost use Rattle.std.specs.Prelude.{◌≡◌, true, not, ◌||◌, [], ◌<◌, ◌≤◌, length, replicate};
ghost use Rattle.points.specs.Explicit.{bounds_pass, bucket_count};
ghost use Rattle.explicit_wholes.specs.Series.{fresh_head};
ghost use Rattle.whole_point.specs.Handing.{explicit_point};
ghost use Rattle.kinds.specs.Wholes.{wholes};
ghost use Rattle.explicit_whole_slots.specs.Cells.{cells, head_in, series_at, Room};
ghost use Rattle.batches.specs.Inner.{Known};
ghost use Rattle.whole_map.specs.Explicit.{explicit_wholes};
ghost use Rattle.listing.specs.Listed.{output};
ghost use Rattle.listing.specs.Inner.{left};
ghost use Rattle.collecting.specs.Slots.{Few, More, Place, surveyed_at, Sound, Free, put_slot};
ghost use Rattle.explicit_whole_collection.specs.Points.{explicit_whole_lister};
ghost use Rattle.explicit_whole_collection.specs.Ready.{counting, point_put};

use collecting::Survey;
use explicit_wholes::Head;
use listing::{Cursor, Span};

// The head of slot x.
fn head_at(x: usize, totals: &[u64], extremes: &[[i64; 3]]) -> Head
    requires { (x < length totals.now) × (x < length extremes.now) }
    ensures { result ≡ head_in (record { totals = totals.now; extremes = extremes.now; counts = [] }) x }
{
    Head {
        count: totals[x],
        min: extremes[x][0],
        max: extremes[x][1],
        sum: extremes[x][2],
    }
}

// Whether a slot's series agrees, if it holds one: its bounds, count and counts do. Every i64 is finite, so its extremes are not read. Where it is
// known, it is not asked.
fn sound_at(
    known: bool,
    bounds: &[f64],
    x: usize,
    updated: bool,
    totals: &[u64],
    counts: &[u64],
) -> bool
    requires room { Room bounds.now (counting totals.now counts.now) x }
    requires known { Known (explicit_wholes bounds.now true) true known x updated (counting totals.now counts.now) }
    ensures { result ≡ (not updated || wholes.agrees ((explicit_wholes bounds.now true).settings true)
        (series_at bounds.now (counting totals.now counts.now) x)) }
{
    if known {
        return true;
    }
    if !updated {
        return true;
    }
    let n = explicit::bucket_count(bounds);
    let a = x * n;
    let e = a + n;
    explicit::buckets_agree(bounds, totals[x], &counts[a..e])
}

// The survey with slot x more, which was updated or not and is due or not.
pub fn survey(
    known: bool,
    bounds: &[f64],
    s: Survey,
    x: usize,
    updated: bool,
    due: bool,
    totals: &[u64],
    counts: &[u64],
) -> Survey
    requires bounds_value { (bounds_pass bounds.now ≡ true) × Room bounds.now (counting totals.now counts.now) x }
    requires few { Few s × Known (explicit_wholes bounds.now true) true known x updated (counting totals.now counts.now) }
    ensures value { result ≡ surveyed_at (explicit_whole_lister bounds.now true) true updated due
        (counting totals.now counts.now) s x }
    ensures more { More s result }
{
    if !sound_at(known, bounds, x, updated, totals, counts) {
        return Survey {
            sound: false,
            points: 0,
            pos: 0,
            neg: 0,
        };
    }
    if !due {
        return s;
    }
    explicit_collection::slot::one_more(s, explicit::bucket_count(bounds))
}

// Puts the point of a head at the cursor, with its row of counts; the next cursor.
fn put_point(
    bounds: &[f64],
    show: bool,
    sums: bool,
    at: Cursor,
    row: [u64; 9],
    head: Head,
    counts: &[u64],
    out_sets: &mut [[u64; 9]],
    out_words: &mut [[u64; 12]],
    out_pos: &mut [u64],
    out_neg: &mut [u64],
) -> Cursor
    requires bounds_value { (bounds_pass bounds.now ≡ true) × (bucket_count bounds.now ≤ length counts.now) }
    requires place { Place at (output out_sets.old out_words.old out_pos.old out_neg.old) (bucket_count bounds.now) 0 }
    ensures { left result (output out_sets.new out_words.new out_pos.new out_neg.new)
        ≡ point_put bounds.now (explicit_point head show sums) at row counts.now
        (output out_sets.old out_words.old out_pos.old out_neg.old) }
{
    let p = whole_point::explicit_point(head, show, sums);
    let b = Span {
        start: 0,
        len: bounds.len(),
    };
    whole_listing::put::put(
        at, row, p, b, counts, counts, out_sets, out_words, out_pos, out_neg,
    )
}

// The same of a series without values: zeros.
fn put_fresh(
    bounds: &[f64],
    show: bool,
    sums: bool,
    at: Cursor,
    row: [u64; 9],
    out_sets: &mut [[u64; 9]],
    out_words: &mut [[u64; 12]],
    out_pos: &mut [u64],
    out_neg: &mut [u64],
) -> Cursor
    requires bounds_value { bounds_pass bounds.now ≡ true }
    requires place { Place at (output out_sets.old out_words.old out_pos.old out_neg.old) (bucket_count bounds.now) 0 }
    ensures { left result (output out_sets.new out_words.new out_pos.new out_neg.new)
        ≡ point_put bounds.now (explicit_point fresh_head show sums) at row (replicate (bucket_count bounds.now) 0)
        (output out_sets.old out_words.old out_pos.old out_neg.old) }
{
    let zeros: [u64; 160] = [0; 160];
    let head = Head {
        count: 0,
        min: 9223372036854775807,
        max: -9223372036854775808,
        sum: 0,
    };
    put_point(
        bounds,
        show,
        sums,
        at,
        row,
        head,
        &zeros[..],
        out_sets,
        out_words,
        out_pos,
        out_neg,
    )
}

// Puts the point of slot x at the cursor, if it is due; the next cursor.
pub fn put(
    bounds: &[f64],
    show: bool,
    sums: bool,
    at: Cursor,
    x: usize,
    updated: bool,
    due: bool,
    row: [u64; 9],
    totals: &[u64],
    extremes: &[[i64; 3]],
    counts: &[u64],
    out_sets: &mut [[u64; 9]],
    out_words: &mut [[u64; 12]],
    out_pos: &mut [u64],
    out_neg: &mut [u64],
) -> Cursor
    requires sound { Sound (explicit_whole_lister bounds.now sums) show updated (cells totals.now extremes.now counts.now) x }
    requires free { due ≡ true → Free (explicit_whole_lister bounds.now sums) show updated (cells totals.now extremes.now counts.now) x at
        (output out_sets.old out_words.old out_pos.old out_neg.old) }
    ensures { left result (output out_sets.new out_words.new out_pos.new out_neg.new)
        ≡ put_slot (explicit_whole_lister bounds.now sums) show updated due (cells totals.now extremes.now counts.now) x row at
        (output out_sets.old out_words.old out_pos.old out_neg.old) }
{
    if !due {
        return at;
    }
    if !updated {
        return put_fresh(
            bounds, show, sums, at, row, out_sets, out_words, out_pos, out_neg,
        );
    }
    let head = head_at(x, totals, extremes);
    let n = explicit::bucket_count(bounds);
    let a = x * n;
    let e = a + n;
    put_point(
        bounds,
        show,
        sums,
        at,
        row,
        head,
        &counts[a..e],
        out_sets,
        out_words,
        out_pos,
        out_neg,
    )
}
