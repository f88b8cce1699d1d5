// Points of a list that were judged fine, put into the records of a sheet.
ghost use Rattle.std.specs.Prelude.{◌≡◌, [], ◌∷◌, ◌++◌, map, ◌+◌, ◌*◌, ◌≤◌, ◌<◌, length};
ghost use Rattle.floats.specs.Answers.{bits_of};
ghost use Rattle.records.specs.Records.{padded, width};
ghost use Rattle.records.specs.Inner.{laid, Room};
ghost use Rattle.sheets.specs.Entries.{head_of};
ghost use Rattle.sheets.specs.Sheet.{info_for};
ghost use Rattle.pooling.specs.Lists.{source};
ghost use Rattle.point.specs.Handing.{stored};
ghost use Rattle.sheet_writing.specs.Inner.{lent_beside, width_at, point_words, whole_there, Judgement, put_sheet};

use listing::{Cursor, Entry, Span};
use point::Point;
use records::chain::{emit, emit_run, emit_zeros, width_of};
use sheets::Header;

// The bits of f64s from word k on.
fn emit_floats(s: &mut [u8], info: u64, n: usize, k: usize, xs: &[f64])
    requires room { Room info n s.old }
    requires xs_bound { k + length xs.now ≤ n * 3 }
    ensures { s.new ≡ laid info n k (map bits_of xs.now) s.old }
{
    for (i, x) in xs.iter().enumerate() {
        emit(s, info, n, k + i, floats::bits_of(*x));
    }
}

// Bounds, filled up to whole records.
fn put_bounds(s: &mut [u8], info: u64, n: usize, k: usize, xs: &[f64])
    requires room { Room info n s.old }
    requires xs_bound { k + width (length xs.now) ≤ n * 3 }
    ensures { s.new ≡ laid info n k (padded (map bits_of xs.now)) s.old }
{
    let a = xs.len();
    let w = width_of(a);
    emit_floats(s, info, n, k, xs);
    emit_zeros(s, info, n, k + a, w - a);
}

// Two rows of counts one behind the other, filled up to whole records.
fn put_rows(s: &mut [u8], info: u64, n: usize, k: usize, xs: &[u64], ys: &[u64])
    requires room { Room info n s.old }
    requires ys_bound { k + width (length xs.now + length ys.now) ≤ n * 3 }
    ensures { s.new ≡ laid info n k (padded (xs.now ++ ys.now)) s.old }
{
    let a = xs.len();
    let b = a + ys.len();
    let w = width_of(b);
    emit_run(s, info, n, k, xs);
    emit_run(s, info, n, k + a, ys);
    emit_zeros(s, info, n, k + b, w - b);
}

// One point: its set's row, its head, its bounds and its counts.
fn put_point(
    s: &mut [u8],
    info: u64,
    n: usize,
    k: usize,
    row: &[u64; 9],
    p: Point,
    bounds: &[f64],
    pos: &[u64],
    neg: &[u64],
)
    requires room { Room info n s.old }
    requires neg_bound { k + (21 + (width (length bounds.now) + width (length pos.now + length neg.now))) ≤ n * 3 }
    ensures { s.new ≡ laid info n k (row.now ++ (head_of (stored p bounds.now pos.now neg.now)
        ++ (padded (map bits_of bounds.now) ++ padded (pos.now ++ neg.now)))) s.old }
{
    let span = Span {
        start: 0,
        len: bounds.len(),
    };
    let head = listing::encode::words_of(p, span);
    emit_run(s, info, n, k, row);
    emit_run(s, info, n, k + 9, &head);
    put_bounds(s, info, n, k + 21, bounds);
    put_rows(s, info, n, k + 21 + width_of(bounds.len()), pos, neg);
}

// The point found at a cursor.
fn put_found<'a>(
    s: &mut [u8],
    info: u64,
    n: usize,
    k: usize,
    at: Cursor,
    e: Entry,
    row: &[u64; 9],
    pos: &'a [u64],
    neg: &'a [u64],
    bounds: &[f64],
)
    requires room { Room info n s.old }
    requires whole_there { whole_there at e pos.now neg.now bounds.now }
    requires e_bound { k + width_at at e ≤ n * 3 }
    ensures { s.new ≡ laid info n k (point_words at row.now (lent_beside pos.now neg.now bounds.now) e) s.old }
{
    let p = e.point;
    let next = e.next;
    let xs = listing::read::row_at(at, next, false, pos, neg);
    let ys = listing::read::row_at(at, next, true, pos, neg);
    let own = listing::read::bounds_at(e.bounds, bounds);
    put_point(s, info, n, k, row, p, own, xs, ys);
}

// The upper half of the first word.
fn info_of(h: Header, points: usize) -> u64
    requires { points < 65536 }
    ensures { (result ≡ info_for h points) × (result < 4294967296) }
{
    if h.delta {
        return 256 + 65536 * points as u64;
    }
    65536 * points as u64
}

// The header: start, time, and a zero.
fn put_header(s: &mut [u8], info: u64, n: usize, h: Header)
    requires room { Room info n s.old }
    requires n_nonzero { 0 < n }
    ensures { s.new ≡ laid info n 0 (h.start ∷ h.time ∷ 0 ∷ []) s.old }
{
    emit(s, info, n, 0, h.start);
    emit(s, info, n, 1, h.time);
    emit(s, info, n, 2, 0);
}

// The sheet of the first n points of a list that was judged fine, in so many records.
pub fn put_sheet<'a>(
    h: Header,
    n: usize,
    records: usize,
    sets: &[[u64; 9]],
    words: &[[u64; 12]],
    pos: &'a [u64],
    neg: &'a [u64],
    bounds: &[f64],
    s: &mut [u8],
)
    requires { Judgement n records (source sets.now words.now pos.now neg.now bounds.now) s.old }
    ensures { s.new ≡ put_sheet h n records (source sets.now words.now pos.now neg.now bounds.now) s.old }
{
    let info = info_of(h, n);
    put_header(s, info, records, h);
    let mut at = Cursor {
        place: 0,
        pos: 0,
        neg: 0,
    };
    let mut k: usize = 3;
    for i in 0..n {
        let Some(e) = pooling::entries::whole_at(at, words, pos, neg, bounds) else {
            return;
        };
        let row = sets[i];
        put_found(s, info, records, k, at, e, &row, pos, neg, bounds);
        k += crate::judge::width_at(at, e);
        at = e.next;
    }
}
