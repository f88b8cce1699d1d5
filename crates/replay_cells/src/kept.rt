// Points kept (`k`), and merged (`j`): each lies behind the collection in the output, a list of one.
ghost use Rattle.std.specs.Prelude.{◌≡◌, ◌≤◌};

use lines::Block;
use listing::Cursor;
use refusals::Refusal;
use replay_state::{State, after, lent, stores, within};
use std::io::Stdout;

// A list's first cursor.
fn first() -> Cursor
    ensures { (result.place ≡ 0) × (result.pos ≡ 0) × (result.neg ≡ 0) }
{
    Cursor {
        place: 0,
        pos: 0,
        neg: 0,
    }
}

// Where a kept point's counts lie.
fn begin(k: u64) -> usize
    ensures { result ≤ 11680 }
{
    10560 + 160 * within(k, 7)
}

// The counts up to its last.
fn upto<'a>(counts: &'a [u64], k: u64) -> &'a [u64] {
    lent::counts_in(counts, (begin(k) + 160) as u64)
}

// The cursor of a kept point.
fn cursor(k: u64) -> Cursor {
    Cursor {
        place: 66 + within(k, 7),
        pos: begin(k),
        neg: begin(k),
    }
}

// The part of its bounds.
fn part(k: u64) -> usize
    ensures { result ≤ 10 }
{
    3 + within(k, 7)
}

fn copy_bounds(bounds: &mut stores::Bounds, from: usize, to: usize) {
    let a = 200 * within(from as u64, 10);
    let b = 200 * within(to as u64, 10);
    for i in 0..200 {
        bounds[b + i] = bounds[a + i];
    }
}

// After an accepted line a part of the bounds is another's.
fn settled(s: State, bounds: &mut stores::Bounds, from: usize, to: usize) -> State {
    if s.no.is_err() {
        return s;
    }
    copy_bounds(bounds, from, to);
    s
}

// ---- keeping

// The cursor behind a point of i64 values.
fn behind_whole(at: Cursor, words: &[[u64; 12]], pos: &[u64], neg: &[u64]) -> Cursor {
    let Some(e) = whole_listing::read::point_at(at, words, pos, neg) else {
        return at;
    };
    e.next
}

// The cursor behind a point of either number; the same where there is none.
fn behind(at: Cursor, words: &[[u64; 12]], pos: &[u64], neg: &[u64]) -> Cursor {
    let Some(e) = listing::read::point_at(at, words, pos, neg) else {
        return behind_whole(at, words, pos, neg);
    };
    e.next
}

// The cursor of a place of the list.
fn cursor_of(place: u64, words: &[[u64; 12]], pos: &[u64], neg: &[u64]) -> Cursor {
    let mut at = first();
    for _ in 0..place {
        at = behind(at, words, pos, neg);
    }
    at
}

// Copies counts from one place up to another to a kept point's.
fn move_counts(counts: &mut stores::ListedCounts, from: usize, to: usize, k: u64) {
    let a = within(from as u64, 10560);
    let b = begin(k);
    for i in 0..to.saturating_sub(a).min(160) {
        counts[b + i] = counts[a + i];
    }
}

// Keeps the point at a place of the last collection; a sum or a last value is none that can be kept.
fn keep(
    s: State,
    sets: &mut stores::ListedSets,
    words: &mut stores::ListedWords,
    pos: &mut stores::ListedCounts,
    neg: &mut stores::ListedCounts,
) -> State {
    if s.listed as u64 <= s.f[2] || replay_state::is_single(s.collected) {
        return after::unread(s);
    }
    let at = cursor_of(s.f[2], words, pos, neg);
    let next = behind(at, words, pos, neg);
    let p = within(at.place as u64, 65);
    let q = 66 + within(s.f[1], 7);
    let set = sets[p];
    let row = words[p];
    sets[q] = set;
    words[q] = row;
    move_counts(pos, at.pos, next.pos, s.f[1]);
    move_counts(neg, at.neg, next.neg, s.f[1]);
    s
}

// ---- merging

// Whether a point is kept there: the one behind it lies elsewhere.
fn is_kept(k: u64, words: &[[u64; 12]], pos: &[u64], neg: &[u64]) -> bool {
    let at = cursor(k);
    let next = behind(at, words, upto(pos, k), upto(neg, k));
    at.place < next.place
}

// Whether there are the two points that a line merges.
fn are_kept(s: State, words: &[[u64; 12]], pos: &[u64], neg: &[u64]) -> bool {
    if !is_kept(s.f[2], words, pos, neg) {
        return false;
    }
    is_kept(s.f[3], words, pos, neg)
}

// Merges two kept points into a list of one.
fn merge_to(
    s: State,
    bounds: &[f64],
    sets: &[[u64; 9]],
    words: &[[u64; 12]],
    pos: &[u64],
    neg: &[u64],
    to_sets: &mut [[u64; 9]; 1],
    to_words: &mut [[u64; 12]; 1],
    to_pos: &mut [u64],
    to_neg: &mut [u64],
) -> Result<Cursor, Refusal> {
    let a = s.f[2];
    let b = s.f[3];
    pooling::merge_at(
        replay_state::cut(s.f[4]),
        cursor(a),
        sets,
        words,
        upto(pos, a),
        upto(neg, a),
        lent::bounds_in(bounds, part(a), 200),
        cursor(b),
        words,
        upto(pos, b),
        upto(neg, b),
        lent::bounds_in(bounds, part(b), 200),
        first(),
        to_sets,
        to_words,
        lent::counts(to_pos, s.f[5]),
        lent::counts(to_neg, s.f[5]),
    )
}

fn put_counts(counts: &[u64; 160], n: usize, k: u64, out: &mut stores::ListedCounts) {
    let a = begin(k);
    let many = n.min(160);
    out[a..a + many].copy_from_slice(&counts[..many]);
}

// Merges two kept points into a third, which has the first's set.
fn merge(
    s: State,
    bounds: &stores::Bounds,
    out_sets: &mut stores::ListedSets,
    out_words: &mut stores::ListedWords,
    out_pos: &mut stores::ListedCounts,
    out_neg: &mut stores::ListedCounts,
) -> State {
    if !are_kept(s, out_words, out_pos, out_neg) {
        return after::unread(s);
    }
    let mut sets = [[0u64; 9]; 1];
    let mut words = [[0u64; 12]; 1];
    let mut pos = [0u64; 160];
    let mut neg = [0u64; 160];
    let merged = merge_to(
        s, bounds, out_sets, out_words, out_pos, out_neg, &mut sets, &mut words, &mut pos, &mut neg,
    );
    match merged {
        Err(no) => after::refused(s, no),
        Ok(next) => {
            let p = 66 + within(s.f[1], 7);
            out_sets[p] = sets[0];
            out_words[p] = words[0];
            put_counts(&pos, next.pos, s.f[1], out_pos);
            put_counts(&neg, next.neg, s.f[1], out_neg);
            s
        }
    }
}

// Follows a line that keeps a point, merges kept points, or damages one. Behind a call, what waited is what was configured, and a
// collection has its bounds from there.
pub fn follow(
    s: State,
    bounds: &mut stores::Bounds,
    sets: &mut stores::ListedSets,
    words: &mut stores::ListedWords,
    pos: &mut stores::ListedCounts,
    neg: &mut stores::ListedCounts,
) -> State {
    let letter = s.letter;
    match letter {
        b'n' => settled(s, bounds, 0, 1),
        b'c' => settled(s, bounds, 1, 2),
        b'k' => {
            let next = keep(s, sets, words, pos, neg);
            settled(next, bounds, 2, part(s.f[1]))
        }
        b'j' => {
            let next = merge(s, bounds, sets, words, pos, neg);
            settled(next, bounds, part(s.f[2]), part(s.f[1]))
        }
        b'd' => crate::damage::set_kept(s, bounds, words, pos, neg),
        _ => s,
    }
}

// Prints a kept point behind n bytes of text; how many bytes there are then.
pub fn printed<'a>(
    out: &Stdout,
    text: &mut Block,
    n: usize,
    k: u64,
    bounds: &[f64],
    sets: &[[u64; 9]],
    words: &[[u64; 12]],
    pos: &'a [u64],
    neg: &'a [u64],
) -> usize {
    let done = whole_printing::point(
        out,
        text,
        n,
        cursor(k),
        sets,
        words,
        upto(pos, k),
        upto(neg, k),
        lent::bounds_in(bounds, part(k), 200),
    );
    done.n
}
