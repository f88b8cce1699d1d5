// One point put into the list.
ghost use Rattle.std.specs.Prelude.{◌≡◌, ◌^◌, ◌<◌, ◌≤◌, length, take};
ghost use Rattle.laws.specs.Over.{over};
ghost use Rattle.listing.specs.Listed.{output, pos_len, neg_len, behind, put_at};
ghost use Rattle.listing.specs.Inner.{Goes, Room, left};

use crate::{Cursor, Span};
use point::{Figures, Point};

// How many counts a point has in the first store.
pub fn pos_len(f: Figures, b: Span) -> usize
    requires { pos_len f b < 2 ^ 64 }
    ensures { result ≡ pos_len f b }
{
    match f {
        Figures::Exponential(c) => {
            let p = c.pos;
            p.len
        }
        Figures::Explicit(m) => {
            if b.len == 0 {
                return 0;
            }
            b.len + 1
        }
    }
}

// How many it has in the second.
pub fn neg_len(f: Figures) -> usize
    ensures { result ≡ neg_len f }
{
    match f {
        Figures::Exponential(c) => {
            let n = c.neg;
            n.len
        }
        Figures::Explicit(m) => 0,
    }
}

// The cursor behind a point. It refuses nothing.
pub fn cursor_behind(at: Cursor, f: Figures, b: Span) -> Cursor
    requires { Goes at f b }
    ensures { result ≡ behind at f b }
{
    let n = pos_len(f, b);
    let m = neg_len(f);
    Cursor {
        place: at.place + 1,
        pos: at.pos + n,
        neg: at.neg + m,
    }
}

// The first n counts over what is lent.
fn copy(counts: &[u64], n: usize, out: &mut [u64])
    requires { (n ≤ length counts.now) × (n ≤ length out.old) }
    ensures { out.new ≡ over (take n counts.now) out.old }
{
    // Not copy_from_slice: that is memmove, which an archive for C would need from outside.
    for i in 0..n {
        out[i] = counts[i];
    }
}

// Puts a point at the cursor: its set's row, its words, and the first counts of `cpos` and `cneg`, as many as it has; the next cursor.
pub fn put(
    at: Cursor,
    row: [u64; 9],
    p: Point,
    b: Span,
    cpos: &[u64],
    cneg: &[u64],
    sets: &mut [[u64; 9]],
    words: &mut [[u64; 12]],
    pos: &mut [u64],
    neg: &mut [u64],
) -> Cursor
    requires { Room at p.figures b cpos.now cneg.now (output sets.old words.old pos.old neg.old) }
    ensures { left result (output sets.new words.new pos.new neg.new) ≡ left (behind at p.figures b)
        (put_at at row p b cpos.now cneg.now (output sets.old words.old pos.old neg.old)) }
{
    let f = p.figures;
    let n = pos_len(f, b);
    let m = neg_len(f);
    let place = at.place;
    sets[place] = row;
    words[place] = crate::encode::words_of(p, b);
    let a = at.pos;
    let e = a + n;
    copy(cpos, n, &mut pos[a..e]);
    let c = at.neg;
    let d = c + m;
    copy(cneg, m, &mut neg[c..d]);
    Cursor {
        place: place + 1,
        pos: e,
        neg: d,
    }
}
