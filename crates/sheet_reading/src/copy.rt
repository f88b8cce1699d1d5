// The points of a sheet that was judged fine, copied into a list in lent stores.
ghost use Rattle.std.specs.Prelude.{◌≡◌};
ghost use Rattle.pooling.specs.Lists.{source};
ghost use Rattle.sheet_reading.specs.Inner.{nothing, copied_entry, copied, EntryRoom, Copyable};

use crate::judge::{Sizes, sizes_of, words_in};
use crate::words::{head_at, read_floats, row_at};
use listing::Span;
use records::chain::{read_run, width_of};

// Copies the entry at word k to place i, behind what the points before it take: y.
fn copy_entry(
    s: &[u8],
    k: usize,
    i: usize,
    y: Sizes,
    z: Sizes,
    w: [u64; 12],
    sets: &mut [[u64; 9]],
    words: &mut [[u64; 12]],
    pos: &mut [u64],
    neg: &mut [u64],
    bounds: &mut [f64],
)
    requires { EntryRoom s.now k i y z w (source sets.old words.old pos.old neg.old bounds.old) }
    ensures { source sets.new words.new pos.new neg.new bounds.new
        ≡ copied_entry s.now k i y (source sets.old words.old pos.old neg.old bounds.old) }
{
    sets[i] = row_at(s, k);
    let b = y.bounds;
    let n = z.bounds;
    let span = Span { start: b, len: n };
    words[i] = listing::encode::words_of(listing::decode::point_of(w), span);
    let e = b + n;
    read_floats(s, k + 21, &mut bounds[b..e]);
    let c = k + (21 + width_of(n));
    let p = y.pos;
    let q = p + z.pos;
    read_run(s, c, &mut pos[p..q]);
    let u = y.neg;
    let v = u + z.neg;
    read_run(s, c + z.pos, &mut neg[u..v]);
}

// Copies the n points of a sheet to the front of the stores.
pub fn copy_points(
    s: &[u8],
    n: usize,
    sets: &mut [[u64; 9]],
    words: &mut [[u64; 12]],
    pos: &mut [u64],
    neg: &mut [u64],
    bounds: &mut [f64],
)
    requires { Copyable s.now n (source sets.old words.old pos.old neg.old bounds.old) }
    ensures { source sets.new words.new pos.new neg.new bounds.new
        ≡ copied n s.now 3 0 nothing (source sets.old words.old pos.old neg.old bounds.old) }
{
    let mut y = Sizes {
        bounds: 0,
        pos: 0,
        neg: 0,
    };
    let mut k: usize = 3;
    for i in 0..n {
        let w = head_at(s, k + 9);
        let z = sizes_of(w);
        copy_entry(s, k, i, y, z, w, sets, words, pos, neg, bounds);
        y = crate::judge::added(y, z);
        k += words_in(z);
    }
}
