// Whether a sheet's entries are those of points that could have been written, and what they take: all that is asked before the first write.
ghost use Rattle.std.specs.Prelude.{◌≡◌, true, ◌||◌, ◌+◌, ◌≤◌, eqb, length};
ghost use Rattle.point.specs.Handing.{agrees_alone, stored_in};
ghost use Rattle.listing.specs.Words.{point_in};
ghost use Rattle.sets.specs.Rows.{size, set_of, below};
ghost use Rattle.tally.specs.Sets.{cmp};
ghost use Rattle.records.specs.Records.{cells};
ghost use Rattle.records.specs.Inner.{run};
ghost use Rattle.sheets.specs.Sheet.{points_in};
ghost use Rattle.sheets.specs.Inner.{framed, head_fine, entry_at};
ghost use Rattle.sheets.specs.Lists.{room_for};
ghost use Rattle.sheet_reading.specs.Inner.{There, floats_at, rest_holds, sizes_of, words_in, more, Few, Addable, judged};

use crate::words::{head_at, read_floats, row_at};
use records::chain::{are_zeros, read_run, width_of};

// How many bounds, and counts of either row.
#[derive(Clone, Copy)]
pub struct Sizes {
    pub bounds: usize,
    pub pos: usize,
    pub neg: usize,
}

// Whether twelve words are a point's, in the form of a sheet, with no more bounds and counts than agreement allows.
fn head_fine(w: [u64; 12]) -> bool
    ensures { result ≡ head_fine w }
{
    if !listing::decode::is_point(w) {
        return false;
    }
    let b = listing::decode::bounds_of(w);
    if b.start != 0 {
        return false;
    }
    if b.len > 159 {
        return false;
    }
    let p = listing::decode::point_of(w);
    let f = p.figures;
    if listing::put::pos_len(f, b) > 160 {
        return false;
    }
    listing::put::neg_len(f) <= 160
}

// How many bounds and counts twelve words say.
pub fn sizes_of(w: [u64; 12]) -> Sizes
    requires { head_fine w ≡ true }
    ensures { result ≡ sizes_of w }
{
    let b = listing::decode::bounds_of(w);
    let p = listing::decode::point_of(w);
    let f = p.figures;
    Sizes {
        bounds: b.len,
        pos: listing::put::pos_len(f, b),
        neg: listing::put::neg_len(f),
    }
}

// How many words an entry has.
pub fn words_in(z: Sizes) -> usize
    requires { Few z }
    ensures { result ≡ words_in z }
{
    21 + (width_of(z.bounds) + width_of(z.pos + z.neg))
}

// Whether the point of twelve words agrees with itself, its bounds lying from word b on and its counts from word c on.
fn point_agrees(s: &[u8], w: [u64; 12], z: Sizes, b: usize, c: usize) -> bool
    requires { Few z × There s.now b z.bounds × There s.now c (z.pos + z.neg) }
    ensures { result ≡ agrees_alone (stored_in (point_in w) (floats_at s.now b z.bounds) (run s.now c z.pos) (run s.now (c + z.pos) z.neg)) }
{
    let mut own = [0.0f64; 159];
    let mut pos = [0u64; 160];
    let mut neg = [0u64; 160];
    let n = z.bounds;
    let p = z.pos;
    let q = z.neg;
    read_floats(s, b, &mut own[0..n]);
    read_run(s, c, &mut pos[0..p]);
    read_run(s, c + p, &mut neg[0..q]);
    point::agrees_alone(
        listing::decode::point_of(w),
        &own[0..n],
        &pos[0..p],
        &neg[0..q],
    )
}

// The rest of an entry: its filling, and whether its point agrees with itself.
fn rest_holds(s: &[u8], w: [u64; 12], z: Sizes, k: usize) -> bool
    requires { Few z × There s.now k (words_in z) × (z ≡ sizes_of w) }
    ensures { result ≡ rest_holds s.now w k }
{
    let b = k + 21;
    let c = b + width_of(z.bounds);
    let m = z.pos + z.neg;
    if !are_zeros(s, b + z.bounds, width_of(z.bounds) - z.bounds) {
        return false;
    }
    if !are_zeros(s, c + m, width_of(m) - m) {
        return false;
    }
    point_agrees(s, w, z, b, c)
}

// Whether the words from k on, of so many in all, begin with those of an entry that could have been written.
fn entry_holds(s: &[u8], many: usize, k: usize) -> bool
    requires { (many ≡ length (cells s.now)) × (k ≤ many) × (many ≤ 196608) }
    ensures { result ≡ entry_at s.now k }
{
    if many - k < 21 {
        return false;
    }
    let row = row_at(s, k);
    if !sheets::set_rows::row_fine(row) {
        return false;
    }
    let w = head_at(s, k + 9);
    if !head_fine(w) {
        return false;
    }
    let z = sizes_of(w);
    if many - k < words_in(z) {
        return false;
    }
    rest_holds(s, w, z, k)
}

// Whether the set of row b may stand at place i, behind that of row a.
fn may_follow(i: usize, a: &[u64; 9], b: &[u64; 9]) -> bool
    requires { (size a.now ≤ 8) × (size b.now ≤ 8) }
    ensures { result ≡ (eqb i 0 || below (cmp (set_of a.now) (set_of b.now))) }
{
    if i == 0 {
        return true;
    }
    sheets::set_rows::ascends(a, b)
}

// Two together.
pub fn added(y: Sizes, z: Sizes) -> Sizes
    requires { Addable y z }
    ensures { result ≡ more y z }
{
    Sizes {
        bounds: y.bounds + z.bounds,
        pos: y.pos + z.pos,
        neg: y.neg + z.neg,
    }
}

// What the n points of a sheet take together, if its entries are those of points that could have been written, and nothing else follows.
pub fn judge(s: &[u8], n: usize) -> Option<Sizes>
    requires { (framed s.now ≡ true) × (n ≡ points_in s.now) }
    ensures { result ≡ judged s.now }
{
    let many = s.len() / 32 * 3;
    let mut all = Sizes {
        bounds: 0,
        pos: 0,
        neg: 0,
    };
    let mut last = [0u64; 9];
    let mut k: usize = 3;
    for i in 0..n {
        if !entry_holds(s, many, k) {
            return None;
        }
        let row = row_at(s, k);
        if !may_follow(i, &last, &row) {
            return None;
        }
        let z = sizes_of(head_at(s, k + 9));
        all = added(all, z);
        k += words_in(z);
        last = row;
    }
    if k < many {
        return None;
    }
    Some(all)
}

// Whether stores of so many have room for n points that take so much.
pub fn fits(
    n: usize,
    z: Sizes,
    sets: usize,
    words: usize,
    pos: usize,
    neg: usize,
    bounds: usize,
) -> bool
    ensures { result ≡ room_for n z.pos z.neg z.bounds sets words pos neg bounds }
{
    if sets < n {
        return false;
    }
    if words < n {
        return false;
    }
    if pos < z.pos {
        return false;
    }
    if neg < z.neg {
        return false;
    }
    z.bounds <= bounds
}
