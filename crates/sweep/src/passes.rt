// Which slots stay, and the places of these.
ghost use Rattle.std.specs.Prelude.{◌≡◌, not, ◌&&◌, ℕ, ◌+◌, ◌*◌, ◌/◌, ◌%◌, ◌<◌, ◌≤◌, eqb, length, get_or, set};
ghost use Rattle.laws.specs.Over.{over};
ghost use Rattle.laws.specs.Pick.{pick};
ghost use Rattle.tally.specs.Map.{plain, bit};
ghost use Rattle.sets.specs.Rows.{span, set_of};
ghost use Rattle.sweep.specs.Swept.{staying, rank};
ghost use Rattle.sweep.specs.Passes.{mark_of, mark_in, packed, lows, renumbered};

// Whether a slot stays.
fn stays(bindings: u64, updated: u64, row: &[u64; 9]) -> bool
    ensures { result ≡ not (eqb updated 0 && (eqb bindings 0 && plain (set_of row.now))) }
{
    if updated != 0 {
        return true;
    }
    if bindings != 0 {
        return true;
    }
    if row[8] == 0 {
        return true;
    }
    sets::set_row::plain_row(row) == 0
}

// The mark of a slot: r if it stays.
fn mark(stays: bool, r: usize) -> usize
    ensures { result ≡ pick stays r 0 }
{
    if stays { r } else { 0 }
}

// Marks the slots; how many stay.
pub fn rank(used: usize, sets: &[[u64; 9]], entries: &[[u64; 3]], order: &mut [u32]) -> usize
    requires { (used < length sets.now) × (used < length entries.now) × (used ≤ length order.old) × (used < 65536)
        × ((k : ℕ) → k < used → get_or order.old k 0 < 65536) }
    ensures { (result ≡ rank (staying sets.now entries.now) used)
        × (order.new ≡ packed (mark_of (staying sets.now entries.now)) used order.old) }
{
    let mut r: usize = 0;
    for x in 0..used {
        let n = entries[x + 1][1];
        let u = entries[x + 1][2];
        let stays = stays(n, u, &sets[x + 1]);
        r += stays as usize;
        let m = mark(stays, r);
        let q = order[x] as usize;
        order[x] = crate::words::pack(q, m);
    }
    r
}

// Writes the mark of a slot that stays at place w; the next place.
fn put_place(order: &mut [u32], w: usize, m: usize) -> usize
    requires { (w < length order.old) × (m < 65536) }
    ensures { (result ≡ pick (eqb m 0) w (w + 1))
        × (order.new ≡ pick (eqb m 0) order.old (set order.old w (m + 65536 * (get_or order.old w 0 / 65536)))) }
{
    if m == 0 {
        return w;
    }
    let h = crate::words::high(order[w]);
    order[w] = crate::words::pack(m, h);
    w + 1
}

// The places without the slots that go, under the new numbers.
pub fn renumber(used: usize, order: &mut [u32])
    requires { (used ≤ length order.old) × (used < 65536)
        × ((k : ℕ) → k < used → (1 ≤ get_or order.old k 0 % 65536) × (get_or order.old k 0 % 65536 ≤ used))
        × ((x : ℕ) → 1 ≤ x → x ≤ used → mark_in order.old x ≤ used) }
    ensures { order.new ≡ packed (mark_in order.old) used
        (over (renumbered (mark_in order.old) (span (lows used order.old) 0 used)) (lows used order.old)) }
{
    let mut w: usize = 0;
    for i in 0..used {
        let q = crate::words::low(order[i]);
        let m = crate::words::high(order[q - 1]);
        w = put_place(order, w, m);
    }
}

// The places without the marks.
pub fn strip(used: usize, order: &mut [u32])
    requires { used ≤ length order.old }
    ensures { order.new ≡ lows used order.old }
{
    for w in &mut order[..used] {
        *w %= 65536;
    }
}
