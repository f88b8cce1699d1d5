// Words in linked records: a link, then three words.
ghost use Rattle.std.specs.Prelude.{◌≡◌, ◌+◌, ◌*◌, ◌/◌, ◌≤◌, ◌<◌, length, replicate};
ghost use Rattle.sets.specs.All.{allb};
ghost use Rattle.records.specs.Records.{width};
ghost use Rattle.records.specs.Inner.{link_of, place_of, emitted, cell_at, laid, Room, run, link_holds, zero_at};

// The first word of record r of n.
pub fn link_of(info: u64, n: usize, r: usize) -> u64
    requires { (info < 4294967296) × (r < 4294967295) }
    ensures { result ≡ link_of info n r }
{
    if r == 0 {
        if n == 1 {
            return info * 4294967296;
        }
        return info * 4294967296 + 1;
    }
    if r + 1 == n {
        return 0;
    }
    r as u64 + 1
}

fn place_of(k: usize) -> usize
    requires { k < 4294967296 }
    ensures { result ≡ place_of k }
{
    k / 3 * 32 + 8 + k % 3 * 8
}

// The word k.
pub fn cell(s: &[u8], k: usize) -> u64
    requires { (k < 4294967296) × (place_of k + 8 ≤ length s.now) }
    ensures { result ≡ cell_at s.now k }
{
    crate::words::word_at(s, place_of(k))
}

// The word k written, with the link before it where it is a record's first.
pub fn emit(s: &mut [u8], info: u64, n: usize, k: usize, x: u64)
    requires { (info < 4294967296) × (k < 4294967295) × (place_of k + 8 ≤ length s.old) }
    ensures { s.new ≡ emitted info n k x s.old }
{
    if k % 3 == 0 {
        let link = link_of(info, n, k / 3);
        crate::words::put_word(s, k / 3 * 32, link);
        crate::words::put_word(s, place_of(k), x);
        return;
    }
    crate::words::put_word(s, place_of(k), x);
}

// A run of words from k on.
pub fn emit_run(s: &mut [u8], info: u64, n: usize, k: usize, xs: &[u64])
    requires room { Room info n s.old }
    requires xs_bound { k + length xs.now ≤ n * 3 }
    ensures { s.new ≡ laid info n k xs.now s.old }
{
    for (i, x) in xs.iter().enumerate() {
        emit(s, info, n, k + i, *x);
    }
}

// m zeros from word k on.
pub fn emit_zeros(s: &mut [u8], info: u64, n: usize, k: usize, m: usize)
    requires room { Room info n s.old }
    requires m_bound { k + m ≤ n * 3 }
    ensures { s.new ≡ laid info n k (replicate m 0) s.old }
{
    for i in 0..m {
        emit(s, info, n, k + i, 0);
    }
}

// The words from k on, as many as the lent part has.
pub fn read_run(s: &[u8], k: usize, out: &mut [u64])
    requires { (k + length out.old < 4294967296) × ((k + length out.old + 2) / 3 * 32 ≤ length s.now) }
    ensures { out.new ≡ run s.now k (length out.old) }
{
    for (i, x) in out.iter_mut().enumerate() {
        *x = cell(s, k + i);
    }
}

// Whether m words from k on are zeros.
pub fn are_zeros(s: &[u8], k: usize, m: usize) -> bool
    requires { (k + m < 4294967296) × ((k + m + 2) / 3 * 32 ≤ length s.now) }
    ensures { result ≡ allb m (zero_at s.now k) }
{
    for i in 0..m {
        if cell(s, k + i) != 0 {
            return false;
        }
    }
    true
}

// Whether the links of n records are right.
pub fn links_hold(s: &[u8], info: u64, n: usize) -> bool
    requires { Room info n s.now }
    ensures { result ≡ allb n (link_holds info n s.now) }
{
    for r in 0..n {
        if crate::words::word_at(s, r * 32) != link_of(info, n, r) {
            return false;
        }
    }
    true
}

// How many words n words are in whole records.
pub fn width_of(n: usize) -> usize
    requires { n < 4294967296 }
    ensures { result ≡ width n }
{
    (n + 2) / 3 * 3
}
