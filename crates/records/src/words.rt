// Words of 64 bits as eight bytes, the low byte first.
ghost use Rattle.std.specs.Prelude.{◌≡◌, ◌+◌, ◌*◌, ◌≤◌, ◌<◌, length};
ghost use Rattle.std.proofs.lemmas.List.Edits.{sets};
ghost use Rattle.records.specs.Words.{bytes2, bytes4, two_at, four_at, word_at};
ghost use Rattle.records.specs.Inner.{AllBytes, put_word};

fn wide(x: u8) -> u64
    ensures { (result ≡ x) × (result < 256) }
{
    x as u64
}

// Lent bytes are bytes: of each one that is read the logic knows that it is below 2^8. When compiled nothing is left of the loop.
pub fn know_bytes(s: &[u8])
    ensures { AllBytes s.now }
{
    for x in s {
        wide(*x);
    }
}

fn two_at(s: &[u8], i: usize) -> u64
    requires { i + 2 ≤ length s.now }
    ensures { (result ≡ two_at s.now i) × (result < 65536) }
{
    wide(s[i]) + 256 * wide(s[i + 1])
}

fn four_at(s: &[u8], i: usize) -> u64
    requires { i + 4 ≤ length s.now }
    ensures { (result ≡ four_at s.now i) × (result < 4294967296) }
{
    two_at(s, i) + 65536 * two_at(s, i + 2)
}

// The word from place i on.
pub fn word_at(s: &[u8], i: usize) -> u64
    requires { i + 8 ≤ length s.now }
    ensures { result ≡ word_at s.now i }
{
    four_at(s, i) + 4294967296 * four_at(s, i + 4)
}

fn put_two(s: &mut [u8], i: usize, x: u64)
    requires i_in_bounds { i + 2 ≤ length s.old }
    requires x_bound { x < 65536 }
    ensures { s.new ≡ sets s.old i (bytes2 x) }
{
    s[i] = (x % 256) as u8;
    s[i + 1] = (x / 256) as u8;
}

fn put_four(s: &mut [u8], i: usize, x: u64)
    requires i_in_bounds { i + 4 ≤ length s.old }
    requires x_bound { x < 4294967296 }
    ensures { s.new ≡ sets s.old i (bytes4 x) }
{
    put_two(s, i, x % 65536);
    put_two(s, i + 2, x / 65536);
}

// A word written from place i on.
pub fn put_word(s: &mut [u8], i: usize, x: u64)
    requires { i + 8 ≤ length s.old }
    ensures { s.new ≡ put_word i x s.old }
{
    put_four(s, i, x % 4294967296);
    put_four(s, i + 4, x / 4294967296);
}
