// Two numbers of 16 bits in a word of `order`.
ghost use Rattle.std.specs.Prelude.{◌≡◌, ◌+◌, ◌*◌, ◌/◌, ◌%◌, ◌<◌};

// The lower one.
pub fn low(w: u32) -> usize
    ensures { result ≡ w % 65536 }
{
    (w % 65536) as usize
}

// The upper one.
pub fn high(w: u32) -> usize
    ensures { (result ≡ w / 65536) × (result < 65536) }
{
    (w / 65536) as usize
}

// The word of both.
pub fn pack(q: usize, m: usize) -> u32
    requires { (q < 65536) × (m < 65536) }
    ensures { result ≡ q + 65536 * m }
{
    (q + 65536 * m) as u32
}
