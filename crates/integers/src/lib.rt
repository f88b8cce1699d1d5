// i64 as histograms use it: the nearest f64, a sum that may leave the range, bits.
#![tactic(auto)]

ghost use Rattle.std.specs.Prelude.{◌≡◌, ◌^◌, ◌<◌, true};
ghost use Rattle.std.specs.Int.Signed.{mag};
ghost use Rattle.integers.specs.Answers.{between, nearest_of, sum_of, kept_sum, last_number, bits_of, of_bits};

// Whether low <= n < end.
fn is_between(low: i64, n: i64, end: i64) -> bool
    ensures { result ≡ between low n end }
{
    if n < low {
        return false;
    }
    n < end
}

// The f64 nearest to n, ties to the even mantissa (the law `nearest-is`). Below 2^53 each is an f64, and one instruction makes it.
pub fn nearest(n: i64) -> f64
    ensures { result ≡ nearest_of n }
{
    if is_between(-9007199254740992, n, 9007199254740992) {
        return n as f64;
    }
    std::num::nearest_i64_to_f64(n)
}

// Whether both lie in the middle half of i64, where no sum leaves it.
fn are_middling(a: i64, v: i64) -> bool
    ensures { result ≡ true → (mag a < 2 ^ 62) × (mag v < 2 ^ 62) }
{
    if is_between(-4611686018427387904, a, 4611686018427387904) {
        return is_between(-4611686018427387904, v, 4611686018427387904);
    }
    false
}

// a + v, if that is an i64: asked of the ends.
fn end_sum(a: i64, v: i64) -> Option<i64>
    ensures { result ≡ sum_of a v }
{
    if v < 0 {
        if a < -9223372036854775808 - v {
            return None;
        }
        return Some(a + v);
    }
    if 9223372036854775807 - v < a {
        return None;
    }
    Some(a + v)
}

// a + v, if that is an i64. Most are middling: the ends, whose test reads the sign of v, are asked last.
pub fn sum(a: i64, v: i64) -> Option<i64>
    ensures { result ≡ sum_of a v }
{
    if are_middling(a, v) {
        return Some(a + v);
    }
    end_sum(a, v)
}

// The sum with a value more; with the sum off none is kept.
pub fn kept_sum(on: bool, held: i64, v: i64) -> Option<i64>
    ensures { result ≡ kept_sum on held v }
{
    if on {
        return sum(held, v);
    }
    Some(held)
}

// The number of a value or a merge that the sum can't take: 16, unless another comes first.
pub fn last_number(no: u8) -> u8
    ensures { result ≡ last_number no }
{
    if no != 0 {
        return no;
    }
    16
}

// The 64 bits of x, two's complement.
pub fn bits_of(x: i64) -> u64
    ensures { result ≡ bits_of x }
{
    if x < 0 {
        return 0xFFFF_FFFF_FFFF_FFFF - ((-1 - x) as u64);
    }
    x as u64
}

// The i64 of 64 bits.
pub fn of_bits(bits: u64) -> i64
    ensures { result ≡ of_bits bits }
{
    if bits < 0x8000_0000_0000_0000 {
        return bits as i64;
    }
    -1 - ((0xFFFF_FFFF_FFFF_FFFF - bits) as i64)
}
