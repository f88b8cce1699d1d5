// Numbers as they are spelled.
ghost use Rattle.std.specs.Prelude.{◌≡◌, ◌<◌, true, false, length, nat_lt};
ghost use Rattle.laws.specs.Pick.{pick};
ghost use Rattle.text.specs.Numbers.{digit_of, spelled_from, ill_led, decimal_of, bits_of, has_minus, with_minus, without_minus, signed_of};
ghost use Rattle.text.specs.Pairs.{is_decimal, is_letter, are_hex, pair_of, Paired, joined_to};

// A number with its sign.
#[derive(Clone, Copy, Debug, PartialEq, Eq)]
pub struct Integer {
    pub negative: bool,
    pub size: u64,
}

// The value of a digit 0-9, or none.
pub fn digit(byte: u8) -> Option<u64>
    ensures { result ≡ pick (nat_lt (digit_of byte) 10) (Some (digit_of byte)) None }
{
    match byte {
        b'0'..=b'9' => Some((byte - b'0') as u64),
        _ => None,
    }
}

// The number that decimal digits spell, or none.
fn spelled(bytes: &[u8]) -> Option<u64>
    ensures { result ≡ spelled_from 10 0 bytes.now }
{
    let mut x: u64 = 0;
    for byte in bytes {
        let d = digit(*byte)?;
        x = x.checked_mul(10)?.checked_add(d)?;
    }
    Some(x)
}

// Whether there is no byte, or a zero before others.
pub fn ill_led(bytes: &[u8]) -> bool
    ensures { result ≡ ill_led bytes.now }
{
    let n = bytes.len();
    if n == 0 {
        return true;
    }
    if n == 1 {
        return false;
    }
    bytes[0] == b'0'
}

// A decimal up to 2^64 - 1, or none.
pub fn decimal(bytes: &[u8]) -> Option<u64>
    ensures { result ≡ decimal_of bytes.now }
{
    if ill_led(bytes) {
        return None;
    }
    spelled(bytes)
}

// Whether a byte is a digit 0-9.
fn is_decimal(byte: u8) -> bool
    ensures { result ≡ is_decimal byte }
{
    std::num::wrapping_sub_u8(byte, 48) < 10
}

// Whether a byte is a digit A-F.
fn is_letter(byte: u8) -> bool
    ensures { result ≡ is_letter byte }
{
    std::num::wrapping_sub_u8(byte, 65) < 6
}

// Whether 16 bytes are hexadecimal digits. Both tests are made of each byte and none ends the loop, so that the compiler can make them of all
// bytes at once.
fn are_hex(bytes: &[u8]) -> bool
    requires { length bytes.now ≡ 16 }
    ensures { result ≡ are_hex bytes.now }
{
    let mut all = true;
    for byte in &bytes[..16] {
        all &= is_decimal(*byte) | is_letter(*byte);
    }
    all
}

// The value of a byte that is a hexadecimal digit.
fn value(byte: u8) -> u8
    requires { digit_of byte < 16 }
    ensures { result ≡ digit_of byte }
{
    byte % 16 + 9 * (byte / 64)
}

// Two hexadecimal digits as a byte.
fn pair(a: u8, b: u8) -> u8
    requires { (digit_of a < 16) × (digit_of b < 16) }
    ensures { result ≡ pair_of a b }
{
    value(a) * 16 + value(b)
}

// 16 hexadecimal digits as eight bytes, two digits to a byte. No byte depends on another, so that the compiler can compute all of them at once.
fn pairs(bytes: &[u8]) -> [u8; 8]
    requires { (length bytes.now ≡ 16) × (are_hex bytes.now ≡ true) }
    ensures { Paired bytes.now 8 result }
{
    let mut out = [0u8; 8];
    for i in 0..8 {
        out[i] = pair(bytes[2 * i], bytes[2 * i + 1]);
    }
    out
}

// The number of eight bytes, the most significant first.
fn joined(bytes: [u8; 8]) -> u64
    ensures { result ≡ joined_to 8 bytes }
{
    u64::from_be_bytes(bytes)
}

// The number of 16 hexadecimal digits, or none.
pub fn bits(bytes: &[u8]) -> Option<u64>
    ensures { result ≡ bits_of bytes.now }
{
    if bytes.len() != 16 {
        return None;
    }
    if are_hex(bytes) {
        return Some(joined(pairs(bytes)));
    }
    None
}

fn with_minus(n: Option<u64>) -> Option<Integer>
    ensures { result ≡ with_minus n }
{
    let size = n?;
    if size == 0 {
        return None;
    }
    Some(Integer {
        negative: true,
        size,
    })
}

fn without_minus(n: Option<u64>) -> Option<Integer>
    ensures { result ≡ without_minus n }
{
    let size = n?;
    Some(Integer {
        negative: false,
        size,
    })
}

fn has_minus(bytes: &[u8]) -> bool
    ensures { result ≡ has_minus bytes.now }
{
    if bytes.len() == 0 {
        return false;
    }
    bytes[0] == b'-'
}

// A decimal, or one other than 0 after a minus sign; or none.
pub fn signed(bytes: &[u8]) -> Option<Integer>
    ensures { result ≡ signed_of bytes.now }
{
    if has_minus(bytes) {
        return with_minus(decimal(&bytes[1..]));
    }
    without_minus(decimal(bytes))
}
