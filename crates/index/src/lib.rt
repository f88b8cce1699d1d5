// The exact bucket index of an f64: `frexp` and `get_bin` of exponential_histogram.rs.
#![tactic(auto)]

mod guess;
mod pieces;
mod rank;
pub mod signed;

ghost use Rattle.std.specs.Prelude.{◌≡◌, ◌+◌, ◌*◌, ◌^◌, ◌≤◌, ◌<◌};
ghost use Rattle.index.specs.Answers.{bin_of};
ghost use Rattle.index.specs.Inner.{bin_or_zero};
ghost use Rattle.index.specs.Bins.{finest, finest_bin, bin_at, lowest_bin, end_bin};
ghost use Rattle.index.specs.Frexp.{PartsOf};

// The greatest level, that of scale 10.
pub const FINEST: u32 = 20;

// An f64 taken apart: a mantissa of 53 binary digits, and the exponent of two, plus 2048, that it is multiplied by.
#[derive(Clone, Copy)]
pub enum Parts {
    NotFinite,
    Zero,
    Number {
        negative: bool,
        mantissa: u64,
        exponent: u64,
    },
}

// What an f64 has at a level: no such level, not a finite number, zero, or a bin.
#[derive(Clone, Copy)]
pub enum Bin {
    NoLevel,
    NotFinite,
    Zero,
    At { negative: bool, bin: u32 },
}

// The sign, mantissa of 53 digits and exponent of x, or that it is zero or not finite. By the bit pattern: a subnormal is brought up by its
// leading zeros.
pub fn frexp(x: f64) -> Parts
    ensures { PartsOf x result }
{
    if x != x {
        return Parts::NotFinite;
    }
    let bits = f64::to_bits(x);
    let negative = bits >= 0x8000_0000_0000_0000;
    let field = bits / 0x10_0000_0000_0000 % 2048;
    let digits = bits % 0x10_0000_0000_0000;
    if field == 2047 {
        return Parts::NotFinite;
    }
    if field == 0 {
        if digits == 0 {
            return Parts::Zero;
        }
        let up = u64::leading_zeros(digits) - 11;
        let mantissa = digits << up;
        let exponent = 974 - wide(up);
        return Parts::Number {
            negative,
            mantissa,
            exponent,
        };
    }
    let mantissa = digits + 0x10_0000_0000_0000;
    let exponent = field + 973;
    Parts::Number {
        negative,
        mantissa,
        exponent,
    }
}

fn wide(x: u32) -> u64
    ensures { result ≡ x }
{
    x as u64
}

// The bin at the finest level of mantissa * 2^exponent units of 2^-2048.
fn finest_bin(mantissa: u64, exponent: u64) -> u32
    requires { (2 ^ 52 ≤ mantissa) × (mantissa < 2 ^ 53) × (922 ≤ exponent) × (exponent ≤ 3019) }
    ensures { result ≡ finest_bin (mantissa * 2 ^ exponent) }
{
    ((exponent + 52) * 1024 + rank::rank(mantissa) - 1) as u32
}

// The bin at scale 0, which the exponent tells: a power of two is the upper bound of the bucket below.
fn whole_bin(mantissa: u64, exponent: u64) -> u32
    requires { (2 ^ 52 ≤ mantissa) × (mantissa < 2 ^ 53) × (922 ≤ exponent) × (exponent ≤ 3019) }
    ensures { result ≡ bin_at 10 (mantissa * 2 ^ exponent) }
{
    if mantissa == 0x10_0000_0000_0000 {
        return (exponent + 51) as u32;
    }
    (exponent + 52) as u32
}

// The bin at a level: the table is read for scales above 0 only.
fn bin_from(mantissa: u64, exponent: u64, level: u32) -> u32
    requires { (2 ^ 52 ≤ mantissa) × (mantissa < 2 ^ 53) × (922 ≤ exponent) × (exponent ≤ 3019) × (level ≤ finest) }
    ensures { result ≡ bin_at level (mantissa * 2 ^ exponent) }
{
    if level <= 10 {
        return whole_bin(mantissa, exponent) >> (10 - level);
    }
    finest_bin(mantissa, exponent) >> (FINEST - level)
}

// The sign of v and its bin at a level; NoLevel above the finest, NotFinite, Zero.
pub fn get_bin(v: f64, level: u32) -> Bin
    ensures { result ≡ bin_of v level }
{
    if FINEST < level {
        return Bin::NoLevel;
    }
    let parts = frexp(v);
    match parts {
        Parts::NotFinite => Bin::NotFinite,
        Parts::Zero => Bin::Zero,
        Parts::Number {
            negative,
            mantissa,
            exponent,
        } => {
            let bin = bin_from(mantissa, exponent, level);
            Bin::At { negative, bin }
        }
    }
}

// The bin of 2^-1074 at the finest level.
const LOWEST: u32 = 997375;

// The bins of a level run from this one ..
pub fn lowest_bin(level: u32) -> u32
    requires { level ≤ finest }
    ensures { result ≡ lowest_bin level }
{
    LOWEST >> (FINEST - level)
}

// .. to the one before this.
pub fn end_bin(level: u32) -> u64
    requires { level ≤ finest }
    ensures { result ≡ end_bin level }
{
    3u64 << level
}

// For programs in other languages, by index_c: the bin of v at a level, 0 where there is none (no f64 has the bin 0 at a level above 0).
pub fn index_bin(v: f64, level: u32) -> u32
    ensures { result ≡ bin_or_zero (bin_of v level) }
{
    let found = get_bin(v, level);
    match found {
        Bin::NoLevel => 0,
        Bin::NotFinite => 0,
        Bin::Zero => 0,
        Bin::At { negative: _, bin } => bin,
    }
}
