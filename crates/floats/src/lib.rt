// f64 as histograms use it: finite or not, whether a point shows its extremes, bits.
#![tactic(auto)]

ghost use Rattle.std.specs.Prelude.{◌≡◌};
ghost use Rattle.std.specs.Float.Ieee.{of_bits};
ghost use Rattle.std.specs.Float.{binary64};
ghost use Rattle.std.specs.Float.Ieee.Scale.{finite};
ghost use Rattle.floats.specs.Answers.{shows, bits_of};

// Whether x is a number: neither infinite nor a NaN.
pub fn is_finite(x: f64) -> bool
    ensures { result ≡ finite x }
{
    x - x == 0.0
}

// Whether a point shows its extremes: with the switch on and a value counted.
pub fn shows_extremes(switch: bool, count: u64) -> bool
    ensures { result ≡ shows switch count }
{
    if switch {
        return count != 0;
    }
    false
}

// The bits of x; those of a NaN are 7FF8000000000000.
pub fn bits_of(x: f64) -> u64
    ensures { result ≡ bits_of x }
{
    if x != x {
        return 0x7ff8_0000_0000_0000;
    }
    f64::to_bits(x)
}

// The f64 of bits. A NaN's bits give a NaN: `f64::from_bits` may not be asked for them.
pub fn of_bits(bits: u64) -> f64
    ensures { result ≡ of_bits binary64 bits }
{
    if 0x7FF0_0000_0000_0000 < bits % 0x8000_0000_0000_0000 {
        return 0.0 / 0.0;
    }
    f64::from_bits(bits)
}
