// The numbers that a histogram is of, f64 and i64: the lesser and the greater of two, and what follows of extremes for either.
#![tactic(auto)]

ghost use Rattle.std.specs.Prelude.{◌≡◌};
ghost use Rattle.floats.specs.Answers as F;
ghost use Rattle.integers.specs.Answers as I;
ghost use Rattle.floats.specs.Answers.{shown_of, either_by};

// A number that can be recorded: an f64, or an i64.
pub trait Number: Copy {
    ghost lesser: { Self → Self → Self };

    ghost greater: { Self → Self → Self };

    // The lesser of two, the first where they compare equal: a zero held first stays.
    fn lesser(self, v: Self) -> Self
        ensures { result ≡ lesser self v };

    // The greater of two, the first where they compare equal: a zero held first stays.
    fn greater(self, v: Self) -> Self
        ensures { result ≡ greater self v };
}

impl Number for f64 {
    ghost lesser = { F.lesser_of };

    ghost greater = { F.greater_of };

    fn lesser(self, v: f64) -> f64 {
        if v < self { v } else { self }
    }

    fn greater(self, v: f64) -> f64 {
        if self < v { v } else { self }
    }
}

impl Number for i64 {
    ghost lesser = { I.lesser_of };

    ghost greater = { I.greater_of };

    fn lesser(self, other: i64) -> i64 {
        if other < self { other } else { self }
    }

    fn greater(self, other: i64) -> i64 {
        if self < other { other } else { self }
    }
}

// An extreme as it is handed out: the number held, or none with the switch off or nothing counted.
pub fn shown<N: Number>(switch: bool, count: u64, x: N) -> Option<N>
    ensures { result ≡ shown_of switch count x }
{
    if floats::shows_extremes(switch, count) {
        return Some(x);
    }
    None
}

// The smaller of two minima, the first where they compare equal; one that is there wins over none.
pub fn smaller<N: Number>(low: Option<N>, other: Option<N>) -> Option<N>
    ensures { result ≡ either_by N.lesser low other }
{
    match (low, other) {
        (None, _) => other,
        (_, None) => low,
        (Some(x), Some(y)) => Some(x.lesser(y)),
    }
}

// The larger of two maxima, the first where they compare equal; one that is there wins over none.
pub fn larger<N: Number>(high: Option<N>, other: Option<N>) -> Option<N>
    ensures { result ≡ either_by N.greater high other }
{
    match (high, other) {
        (None, _) => other,
        (_, None) => high,
        (Some(x), Some(y)) => Some(x.greater(y)),
    }
}
