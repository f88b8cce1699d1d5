// Refusals: the error of every call, with document 01's number and sentence for each.
#![tactic(auto)]

ghost use Rattle.std.specs.Prelude.{◌≡◌, ◌<◌, ◌≤◌};
ghost use Rattle.refusals.specs.Refusals.{number, code};

use std::error::Error;
use std::fmt;

// Why a call changed nothing.
#[derive(Clone, Copy, Debug, PartialEq, Eq, Hash)]
pub enum Refusal {
    MaxSize,
    MaxScale,
    Bounds,
    Limit,
    Attributes,
    NotFinite,
    NoHandle,
    Disagrees,
    Full,
    NoRoom,
    Unlike,
    LentShort,
    NoValues,
    OffGrid,
    NotASheet,
    SumOutside,
}

impl Refusal {
    // Document 01's number.
    pub fn number(self) -> u8
        ensures { result ≡ number self }
    {
        match self {
            Refusal::MaxSize => 1,
            Refusal::MaxScale => 2,
            Refusal::Bounds => 3,
            Refusal::Limit => 4,
            Refusal::Attributes => 5,
            Refusal::NotFinite => 6,
            Refusal::NoHandle => 7,
            Refusal::Disagrees => 8,
            Refusal::Full => 9,
            Refusal::NoRoom => 10,
            Refusal::Unlike => 11,
            Refusal::LentShort => 12,
            Refusal::NoValues => 13,
            Refusal::OffGrid => 14,
            Refusal::NotASheet => 15,
            Refusal::SumOutside => 16,
        }
    }

    // The refusal that has a number.
    pub fn numbered(no: u8) -> Refusal
        requires { (0 < no) × (no ≤ 16) }
        ensures { number result ≡ no }
    {
        match no {
            1 => Refusal::MaxSize,
            2 => Refusal::MaxScale,
            3 => Refusal::Bounds,
            4 => Refusal::Limit,
            5 => Refusal::Attributes,
            6 => Refusal::NotFinite,
            7 => Refusal::NoHandle,
            8 => Refusal::Disagrees,
            9 => Refusal::Full,
            10 => Refusal::NoRoom,
            11 => Refusal::Unlike,
            12 => Refusal::LentShort,
            13 => Refusal::NoValues,
            14 => Refusal::OffGrid,
            15 => Refusal::NotASheet,
            _ => Refusal::SumOutside,
        }
    }
}

impl From<Refusal> for u8 {
    ghost from_gives = { λ e n. n ≡ number e };

    fn from(e: Refusal) -> u8 {
        e.number()
    }
}

impl fmt::Display for Refusal {
    fn fmt<W: fmt::Write>(&self, f: &mut fmt::Formatter<W>) -> fmt::Result {
        f.write_str(match self {
            Refusal::MaxSize => "max_size outside 3 to 160",
            Refusal::MaxScale => "max_scale outside -10 to 10",
            Refusal::Bounds => "over 159 bounds, a NaN, or not strictly rising",
            Refusal::Limit => "cardinality limit over 62, or filter over 16 keys",
            Refusal::Attributes => "over 8 attributes",
            Refusal::NotFinite => "value NaN or infinite",
            Refusal::NoHandle => "handle names no entry, or one without bindings",
            Refusal::Disagrees => "directory or touched series disagrees with itself",
            Refusal::Full => "a count, binding count or birth number would pass 2^64 - 1",
            Refusal::NoRoom => "lent output too short for all points or counts",
            Refusal::Unlike => "points of different kind, bounds, or min/max switch",
            Refusal::LentShort => "a lent store too short for the limit",
            Refusal::NoValues => "no values to take a mean of",
            Refusal::OffGrid => "sum no whole number of 1/1024, or its magnitude above 2^43",
            Refusal::NotASheet => "no sheet that the writer could have written",
            Refusal::SumOutside => "the sum would leave i64",
        })
    }
}

impl Error for Refusal {}

// The number of an answer, 0 where nothing was refused.
pub fn code(answer: Result<(), Refusal>) -> u8
    ensures { result ≡ code answer }
{
    match answer {
        Ok(_) => 0,
        Err(e) => e.number(),
    }
}
