// The program's stores beside the gauge's, and how it stands between two lines.
ghost use Rattle.std.specs.Prelude.{◌≡◌};
ghost use Rattle.gauge_lines.specs.Followed.{unstarted};
ghost use Rattle.sheet.specs.Followed.{outside_of};

use gauge_lines::cells::Gauge;

// A list of 64 points, which collections fill and sheets are read into: 160 counts of either sign and 159 bounds a point.
pub type ListedSets = [[u64; 9]; 64];

pub type ListedWords = [[u64; 12]; 64];

pub type ListedCounts = [u64; 10240];

pub type ListedBounds = [f64; 10176];

// The bytes of a sheet: 7,297 records.
pub type Bytes = [u8; 233504];

// The gauge, and a sheet that is being read: how many of its records are still to come, none outside a sheet, and how many bytes are there.
#[derive(Clone, Copy)]
pub struct State {
    pub gauge: Gauge,
    pub left: usize,
    pub at: usize,
}

// How the program stands after a line that was followed, and how much text there is then.
#[derive(Clone, Copy)]
pub struct Next {
    pub state: State,
    pub text: usize,
}

// What came of a line: whether it was followed, how the program stands, and how much text there is then.
#[derive(Clone, Copy)]
pub struct Done {
    pub taken: bool,
    pub state: State,
    pub text: usize,
}

// Outside a sheet.
pub fn outside(gauge: Gauge) -> State
    ensures { result ≡ outside_of gauge }
{
    State {
        gauge,
        left: 0,
        at: 0,
    }
}

// Before any line.
pub fn first() -> State
    ensures { result ≡ outside_of unstarted }
{
    outside(gauge_lines::cells::idle())
}

// After a line that was followed, and behind which the program stands outside a sheet.
pub fn ended(gauge: Gauge, text: usize) -> Next
    ensures { result ≡ record { state = outside_of gauge; text = text } }
{
    Next {
        state: outside(gauge),
        text,
    }
}
