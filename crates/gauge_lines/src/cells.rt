// The program's stores: 32 slots, for a limit of 30, and the empty and the overflow set; 160 counts of either sign a slot. The output has
// as many places, so that no collection is refused for want of room.
ghost use Rattle.std.specs.Prelude.{◌≡◌};
ghost use Rattle.gauge_lines.specs.Followed.{unstarted, running_with};

use clock::Clock;
use directory::Directory;
use exponential_collection::Settings;

pub type Sets = [[u64; 9]; 32];

pub type Entries = [[u64; 3]; 32];

pub type Order = [u32; 32];

pub type Figures = [[u64; 8]; 32];

pub type Extremes = [[f64; 3]; 32];

pub type Counts = [u64; 5120];

pub type Words = [[u64; 12]; 32];

// The greatest limit that the stores have slots for.
pub const MOST_LIMIT: u64 = 30;

// What is running: whether a map was configured, its settings, the directory's state, the clock.
#[derive(Clone, Copy)]
pub struct Gauge {
    pub running: bool,
    pub settings: Settings,
    pub dir: Directory,
    pub clock: Clock,
}

// Before any line.
pub fn idle() -> Gauge
    ensures { result ≡ unstarted }
{
    Gauge {
        running: false,
        settings: Settings {
            size: 0,
            top: 0,
            extremes: false,
            sums: false,
            limit: 0,
        },
        dir: Directory {
            used: 0,
            count: 0,
            last: 0,
        },
        clock: Clock { start: 0 },
    }
}

// The gauge after a call that left the directory so.
pub fn with(g: Gauge, dir: Directory) -> Gauge
    ensures { result ≡ running_with g dir }
{
    Gauge {
        running: true,
        dir,
        ..g
    }
}
