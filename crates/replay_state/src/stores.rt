// The stores of a script.
//
// A store of the map has places for a limit of 64, two more than any call takes: so a damaged limit is refused for itself.

pub type Sets = [[u64; 9]; 66];

pub type Entries = [[u64; 3]; 66];

pub type Order = [u32; 66];

pub type Figures = [[u64; 8]; 66];

pub type Extremes = [[f64; 3]; 66];

pub type Wholes = [[i64; 3]; 66];

pub type Counts = [u64; 10560];

// Negative counts, and behind them the totals of the explicit kind, which has no negative counts.
pub type Others = [u64; 10626];

// The output: a collection may have the first 66 places and 10560 counts, one of sums or last values the bits of its points in the first 66
// positive counts; behind them each of the eight kept points has a place and 160 counts of either sign.
pub type ListedSets = [[u64; 9]; 74];

pub type ListedWords = [[u64; 12]; 74];

pub type ListedCounts = [u64; 11840];

// Parts of 200 bounds: those that wait, the configured ones, those of the last collection, and those of each kept point; behind them the
// values of a map of sums or last values, which has no bounds.
pub type Bounds = [f64; 2266];
