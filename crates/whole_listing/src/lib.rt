// Points of i64 values in a list of points in lent output (docs/LIST.md): crate `listing`'s list, in which a point's twelve words tell that its
// numbers are i64s. Counts, sets, cursors and bounds are as those of an f64 point.
#![tactic(auto)]

pub mod decode;
pub mod encode;
pub mod put;
pub mod read;

use listing::{Cursor, Span};
use whole_point::Point;

// A point of the list, where its bounds lie, and the cursor of the point behind it.
#[derive(Clone, Copy)]
pub struct Entry {
    pub point: Point,
    pub bounds: Span,
    pub next: Cursor,
}
