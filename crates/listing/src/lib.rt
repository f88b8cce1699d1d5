// A list of points in lent output (docs/LIST.md): for each point its set's row and twelve words, and its counts packed behind those of
// the points before it. Collections write it, sheets copy it, and one reader reads it.
#![tactic(auto)]

pub mod decode;
pub mod encode;
pub mod put;
pub mod read;

use point::Point;

// Where the bounds of an explicit point lie in a store of bounds beside the list.
#[derive(Clone, Copy)]
pub struct Span {
    pub start: usize,
    pub len: usize,
}

// A point's place among the sets and words, and where its positive and negative counts start.
#[derive(Clone, Copy)]
pub struct Cursor {
    pub place: usize,
    pub pos: usize,
    pub neg: usize,
}

// A point of the list, where its bounds lie, and the cursor of the point behind it.
#[derive(Clone, Copy)]
pub struct Entry {
    pub point: Point,
    pub bounds: Span,
    pub next: Cursor,
}
