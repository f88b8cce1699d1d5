// The shift sheet (docs/SHEET.md): a header and collected points as bytes. What writing and reading share.
#![tactic(auto)]

pub mod set_rows;

// Start, time and temporality.
#[derive(Clone, Copy)]
pub struct Header {
    pub start: u64,
    pub time: u64,
    pub delta: bool,
}
