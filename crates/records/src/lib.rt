// Words of 64 bits in linked records of 32 bytes (docs/SHEET.md): written one after another, read, and their links tested.
#![tactic(auto)]

pub mod chain;
pub mod words;
