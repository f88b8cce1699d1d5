// The map from sets to series: `ValueMap`, `measure` and the handles of internal/mod.rs, a module for each kind of histogram; `first` serves
// every kind, between our own crates.
#![tactic(auto)]

pub mod explicit_map;
pub mod exponential_map;
pub mod first;
