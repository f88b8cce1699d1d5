// The map over i64: a module for each kind of histogram, as crate `value_map` has them over f64.
#![tactic(auto)]

pub mod explicit_map;
pub mod exponential_map;
