// Lines with many values (`R`, `H`): the calls of each kind over i64 that they make (docs/REPLAY.md). Crate replay_batches has what they share
// with those over f64.
#![tactic(auto)]

pub mod explicit_lines;
pub mod exponential_lines;
