// A set of attributes in a row of nine words: how two sets lie to each other, whether one is sound, and the row of a call's attributes.
#![tactic(auto)]

pub mod canon;
pub mod set_row;

// The overflow set's attribute, key 4294967295 with value 1, and its row.
pub const OVERFLOW: u64 = 18446744069414584321;

pub const OVERFLOW_ROW: [u64; 9] = [OVERFLOW, 0, 0, 0, 0, 0, 0, 0, 1];
