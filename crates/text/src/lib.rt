// Lines of text: their fields, the numbers that fields spell, and bits as digits. What the programs share.
//
// One space parts fields. Decimals have no plus sign, no leading zero and no -0; bits are 16 digits 0-9 and A-F.
#![tactic(auto)]

mod fields;
mod numbers;
mod written;

pub use fields::{Part, bits_at, byte_at, decimal_at, end, field, signed_at, spaces};
pub use numbers::{Integer, bits, decimal, digit, ill_led};
pub use written::hex_digits;
