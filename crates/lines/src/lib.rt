// What the programs that follow lines of calls share: lines read from blocks of the input, text written in blocks, sets of attributes.
//
// A line has at most 255 bytes; its newline isn't counted and may be missing at the input's end. Any bytes may come.
#![tactic(auto)]

pub mod attributes;
pub mod input;
pub mod output;

// What is read, and what is written, at once.
pub type Block = [u8; 65536];

// A line and one byte more: a line that fills it is too long.
pub type Line = [u8; 256];
