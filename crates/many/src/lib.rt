// What recording many values in one call says. The definitions and laws of such calls, for any kind, are in specs/ and proofs/.
#![tactic(auto)]

use refusals::Refusal;

// How many values were taken, and how it ended: with what refused the next one, if one was refused.
#[derive(Clone, Copy)]
pub struct Taken {
    pub taken: usize,
    pub end: Result<(), Refusal>,
}
