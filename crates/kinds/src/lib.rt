// The histogram kinds of document 01 as a kind of series, and demand 3 for them: specs/ and proofs/ hold them, and no code.
#![tactic(auto)]
