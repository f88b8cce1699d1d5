// The worked examples of document 01 that are proved: specs/ has the table, proofs/ the proof over it, and there is no code.
#![tactic(auto)]
