// The merge of points in code is that of the histogram kinds, and any grouping of merges gives the same: proofs/ hold it, and no code.
#![tactic(auto)]
