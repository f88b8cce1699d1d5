// The page of promises: every theorem about the code, stated in specs/ beside the demand's sentence and proved in proofs/. No code.
#![tactic(auto)]
