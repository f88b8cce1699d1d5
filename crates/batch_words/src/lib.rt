// What a call with many values hands to programs in other languages: specs/ holds it, and no code.
#![tactic(auto)]
