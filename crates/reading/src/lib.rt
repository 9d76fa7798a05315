// The language of definitions. It has no code: its trees, their runs and the common-reading theorem stand in specs/ and proofs/.
#![tactic(auto)]
