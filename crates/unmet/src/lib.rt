// Tests of the reference that no input meets. It has no code: the proofs stand in proofs/, what they show in specs/.
#![tactic(auto)]
