// Bounds of the cells wherever the reading of an E-AC-3 frame comes, and the laws by which such facts are shown. It has no code: they stand in proofs/, what they speak of in specs/.
#![tactic(auto)]
