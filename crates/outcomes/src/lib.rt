// What every outcome of the definition of the E-AC-3 frame keeps to, and how many records suffice. It has no code: the proofs stand in proofs/, what they show in specs/.
#![tactic(auto)]
