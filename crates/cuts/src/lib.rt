// No modulus and no clamp of the definition acts. It has no code: the proofs stand in proofs/, what they show in specs/.
#![tactic(auto)]
