// Names that steer nothing, of every format. It has no code: what holds is said in specs/ and shown in proofs/.
#![tactic(auto)]
