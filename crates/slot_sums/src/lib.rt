// That the bits of a block's slots add up to the width of its mantissas record, and that a slot that is not in use, or was read before, has none. It has no code: the proofs
// stand in proofs/, what they speak of in specs/.
#![tactic(auto)]
