// What is kept of the last allocation of each slot: six words. Five say what its pointers were computed from, but for
// the exponents; the last is the tally of the pointers. The first word is 0 where the slot is stale: its exponents are
// not those that its pointers were computed from.
// Stays: words in a row and no struct for each slot, since `Memo` and `Tallies` of allocation's specs/, and the clauses of
// those that lend the memo (allocation, plan, inputs, derivations, walk, frame), speak of single words.
#![tactic(auto)]

ghost use Rattle.std.specs.Prelude.{◌≡◌, ◌&&◌, ◌<◌, length};
ghost use Rattle.kept.specs.Kept.{Kept, Noted, source_at, stale_of};

// What a slot's pointers are computed from, besides its exponents: words of eight bytes.
#[derive(Clone, Copy, PartialEq, Eq, Debug)]
pub struct Source {
    pub own: u64,
    pub common: u64,
    pub offset: u64,
    pub len: u64,
    pub ba: u64,
}

// What a slot is kept with.
fn source_at(memo: &[u64; 42], slot: usize) -> Source
    requires { (length memo.now ≡ 42) × (slot < 7) }
    ensures { result ≡ source_at memo.now slot }
{
    let k = 6 * slot;
    Source {
        own: memo[k],
        common: memo[k + 1],
        offset: memo[k + 2],
        len: memo[k + 3],
        ba: memo[k + 4],
    }
}

// Whether a slot is kept and was computed from this, or is not asked for.
pub fn kept(memo: &[u64; 42], slot: usize, s: Source) -> bool
    requires { (length memo.now ≡ 42) × (slot < 7) }
    ensures { Kept result memo.now slot s }
{
    s.own == 0 || source_at(memo, slot) == s
}

// Keeps it, and the tally.
pub fn note(memo: &mut [u64; 42], slot: usize, s: Source, tally: u64)
    requires { (length memo.old ≡ 42) × (slot < 7) }
    ensures { Noted memo.old memo.new slot s tally }
{
    let k = 6 * slot;
    memo[k..k + 6].copy_from_slice(&[s.own, s.common, s.offset, s.len, s.ba, tally]);
}

// New exponents: the slot is stale, if there is such a slot.
#[tactic(auto, unfolding(crate::specs::Kept::stale_of))]
pub fn stale(memo: &mut [u64; 42], slot: u8)
    requires { length memo.old ≡ 42 }
    ensures { memo.new ≡ stale_of memo.old slot }
{
    if slot < 7 {
        memo[6 * slot as usize] = 0;
    }
}
