// The tally of what is kept of the last allocation of each slot (crate `kept`).
ghost use Rattle.std.specs.Prelude.{◌≡◌, ◌+◌, ◌-◌, ◌*◌, ◌%◌, ◌/◌, ◌<◌, ◌≤◌, eqb};
ghost use Rattle.mantissas.specs.Tally.{tally_of};
ghost use Rattle.allocation.specs.Memo.{Tallies};

use mantissas::tally::{Tally, fields, tallied};

// Whether a word says this range, of a slot that is not stale.
fn ranged(own: u64, start: u16, end: u16) -> bool
    ensures { result ≡ eqb (own / 65536 % 16777216) (start + 65536 * end) }
{
    own / 65536 % 16777216 == u64::from(start) + 65536 * u64::from(end)
}

// The tally of the bins `start` to `end` - 1 of a slot: the one that is kept, or else it is counted.
pub fn tally_at(memo: &[u64; 42], baps: &[u8; 1792], slot: u8, start: u16, end: u16) -> Tally
    requires { (Tallies memo.now baps.now) × (slot < 7) × (end ≤ 253) }
    ensures { result ≡ tally_of baps.now slot start (end - start) }
{
    let k = 6 * slot as usize;
    let own = memo[k];
    if own != 0 && ranged(own, start, end) {
        return fields(memo[k + 5]);
    }
    tallied(baps, slot, start, end)
}
