// The positions of a capture that a search tries.
#![tactic(auto)]

ghost use Rattle.std.specs.Prelude.{◌≡◌, cond, ◌+◌, ◌-◌, ◌*◌, ◌≤◌, min, eqb, leb, ltb, length};
ghost use Rattle.positions.specs.Passes.{Passes};
ghost use Rattle.refusals.specs.declared.Refusal.TheVariants.{NoPositionLeft, AllowanceUsedUp};

use refusals::Refusal;

// How many positions from a start on lie before an end, at most so many.
pub fn positions(start: usize, end: usize, most: usize) -> usize
    ensures { result ≡ min most (end - start) }
{
    most.min(end.saturating_sub(start))
}

// Whether two bytes are the sync word.
fn sync_word(a: u8, b: u8) -> bool
    ensures { result ≡ eqb (a * 256 + b) 0x0B77 }
{
    a == 0x0B && b == 0x77
}

// The first position with the sync word, from one to a last one; the last one if there is none.
pub fn candidate(capture: &[u8], from: usize, last: usize) -> usize
    requires { (from ≤ last) × (last + 6 ≤ length capture.now) }
    ensures { Passes capture.now from last result }
{
    for p in from..last {
        if sync_word(capture[p], capture[p + 1]) {
            return p;
        }
    }
    last
}

// How far the sync word is looked for: where there is no room for a record, the reading at the first position ends the search.
pub fn furthest(room: usize, from: usize, last: usize) -> usize
    requires { from ≤ last }
    ensures { (from ≤ result) × (result ≤ last) × (room ≡ 0 → result ≡ from) }
{
    if room == 0 { from } else { last }
}

// No position is left where as many are allowed as there are; else the allowance is used up.
pub fn none_left(left: usize, most: usize) -> Refusal
    ensures { result ≡ cond (leb left most) NoPositionLeft AllowanceUsedUp }
{
    if left <= most {
        Refusal::NoPositionLeft
    } else {
        Refusal::AllowanceUsedUp
    }
}

// How many records the last of some readings has: none where it is one of those behind the first `whole`.
pub fn last_count(whole: usize, tries: usize, count: usize) -> usize
    ensures { result ≡ cond (ltb whole tries) 0 count }
{
    if whole < tries { 0 } else { count }
}
