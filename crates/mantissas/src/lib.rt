// Conventional mantissas: how many bits they take, by their pointers (A/52 clause 7.3.5, TS 102 366
// clause 6.3.5). Of the input only the end is asked for.
#![tactic(auto)]

ghost use Rattle.std.specs.Prelude.{◌≡◌, List, ℕ, ◌+◌, ◌-◌, ◌%◌, ◌<◌, ◌≤◌, length, get_or, IfOk};
ghost use Rattle.tables.specs.Small.{bap_bits};
ghost use Rattle.reading.specs.Run.{skim};
ghost use Rattle.mantissas.specs.Mantissas.{opens_of, width_of, counted_of, conventional_of};
ghost use Rattle.mantissas.specs.Tally.{tally_of, spent_of, left_of};
ghost use Rattle.mantissas.specs.Outcomes.{groups_outcome};

use crate::tally::{Tally, opened, tallied, turned};
use bits::{BitPlace, past};
use refusals::{Refusal, Refused};

pub mod tally; // what the pointers of a range come to

// How many mantissas of the group at hand have passed, of the pointers 1, 2 and 4.
#[derive(Clone, Copy)]
pub struct Groups {
    pub g1: u8,
    pub g2: u8,
    pub g4: u8,
}

// Where the mantissas of a range end, and the bits that they took.
#[derive(Clone, Copy)]
pub struct Passed {
    pub place: BitPlace,
    pub bits: u16,
}

// TS 102 366 Table 6.17: the bits of a mantissa that stands alone.
fn alone(bap: u8) -> u16
    ensures { result ≡ get_or bap_bits bap 0 }
{
    match bap {
        3 => 3,
        5..=13 => u16::from(bap) - 1,
        14 => 14,
        15 => 16,
        _ => 0,
    }
}

// A group's bits come with its first mantissa.
fn opens(count: u8, bits: u16) -> u16
    ensures { result ≡ opens_of count bits }
{
    if count == 0 { bits } else { 0 }
}

// The count of a group of `size` after one more mantissa.
fn turn(count: u8, size: u8) -> u8
    requires { 0 < size }
    ensures { result ≡ (count + 1) % size }
{
    ((u16::from(count) + 1) % u16::from(size)) as u8
}

impl Groups {
    // The bits that are read at a mantissa.
    fn width(self, bap: u8) -> u16
        ensures { result ≡ width_of self bap }
    {
        match bap {
            1 => opens(self.g1, 5),
            2 => opens(self.g2, 7),
            4 => opens(self.g4, 7),
            _ => alone(bap),
        }
    }

    // The counts after a mantissa.
    fn counted(self, bap: u8) -> Groups
        ensures { result ≡ counted_of self bap }
    {
        match bap {
            1 => Groups {
                g1: turn(self.g1, 3),
                ..self
            },
            2 => Groups {
                g2: turn(self.g2, 3),
                ..self
            },
            4 => Groups {
                g4: turn(self.g4, 2),
                ..self
            },
            _ => self,
        }
    }

    // All bits of the mantissas of a tally.
    fn spent(self, t: Tally) -> u32
        ensures { (result ≡ spent_of self t) × (result ≤ 1310700) }
    {
        u32::from(t.alone)
            + 5 * opened::<3>(self.g1, t.n1)
            + 7 * opened::<3>(self.g2, t.n2)
            + 7 * opened::<2>(self.g4, t.n4)
    }

    // The counts after them.
    fn left(self, t: Tally) -> Groups
        ensures { result ≡ left_of self t }
    {
        Groups {
            g1: turned::<3>(self.g1, t.n1),
            g2: turned::<3>(self.g2, t.n2),
            g4: turned::<2>(self.g4, t.n4),
        }
    }
}

// Passes the mantissas of the bins `start` to `end` - 1 of a slot, one by one: refusal 8 at the first bit of
// the one that would pass `limit`.
fn one_by_one(
    baps: &[u8; 1792],
    slot: u8,
    start: u16,
    end: u16,
    groups: &mut Groups,
    at: BitPlace,
    limit: BitPlace,
) -> Result<Passed, Refused>
    requires { (length baps.now ≡ 1792) × (slot < 7) × (end ≤ 256) }
    ensures { ((s : List ℕ) → groups_outcome result groups.new ≡ skim (conventional_of baps.now slot start (end - start) groups.old) s at.0 limit.0) × IfOk result (λ p. p.bits ≡ p.place.0 - at.0) }
{
    let base = 256 * usize::from(slot);
    let mut place = at;
    for i in start..end {
        let bap = baps[base + usize::from(i)];
        let width = groups.width(bap);
        if past(place, width, limit) {
            return Err(Refused {
                refusal: Refusal::Truncated,
                place,
            });
        }
        place = BitPlace(place.0 + width);
        *groups = groups.counted(bap);
    }
    Ok(Passed {
        place,
        bits: place.0.saturating_sub(at.0),
    })
}

// Passes the mantissas of the bins `start` to `end` - 1 of a slot, whose tally is `t`: refusal 8 at the first
// bit of the one that would pass `limit`. What they take follows from the tally; one by one they are passed
// only where that is too much.
pub fn pass(
    t: Tally,
    baps: &[u8; 1792],
    slot: u8,
    start: u16,
    end: u16,
    groups: &mut Groups,
    at: BitPlace,
    limit: BitPlace,
) -> Result<Passed, Refused>
    requires { (t ≡ tally_of baps.now slot start (end - start)) × (length baps.now ≡ 1792) × (slot < 7) × (end ≤ 256) }
    ensures { ((s : List ℕ) → groups_outcome result groups.new ≡ skim (conventional_of baps.now slot start (end - start) groups.old) s at.0 limit.0) × IfOk result (λ p. p.bits ≡ p.place.0 - at.0) }
{
    let end_place = u32::from(at.0) + groups.spent(t);
    if u32::from(limit.0) < end_place {
        return one_by_one(baps, slot, start, end, groups, at, limit);
    }
    *groups = groups.left(t);
    let place = BitPlace(end_place as u16);
    Ok(Passed {
        place,
        bits: place.0.saturating_sub(at.0),
    })
}

// The same, the tally counted here.
pub fn conventional(
    baps: &[u8; 1792],
    slot: u8,
    start: u16,
    end: u16,
    groups: &mut Groups,
    at: BitPlace,
    limit: BitPlace,
) -> Result<Passed, Refused>
    requires { (length baps.now ≡ 1792) × (slot < 7) × (end ≤ 256) }
    ensures { ((s : List ℕ) → groups_outcome result groups.new ≡ skim (conventional_of baps.now slot start (end - start) groups.old) s at.0 limit.0) × IfOk result (λ p. p.bits ≡ p.place.0 - at.0) }
{
    let t = tallied(baps, slot, start, end);
    pass(t, baps, slot, start, end, groups, at, limit)
}
