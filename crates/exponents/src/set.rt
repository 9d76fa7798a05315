// A set of exponents, read group by group (A/52 clause 7.1.3, TS 102 366 clause 6.1.3).
ghost use Rattle.std.specs.Prelude.{◌≡◌, length};
ghost use Rattle.syntax.specs.Records.{part_of};
ghost use Rattle.syntax.specs.Rooms.{room_of, SameSlices};
ghost use Rattle.exponents.specs.Set.{begun_of};
ghost use Rattle.exponents.specs.SetRead.{Ready, SetRead};

use crate::{decode, first_of, group_size, groups, lay, put, start_of};
use bits::{BitPlace, bits_at, past};
use refusals::Refusal;
use slots::CPL;
use syntax::room::RecordRoom;
use syntax::{Cursor, Label, Stopped};

// What a set is read with: what its records are called, its slot and strategy, its first bin, the first bin past it, and
// the absolute exponent.
#[derive(Clone, Copy)]
pub struct Set {
    pub label: Label,
    pub slot: u8,
    pub strategy: u8,
    pub start: u16,
    pub end: u16,
    pub absexp: u8,
}

// Bin 0 of a channel or of LFE has the absolute exponent itself.
#[tactic(auto, using(std::proofs::lemmas::Bool::Decides::nat_tests), unfolding(crate::specs::Set::begun_of))]
fn begin(exps: &mut [u8; 1792], slot: u8, absexp: u8)
    requires { length exps.old ≡ 1792 }
    ensures { exps.new ≡ begun_of slot absexp exps.old }
{
    if slot != CPL {
        put(exps, slot, 0, absexp);
    }
}

// The groups of a set: each is read, recorded, decoded and laid.
pub fn read_exponents(
    src: &[u8],
    room: &mut RecordRoom<'_>,
    exps: &mut [u8; 1792],
    cur: Cursor,
    limit: BitPlace,
    set: Set,
) -> Result<Cursor, Stopped>
    requires { Ready src.now limit.0 exps.old set.absexp }
    ensures read { SetRead src.now limit.0 (part_of set.label) set.slot set.strategy set.start set.end set.absexp exps.old cur.at.0 cur.count (room_of room.old) result exps.new (room_of room.new) }
    ensures same { SameSlices room.old room.new }
{
    let step = 3 * group_size(set.strategy);
    let left = groups(set.slot, set.strategy, set.start, set.end);
    let mut bin = u32::from(first_of(set.slot, set.start));
    let mut prev = start_of(set.slot, set.absexp);
    let mut here = cur;
    begin(exps, set.slot, set.absexp);
    for _ in 0..left {
        if past(here.at, 7, limit) {
            return Err(here.stop(Refusal::Truncated));
        }
        let value = bits_at(src, here.at, 7);
        let Some(count) = room.record(here.count, set.label, here.at, 7, value) else {
            return Err(here.stop(Refusal::NoRoom));
        };
        here = Cursor {
            at: BitPlace(here.at.0 + 7),
            count,
        };
        let (a, b, c) = match decode(prev, value) {
            Ok(group) => group,
            Err(refusal) => return Err(here.stop(refusal)),
        };
        lay(exps, set.slot, set.strategy, bin, a as u8, b as u8, c as u8);
        prev = c;
        bin += step;
    }
    Ok(here)
}
