// The mantissas of a block, slot by slot (A/52 clause 5.3.3, TS 102 366 clauses 4.3.3 and E.1.2.4).
#![tactic(auto)]

ghost use Rattle.std.specs.Prelude.{◌≡◌, ◌&&◌, false, ◌+◌, ◌*◌, ◌<◌, ◌≤◌, length, get_or, OnOk};
ghost use Rattle.reading.specs.Run.{skim};
ghost use Rattle.allocation.specs.Memo.{Tallies};
ghost use Rattle.plan.specs.Plan.{visit_of, mantissas_of};
ghost use Rattle.plan.specs.Taken.{along_of, taking_outcome, taken};

use allocation::memo::tally_at;
use bits::BitPlace;
use hybrid::aht;
use mantissas::{Groups, pass};
use refusals::Refused;
use slots::{CPL, LFE, Shape, hybrid, range_at, read};

// Where the walk through a block stands: the place; the tags; the counts of groups; the bits that each slot took.
#[derive(Clone, Copy)]
pub struct Taking {
    pub place: BitPlace,
    pub tags: u16,
    pub groups: Groups,
    pub bits: [u16; 7],
}

// The place after the mantissas of a block, the tags counted and the bits that each slot took.
#[derive(Clone, Copy)]
pub struct Taken {
    pub place: BitPlace,
    pub tags: u16,
    pub bits: [u16; 7],
}

impl Taking {
    // Passes the mantissas of a slot, unless they are read already.
    fn visit(
        &mut self,
        src: &[u8],
        baps: &[u8; 1792],
        memo: &[u64; 42],
        shape: Shape,
        slot: u8,
        limit: BitPlace,
    ) -> Result<(), Refused>
        requires { (Tallies memo.now baps.now) × (slot < 7) × (limit.0 ≤ 8 * length src.now) × (self.old.tags ≤ 32768) }
        ensures { (taking_outcome result self.new ≡ skim (visit_of baps.now shape slot (along_of self.old)) src.now self.old.place.0 limit.0) × OnOk result (self.new.tags ≤ self.old.tags + 1536) }
    {
        if read(shape, slot) {
            return Ok(());
        }
        let range = range_at(shape, slot);
        if hybrid(shape, slot) {
            let t = aht(src, baps, slot, range.start, range.end, self.place, limit)?;
            self.place = t.place;
            self.tags += t.tags;
            self.bits[usize::from(slot)] = t.bits;
            return Ok(());
        }
        let p = pass(
            tally_at(memo, baps, slot, range.start, range.end),
            baps,
            slot,
            range.start,
            range.end,
            &mut self.groups,
            self.place,
            limit,
        )?;
        self.place = p.place;
        self.bits[usize::from(slot)] = p.bits;
        Ok(())
    }
}

// Whether a channel is coupled.
fn coupled(shape: Shape, ch: u8) -> bool
    requires { ch < 5 }
    ensures { result ≡ shape.cplinu && get_or shape.chincpl ch false }
{
    shape.cplinu && shape.chincpl[usize::from(ch)]
}

// The mantissas of a block: its channels, the coupling channel after the first coupled one, the LFE
// channel last. Refusal 8 at the first bit of what would pass `limit`, 13 for a composite gain above 26.
pub fn mantissas(
    src: &[u8],
    baps: &[u8; 1792],
    memo: &[u64; 42],
    shape: Shape,
    at: BitPlace,
    limit: BitPlace,
) -> Result<Taken, Refused>
    requires { (Tallies memo.now baps.now) × (limit.0 ≤ 8 * length src.now) }
    ensures { taken result ≡ skim (mantissas_of baps.now shape) src.now at.0 limit.0 }
{
    let mut t = Taking {
        place: at,
        tags: 0,
        groups: Groups {
            g1: 0,
            g2: 0,
            g4: 0,
        },
        bits: [0; 7],
    };
    let n = shape.nfchans.min(5);
    let mut got = false;
    for ch in 0..n {
        t.visit(src, baps, memo, shape, ch, limit)?;
        if coupled(shape, ch) && !got {
            t.visit(src, baps, memo, shape, CPL, limit)?;
            got = true;
        }
    }
    if shape.lfeon {
        t.visit(src, baps, memo, shape, LFE, limit)?;
    }
    Ok(Taken {
        place: t.place,
        tags: t.tags,
        bits: t.bits,
    })
}
