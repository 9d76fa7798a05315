// The slots of a block: what it looks like, and which bins a slot has (A/52 clause 5.3.3, TS 102 366 clauses
// 4.3.3 and E.1.2.4). The slots are the five full bandwidth channels, the coupling channel and the LFE channel.
#![tactic(auto)]

ghost use Rattle.std.specs.Prelude.{◌≡◌, false, ◌<◌, ◌≤◌, min, get_or};
ghost use Rattle.slots.specs.Slots.{range_of, used_of, read_of, requested_of};

// Stays: numbers and no enum, since slots 0 to 4 are channel numbers: arrays are indexed by them, and the C interface
// of the blocks and the cells of a reading carry them.
pub const CPL: u8 = 5;

pub const LFE: u8 = 6;

// What a block looks like: its channels, whether it has coupling and LFE, which channels are coupled,
// which slots have the adaptive hybrid transform and which of these are read, and where the bins end.
#[derive(Clone, Copy)]
pub struct Shape {
    pub nfchans: u8,
    pub lfeon: bool,
    pub cplinu: bool,
    pub chincpl: [bool; 5],
    pub ahtinu: [bool; 7],
    pub ahtread: [bool; 7],
    pub endmant: [u16; 5],
    pub cplstrt: u16,
    pub cplend: u16,
}

// The bins `start` to `end` - 1.
#[derive(Clone, Copy)]
pub struct Range {
    pub start: u16,
    pub end: u16,
}

// The bins of a slot.
#[tactic(auto, unfolding(crate::specs::Slots::range_of))]
pub fn range_at(shape: Shape, slot: u8) -> Range
    requires { slot < 7 }
    ensures { (result ≡ range_of shape slot) × (result.end ≤ 253) }
{
    match slot {
        CPL => Range {
            start: shape.cplstrt,
            end: shape.cplend.min(253),
        },
        LFE => Range { start: 0, end: 7 },
        _ => Range {
            start: 0,
            end: shape.endmant[slot as usize].min(253),
        },
    }
}

// Whether a slot of the adaptive hybrid transform is read already.
#[tactic(auto, unfolding(crate::specs::Slots::read_of))]
pub fn read(shape: Shape, slot: u8) -> bool
    requires { slot < 7 }
    ensures { result ≡ read_of shape slot }
{
    let i = slot as usize;
    shape.ahtinu[i] && shape.ahtread[i]
}

// Whether a slot has the adaptive hybrid transform.
pub fn hybrid(shape: Shape, slot: u8) -> bool
    requires { slot < 7 }
    ensures { result ≡ get_or shape.ahtinu slot false }
{
    shape.ahtinu[slot as usize]
}

// Whether the block has the slot.
#[tactic(auto, unfolding(crate::specs::Slots::used_of))]
pub fn used(shape: Shape, slot: u8) -> bool
    ensures { result ≡ used_of shape slot }
{
    match slot {
        CPL => shape.cplinu,
        LFE => shape.lfeon,
        _ => slot < shape.nfchans.min(5),
    }
}

// Whether the pointers of a slot are asked for.
#[tactic(auto, unfolding(crate::specs::Slots::requested_of))]
pub fn requested(shape: Shape, slot: u8) -> bool
    requires { slot < 7 }
    ensures { result ≡ requested_of shape slot }
{
    used(shape, slot) && !read(shape, slot)
}
