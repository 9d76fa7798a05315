// Parametric bit allocation, its types, and its parameters by their codes: A/52 clause 7.2.2, TS 102 366 clause 6.2.2. The masks
// are computed by the crate `masking`, the pointers by the crate `pointers`.
//
// Levels (psd, bndpsd, leaks, excitation, mask, knee, floor) are held 8192 above their value, so that none is below 0;
// differences of levels (gains, decays, lowcomp) are held as they are.

#![tactic(auto)]

ghost use Rattle.std.specs.Prelude.{◌≡◌, ℕ, ◌++◌, ◌<◌, ◌≤◌, get_or};
ghost use Rattle.tables.specs.BitAllocation.{latab as logTab, masktab as maskTab, bndend, hth as hthTab, baptab, hebaptab};
ghost use Rattle.tables.specs.Bands.{end_of};
ghost use Rattle.tables.specs.Steps.{steps};
ghost use Rattle.alloc.specs.Allocation.{params_of, leak_of};

// The parameters, in the units of the tables.
#[derive(Clone, Copy)]
pub struct Params {
    pub sdecay: u32,
    pub fdecay: u32,
    pub sgain: u32,
    pub dbknee: u32,
    pub floor: i32,
    pub fscod: usize,
}

// The leaks that coupling starts with. Other channels have none.
#[derive(Clone, Copy)]
pub struct Leak {
    pub fast: u32,
    pub slow: u32,
}

// The segments of delta bit allocation: `n` of them.
// Stays: `counter`, `covers` and `deltaed` read deltoffst, deltlen and deltba as the standard has them, each by segment.
#[derive(Clone, Copy)]
pub struct Deltas {
    pub n: usize,
    pub offset: [u8; 8],
    pub len: [u8; 8],
    pub ba: [u8; 8],
}

// Which table gives the pointers.
#[derive(Clone, Copy, PartialEq, Eq, Debug)]
pub enum Pointers {
    Bap,
    Hebap,
}

// The bins start .. end - 1 of a channel, its fast gain and its offset codes.
#[derive(Clone, Copy)]
pub struct Channel {
    pub start: usize,
    pub end: usize,
    pub fgain: u32,
    pub csnroffst: u8,
    pub fsnroffst: u8,
}

// The gains and decays.
#[derive(Clone, Copy)]
pub struct Gains {
    pub fgain: u32,
    pub sgain: u32,
    pub fdecay: u32,
    pub sdecay: u32,
}

// The leaks before the first band, as levels.
#[derive(Clone, Copy)]
pub struct Leaks {
    pub fast: u32,
    pub slow: u32,
}

// The leaks and the low-frequency compensation as the bands are passed: a decay can be taken from a leak, and lowcomp from the
// fast one.
#[derive(Clone, Copy)]
pub struct Passed {
    pub fast: u32,
    pub slow: u32,
    pub low: u32,
    pub ghost fast_least: { 4096 ≤ fast },
    pub ghost slow_least: { 4096 ≤ slow },
    pub ghost low_most: { low ≤ 384 },
}

// The knee and the floor as levels, and the offset 960 above its value.
#[derive(Clone, Copy)]
pub struct Levels {
    pub knee: u32,
    pub floor: u32,
    pub snr: u32,
    pub fscod: usize,
}

// The tables that pointers are made with, and what each pointer is worth by a table of shares.
#[derive(Clone, Copy)]
pub struct Tables<'a> {
    pub latab: &'a [u8; 256],
    pub masktab: &'a [u8; 253],
    pub ends: &'a [u8; 50],
    pub hth: &'a [u16; 150],
    pub points: &'a [u8; 1024],
    pub shares: &'a [u64; 256],
    pub ghost log: { latab.now ≡ logTab },
    pub ghost bins: { masktab.now ≡ maskTab },
    pub ghost bounds: { ends.now ≡ bndend },
    pub ghost heard: { hth.now ≡ hthTab },
    pub ghost pointed: { points.now ≡ steps baptab 0 512 ++ steps hebaptab 0 512 },
    pub ghost share_most: { (k : ℕ) → get_or shares.now k 0 ≤ 281474976710656 },
}

// The first bin past a band.
pub fn end_of(ends: &[u8; 50], k: usize) -> usize
    requires { (ends.now ≡ bndend) × (k < 50) }
    ensures { result ≡ end_of k }
{
    usize::from(ends[k])
}

// The parameters by their codes. Any code is taken; one past its table gives 0.
pub fn params_of(
    sdcycod: u8,
    fdcycod: u8,
    sgaincod: u8,
    dbpbcod: u8,
    floorcod: u8,
    fscod: usize,
) -> Params
    ensures { result ≡ params_of sdcycod fdcycod sgaincod dbpbcod floorcod fscod }
{
    Params {
        sdecay: tables::slow_decay(sdcycod),
        fdecay: tables::fast_decay(fdcycod),
        sgain: tables::slow_gain(sgaincod),
        dbknee: tables::db_knee(dbpbcod),
        floor: tables::floor(floorcod),
        fscod,
    }
}

// The leaks of coupling by their codes.
pub fn leak_of(cplfleak: u8, cplsleak: u8) -> Leak
    ensures { result ≡ leak_of cplfleak cplsleak }
{
    Leak {
        fast: u32::from(cplfleak) * 256 + 768,
        slow: u32::from(cplsleak) * 256 + 768,
    }
}
