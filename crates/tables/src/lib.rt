// The constant tables of the reader. Each function hands out a table whole, for its caller to hold and to lend, or
// one entry of a small table by its code.

#![tactic(auto)]

mod bitalloc_tables;
mod small_tables;

ghost use Rattle.std.specs.Prelude.{◌≡◌, ◌++◌, pos, get_or};
ghost use Rattle.tables.specs.BitAllocation.{slowdec, fastdec, slowgain, dbpbtab, floortab, fastgain, bndend, masktab as maskTab, latab, hth, baptab, hebaptab};
ghost use Rattle.tables.specs.Steps.{steps};
ghost use Rattle.tables.specs.Small.{nfchans as nfChans, frmexpstr, defcplbndstrc, defspxbndstrc};

use bitalloc_tables::{
    BAND_END, DB_KNEE, FAST_DECAY, FAST_GAIN, FLOOR, HEARING, LOG_ADD, MASKTAB, POINTERS,
    SLOW_DECAY, SLOW_GAIN,
};
use small_tables::{DEF_CPL_BNDSTRC, DEF_SPX_BNDSTRC, FRAME_EXPSTR, NFCHANS};

// Log addition.
pub fn log_add() -> [u8; 256]
    ensures { result ≡ latab }
{
    LOG_ADD
}

// The first bin past each band.
pub fn band_end() -> [u8; 50]
    ensures { result ≡ bndend }
{
    BAND_END
}

// The band of each bin.
pub fn masktab() -> [u8; 253]
    ensures { result ≡ maskTab }
{
    MASKTAB
}

// The hearing threshold, at 50 * fscod + band.
pub fn hearing() -> [u16; 150]
    ensures { result ≡ hth }
{
    HEARING
}

// BAP by steps, and HEBAP by steps from 512 on.
pub fn pointers() -> [u8; 1024]
    ensures { result ≡ steps baptab 0 512 ++ steps hebaptab 0 512 }
{
    POINTERS
}

// Full bandwidth channels, at acmod.
pub fn nfchans() -> [u8; 8]
    ensures { result ≡ nfChans }
{
    NFCHANS
}

// Six strategies for each code, at 6 * code + block.
pub fn frame_expstr() -> [u8; 192]
    ensures { result ≡ frmexpstr }
{
    FRAME_EXPSTR
}

pub fn def_cpl_bndstrc() -> [u8; 18]
    ensures { result ≡ defcplbndstrc }
{
    DEF_CPL_BNDSTRC
}

pub fn def_spx_bndstrc() -> [u8; 17]
    ensures { result ≡ defspxbndstrc }
{
    DEF_SPX_BNDSTRC
}

// An entry of a table by its code; for a code past the table, none.
fn entry<T: Copy>(t: &[T], code: u8, none: T) -> T
    ensures { result ≡ get_or t.now code none }
{
    t.get(code as usize).copied().unwrap_or(none)
}

#[tactic(auto, unfolding(crate::specs::BitAllocation::slowdec))]
pub fn slow_decay(sdcycod: u8) -> u32
    ensures { result ≡ get_or slowdec sdcycod 0 }
{
    entry(&SLOW_DECAY, sdcycod, 0) as u32
}

#[tactic(auto, unfolding(crate::specs::BitAllocation::fastdec))]
pub fn fast_decay(fdcycod: u8) -> u32
    ensures { result ≡ get_or fastdec fdcycod 0 }
{
    entry(&FAST_DECAY, fdcycod, 0) as u32
}

#[tactic(auto, unfolding(crate::specs::BitAllocation::slowgain))]
pub fn slow_gain(sgaincod: u8) -> u32
    ensures { result ≡ get_or slowgain sgaincod 0 }
{
    entry(&SLOW_GAIN, sgaincod, 0) as u32
}

#[tactic(auto, unfolding(crate::specs::BitAllocation::fastgain))]
pub fn fast_gain(fgaincod: u8) -> u32
    ensures { result ≡ get_or fastgain fgaincod 0 }
{
    entry(&FAST_GAIN, fgaincod, 0) as u32
}

#[tactic(auto, unfolding(crate::specs::BitAllocation::dbpbtab))]
pub fn db_knee(dbpbcod: u8) -> u32
    ensures { result ≡ get_or dbpbtab dbpbcod 0 }
{
    entry(&DB_KNEE, dbpbcod, 0) as u32
}

#[tactic(auto, unfolding(crate::specs::BitAllocation::floortab))]
pub fn floor(floorcod: u8) -> i32
    ensures { result ≡ get_or floortab floorcod (pos 0) }
{
    entry(&FLOOR, floorcod, 0)
}
