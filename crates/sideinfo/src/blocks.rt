// What is derived in a block.
ghost use Rattle.std.specs.Prelude.{◌≡◌, Err, Ok, Bool, cond, ◌+◌, ◌-◌, ◌*◌, ◌≤◌, ◌<◌, eqb, ltb};
ghost use Rattle.refusals.specs.declared.Refusal.TheVariants.{BandwidthNeverSent};
ghost use Rattle.sideinfo.specs.Blocks.{spx_range_by, bands_of, nspxbnds_by, cpl_range_by, ncplbnd_by, nrematbd_by, cpl_bins_by, coupled_in, extended_in, endmant_of, unknown_of, unknown_here, channels_of, endmants_by, read_of, slot_bits_of, aht_read_by};

use crate::flags::{count, flag, mark};
use cells::numbers::{
    AHT_READ, AHT_TAGS, AHTINU, BLK, CHBWCOD, CHBWSENT, CHINCPL, CHINSPX, CPL_SUBND_END, CPLBEGF,
    CPLBNDSTRC, CPLEND, CPLENDF, CPLINU, CPLSTRT, ENDMANT, LFEON, NCPLBND, NFCHANS, NREMATBD,
    NSPXBNDS, SLOT_BITS, SPX_BEGIN, SPX_END, SPXBEGF, SPXBNDSTRC, SPXENDF, SPXINU, TAGS,
};
use cells::{cell_of, put};
use refusals::Refusal;

fn spx_begin(spxbegf: u16) -> u32
    ensures { result ≡ cond (ltb spxbegf 6) (spxbegf + 2) (2 * spxbegf - 3) }
{
    if spxbegf < 6 {
        spxbegf as u32 + 2
    } else {
        2 * spxbegf as u32 - 3
    }
}

fn spx_end(spxendf: u16) -> u32
    ensures { result ≡ cond (ltb spxendf 3) (spxendf + 5) (2 * spxendf + 3) }
{
    if spxendf < 3 {
        spxendf as u32 + 5
    } else {
        2 * spxendf as u32 + 3
    }
}

// The sub-bands of spectral extension.
pub fn spx_range(cells: &mut [u16; 1024])
    ensures { cells.new ≡ spx_range_by cells.old }
{
    let begin = spx_begin(cell_of(cells, SPXBEGF));
    let end = spx_end(cell_of(cells, SPXENDF));
    put(cells, SPX_BEGIN, begin);
    put(cells, SPX_END, end);
}

// The bands of the sub-bands from b up to e, whose structure lies from the cell k on.
fn bands(cells: &[u16; 1024], k: usize, b: u16, e: u16) -> u32
    requires { k ≤ 1024 }
    ensures { result ≡ bands_of cells.now k b e }
{
    1 + count(
        cells,
        k + b as usize + 1,
        0,
        e.saturating_sub(b).saturating_sub(1),
    )
}

pub fn nspxbnds(cells: &mut [u16; 1024])
    ensures { cells.new ≡ nspxbnds_by cells.old }
{
    let b = cell_of(cells, SPX_BEGIN);
    let e = cell_of(cells, SPX_END);
    let n = bands(cells, SPXBNDSTRC, b, e);
    put(cells, NSPXBNDS, n);
}

fn cpl_end(extended: bool, spxbegf: u16, cplendf: u16) -> u32
    ensures { result ≡ cond extended (cond (ltb spxbegf 6) (spxbegf + 1) (2 * spxbegf - 4)) (cplendf + 3) }
{
    if !extended {
        cplendf as u32 + 3
    } else if spxbegf < 6 {
        spxbegf as u32 + 1
    } else {
        2 * spxbegf as u32 - 4
    }
}

// The first sub-band past the coupling range.
pub fn cpl_range(cells: &mut [u16; 1024])
    ensures { cells.new ≡ cpl_range_by cells.old }
{
    let extended = flag(cells, SPXINU);
    let spxbegf = cell_of(cells, SPXBEGF);
    let cplendf = cell_of(cells, CPLENDF);
    put(cells, CPL_SUBND_END, cpl_end(extended, spxbegf, cplendf));
}

pub fn ncplbnd(cells: &mut [u16; 1024])
    ensures { cells.new ≡ ncplbnd_by cells.old }
{
    let b = cell_of(cells, CPLBEGF);
    let e = cell_of(cells, CPL_SUBND_END);
    let n = bands(cells, CPLBNDSTRC, b, e);
    put(cells, NCPLBND, n);
}

fn remat(coupled: bool, cplbegf: u16, three: bool) -> u32
    ensures { result ≡ cond coupled (cond (eqb cplbegf 0) 2 (cond (ltb cplbegf 3) 3 4)) (cond three 3 4) }
{
    match cplbegf {
        _ if !coupled => if three { 3 } else { 4 },
        0 => 2,
        1 | 2 => 3,
        _ => 4,
    }
}

// The number of rematrixing bands.
pub fn nrematbd(cells: &mut [u16; 1024])
    ensures { cells.new ≡ nrematbd_by cells.old }
{
    let coupled = flag(cells, CPLINU);
    let cplbegf = cell_of(cells, CPLBEGF);
    let three = flag(cells, SPXINU) && cell_of(cells, SPXBEGF) < 2;
    put(cells, NREMATBD, remat(coupled, cplbegf, three));
}

fn coupled(cells: &[u16; 1024], ch: usize) -> bool
    requires { ch ≤ 1024 }
    ensures { result ≡ coupled_in cells.now ch }
{
    flag(cells, CPLINU) && flag(cells, CHINCPL + ch)
}

fn extended(cells: &[u16; 1024], ch: usize) -> bool
    requires { ch ≤ 1024 }
    ensures { result ≡ extended_in cells.now ch }
{
    flag(cells, SPXINU) && flag(cells, CHINSPX + ch)
}

// Where the mantissas of a channel end.
fn endmant(cells: &[u16; 1024], ch: usize) -> u32
    requires { ch ≤ 1024 }
    ensures { result ≡ endmant_of cells.now ch }
{
    if coupled(cells, ch) {
        cell_of(cells, CPLSTRT) as u32
    } else if extended(cells, ch) {
        25 + 12 * cell_of(cells, SPX_BEGIN) as u32
    } else {
        37 + 3 * (cell_of(cells, CHBWCOD + ch) as u32 + 12)
    }
}

// The bandwidth of a channel that is neither coupled nor extended was never sent.
fn unknown(cells: &[u16; 1024], ch: usize) -> bool
    requires { ch ≤ 1024 }
    ensures { result ≡ unknown_of cells.now ch }
{
    !coupled(cells, ch) && !extended(cells, ch) && cell_of(cells, CHBWSENT + ch) == 0
}

// The number of the channels of the block.
fn channels(cells: &[u16; 1024]) -> usize
    ensures { (result ≡ channels_of cells.now) × (result ≤ 5) }
{
    usize::from(cell_of(cells, NFCHANS).min(5))
}

// One of the channels is such.
fn unknown_in(cells: &[u16; 1024]) -> bool
    ensures { result ≡ unknown_here cells.now }
{
    (0..channels(cells)).any(|ch| unknown(cells, ch))
}

fn bin(sub: u16) -> u32
    ensures { result ≡ 37 + 12 * sub }
{
    37 + 12 * sub as u32
}

fn cpl_bins(cells: &mut [u16; 1024])
    ensures { cells.new ≡ cpl_bins_by cells.old }
{
    let start = bin(cell_of(cells, CPLBEGF));
    let end = bin(cell_of(cells, CPL_SUBND_END));
    put(cells, CPLSTRT, start);
    put(cells, CPLEND, end);
}

// The ends of the mantissas of coupling and of the channels.
fn endmants(cells: &mut [u16; 1024])
    ensures { cells.new ≡ endmants_by cells.old }
{
    let n = channels(cells);
    cpl_bins(cells);
    for ch in 0..n {
        let end = endmant(cells, ch);
        put(cells, ENDMANT + ch, end);
    }
}

// The same, where the bandwidth of each channel is known.
pub fn endmants_in(cells: &mut [u16; 1024]) -> Result<(), Refusal>
    ensures { (result ≡ cond (unknown_here cells.old) (Err BandwidthNeverSent) (Ok tt)) × (cells.new ≡ cond (unknown_here cells.old) cells.old (endmants_by cells.old)) }
{
    if unknown_in(cells) {
        return Err(Refusal::BandwidthNeverSent);
    }
    endmants(cells);
    Ok(())
}

// The slot of a channel is read, and coupling with a channel that is coupled.
fn read_one(cells: &mut [u16; 1024], ch: usize)
    requires { ch ≤ 1024 }
    ensures { cells.new ≡ read_of ch cells.old }
{
    let own = flag(cells, AHTINU + ch);
    mark(cells, AHT_READ + ch, own);
    let with = coupled(cells, ch) && flag(cells, AHTINU + 5);
    mark(cells, AHT_READ + 5, with);
}

// The bits that a slot took, kept by block.
fn keep_bits(cells: &mut [u16; 1024], slot: usize)
    requires { slot < 7 }
    ensures { cells.new ≡ slot_bits_of slot cells.old }
{
    let block = cell_of(cells, BLK) as usize;
    let bits = cell_of(cells, TAGS + 1 + slot) as u32;
    put(cells, SLOT_BITS + 8 * block + slot, bits);
}

// After the mantissas of a block: the tags so far, the bits of the slots, and the slots of the adaptive hybrid transform
// that are read.
pub fn aht_read(cells: &mut [u16; 1024])
    ensures { cells.new ≡ aht_read_by cells.old }
{
    let n = channels(cells);
    let tags = cell_of(cells, AHT_TAGS) as u32 + cell_of(cells, TAGS) as u32;
    put(cells, AHT_TAGS, tags);
    for slot in 0..7 {
        keep_bits(cells, slot);
    }
    for ch in 0..n {
        read_one(cells, ch);
    }
    let lfe = flag(cells, LFEON) && flag(cells, AHTINU + 6);
    mark(cells, AHT_READ + 6, lfe);
}
