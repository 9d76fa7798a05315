// What is derived from bsi and audfrm.
ghost use Rattle.std.specs.Prelude.{◌≡◌, cond, ◌||◌, not, ◌+◌, ◌-◌, ◌≤◌, ◌<◌, eqb, get_or};
ghost use Rattle.sideinfo.specs.Frames.{numblks_by, nfchans_by, ncplblks_by, strategies_by, cpl_strategies_by, ch_strategies_by, cpl_regions, regions_from, nchregs_by, regions_by, powers_below, blkstrtinfo_by};

use crate::flags::count;
use cells::numbers::{
    ACMOD, CH, CHEXPSTR, CPLEXPSTR, CPLINUS, CPLSTRE, FRMCHEXPSTR, FRMCPLEXPSTR, FRMSIZ, LFEEXPSTR,
    NCHREGS, NCPLBLKS, NCPLREGS, NFCHANS, NLFEREGS, NUMBLKS, NUMBLKSCOD, WIDTH,
};
use cells::{cell_of, put};
use tables::frame_expstr;

fn blocks_of(code: u16) -> u32
    ensures { result ≡ cond (eqb code 3) 6 (code + 1) }
{
    if code == 3 { 6 } else { code as u32 + 1 }
}

pub fn numblks(cells: &mut [u16; 1024])
    ensures { cells.new ≡ numblks_by cells.old }
{
    let code = cell_of(cells, NUMBLKSCOD);
    put(cells, NUMBLKS, blocks_of(code));
}

// An entry of a table, 0 past its end.
fn entry(table: &[u8], k: usize) -> u32
    ensures { result ≡ get_or table.now k 0 }
{
    table.get(k).map_or(0, |v| u32::from(*v))
}

pub fn nfchans(cells: &mut [u16; 1024])
    ensures { cells.new ≡ nfchans_by cells.old }
{
    let acmod = cell_of(cells, ACMOD);
    put(cells, NFCHANS, entry(&tables::nfchans(), acmod as usize));
}

pub fn ncplblks(cells: &mut [u16; 1024])
    ensures { cells.new ≡ ncplblks_by cells.old }
{
    let n = cell_of(cells, NUMBLKS);
    let blocks = count(cells, CPLINUS, 1, n);
    put(cells, NCPLBLKS, blocks);
}

// The strategies of six blocks by a code of the frame (Table E.1.9), into every d-th cell from k on.
fn strategies(cells: &mut [u16; 1024], code: u16, k: usize, d: usize)
    requires { (k ≤ 131072) × (d ≤ 8) }
    ensures { cells.new ≡ strategies_by code k d cells.old }
{
    let table = frame_expstr();
    let first = 6 * code as usize;
    for i in 0..6 {
        put(cells, k + d * i, entry(&table, first + i));
    }
}

pub fn cpl_strategies(cells: &mut [u16; 1024])
    ensures { cells.new ≡ cpl_strategies_by cells.old }
{
    let code = cell_of(cells, FRMCPLEXPSTR);
    strategies(cells, code, CPLEXPSTR, 1);
}

pub fn ch_strategies(cells: &mut [u16; 1024])
    ensures { cells.new ≡ ch_strategies_by cells.old }
{
    let code = cell_of(cells, FRMCHEXPSTR);
    let ch = cell_of(cells, CH) as usize;
    strategies(cells, code, CHEXPSTR + ch, 8);
}

// The regions of coupling in six blocks.
fn cpl_regions(cells: &[u16; 1024]) -> u32
    ensures { result ≡ cpl_regions cells.now }
{
    (0..6)
        .filter(|i| cell_of(cells, CPLSTRE + *i) == 1 || cell_of(cells, CPLEXPSTR + *i) != 0)
        .count() as u32
}

// The regions of a channel, whose strategies lie in every d-th cell from k on.
fn regions_from(cells: &[u16; 1024], k: usize, d: usize) -> u32
    requires { (k ≤ 1024) × (d ≤ 8) }
    ensures { result ≡ regions_from cells.now k d }
{
    (0..6).filter(|i| cell_of(cells, k + d * *i) != 0).count() as u32
}

pub fn regions(cells: &mut [u16; 1024])
    ensures { cells.new ≡ regions_by cells.old }
{
    for ch in 0..5 {
        let n = regions_from(cells, CHEXPSTR + ch, 8);
        put(cells, NCHREGS + ch, n);
    }
    let cpl = cpl_regions(cells);
    put(cells, NCPLREGS, cpl);
    let lfe = regions_from(cells, LFEEXPSTR, 1);
    put(cells, NLFEREGS, lfe);
}

// The ceiling of the logarithm of n to the base 2.
fn ceil_log2(n: u32) -> u32
    ensures { (result ≡ powers_below n 17) × (result ≤ 17) }
{
    (0..17_u32).filter(|k| (1 << *k) < n).count() as u32
}

// The width of blkstrtinfo.
pub fn blkstrtinfo(cells: &mut [u16; 1024])
    ensures { cells.new ≡ blkstrtinfo_by cells.old }
{
    let blocks = cell_of(cells, NUMBLKS).saturating_sub(1) as u32;
    let words = cell_of(cells, FRMSIZ) as u32 + 1;
    put(cells, WIDTH, blocks * (4 + ceil_log2(words)));
}
