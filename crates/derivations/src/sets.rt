// The exponents of a slot in the present block: the strategy of the set, its first bin, and the first bin past it.
ghost use Rattle.std.specs.Prelude.{◌≡◌};
ghost use Rattle.derivations.specs.Sets.{strategy_of, start_of, end_of};

use cells::cell_of;
use cells::numbers::{BLK, CHEXPSTR, CPLEND, CPLEXPSTR, CPLSTRT, ENDMANT};
use slots::{CPL, LFE};

#[tactic(auto, using(std::proofs::lemmas::Bool::Decides::nat_tests), unfolding(crate::specs::Sets::strategy_of))]
pub fn strategy_of(cells: &[u16; 1024], slot: u8) -> u16
    ensures { result ≡ strategy_of cells.now slot }
{
    let blk = cell_of(cells, BLK) as usize;
    match slot {
        CPL => cell_of(cells, CPLEXPSTR + blk),
        LFE => 1,
        _ => cell_of(cells, CHEXPSTR + slot as usize + 8 * blk),
    }
}

#[tactic(auto, using(std::proofs::lemmas::Bool::Decides::nat_tests), unfolding(crate::specs::Sets::start_of))]
pub fn start_of(cells: &[u16; 1024], slot: u8) -> u16
    ensures { result ≡ start_of cells.now slot }
{
    if slot == CPL {
        cell_of(cells, CPLSTRT)
    } else {
        0
    }
}

#[tactic(auto, using(std::proofs::lemmas::Bool::Decides::nat_tests), unfolding(crate::specs::Sets::end_of))]
pub fn end_of(cells: &[u16; 1024], slot: u8) -> u16
    ensures { result ≡ end_of cells.now slot }
{
    match slot {
        CPL => cell_of(cells, CPLEND),
        LFE => 7,
        _ => cell_of(cells, ENDMANT + slot as usize),
    }
}
