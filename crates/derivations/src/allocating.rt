// The state of bit allocation and the delta segments in the cells, and the derivations on them.
ghost use Rattle.std.specs.Prelude.{◌≡◌, ℕ, ◌%◌, ◌≤◌, ◌<◌, length};
ghost use Rattle.slots.specs.Held.{bins, Held};
ghost use Rattle.allocation.specs.State.{number_in, segments_of, Alike};
ghost use Rattle.allocation.specs.Memo.{Memo};
ghost use Rattle.cells.specs.Cells.{state, cell_of};
ghost use Rattle.derivations.specs.Acted.{acted, Numbered};
ghost use Rattle.derivations.specs.Allocating.{bytes_of, put_all, parameters_of, alloc_state_of, segments_in, sent_of, put_state, fresh_by, defaults_by, allocate_in};

use allocation::{AllocState, Codes, Segments, allocate_block};
use cells::numbers::{
    BAI_SENT, CPLBNDSTRC, CPLFLEAK, CPLSLEAK, CSNROFFST, DBPBCOD, DELTBA, DELTLEN, DELTNSEG,
    DELTOFFST, FDCYCOD, FGAINCOD, FIRSTCPLCOS, FIRSTCPLLEAK, FIRSTSPXCOS, FLOORCOD, FSCOD,
    FSNROFFST, SDCYCOD, SGAINCOD, SPXBNDSTRC,
};
use cells::{cell_of, put};
use refusals::Refusal;
use sideinfo::flags::flag;
use sideinfo::shapes::{byte, shape_of};
use std::array;
use tables::{def_cpl_bndstrc, def_spx_bndstrc};

fn byte_at(cells: &[u16; 1024], k: usize) -> u8
    ensures { result ≡ cell_of cells.now k % 256 }
{
    byte(cell_of(cells, k))
}

// N bytes, from the cell k on.
fn bytes<const N: usize>(cells: &[u16; 1024], k: usize) -> [u8; N]
    requires { (k ≤ 1024) × (N ≤ 1024) }
    ensures { result ≡ bytes_of cells.now k N }
{
    array::from_fn(|i| byte_at(cells, k + i))
}

// Puts values into the cells from k on.
fn put_all(cells: &mut [u16; 1024], k: usize, vs: &[u8])
    requires { (k ≤ 1024) × (length vs.now ≤ 1024) }
    ensures { cells.new ≡ put_all cells.old k vs.now }
{
    for (i, v) in vs.iter().enumerate() {
        put(cells, k + i, u32::from(*v));
    }
}

fn parameters_of(cells: &[u16; 1024]) -> Option<Codes>
    ensures { result ≡ parameters_of cells.now }
{
    if !flag(cells, BAI_SENT) {
        return None;
    }
    Some(Codes {
        sdcycod: byte_at(cells, SDCYCOD),
        fdcycod: byte_at(cells, FDCYCOD),
        sgaincod: byte_at(cells, SGAINCOD),
        dbpbcod: byte_at(cells, DBPBCOD),
        floorcod: byte_at(cells, FLOORCOD),
    })
}

fn alloc_state_of(cells: &[u16; 1024]) -> AllocState
    ensures { (result ≡ alloc_state_of cells.now) × (result.cplfleak < 8) × (result.cplsleak < 8) }
{
    AllocState {
        parameters: parameters_of(cells),
        csnroffst: byte_at(cells, CSNROFFST),
        fsnroffst: bytes(cells, FSNROFFST),
        fgaincod: bytes(cells, FGAINCOD),
        cplfleak: (cell_of(cells, CPLFLEAK) % 8) as u8,
        cplsleak: (cell_of(cells, CPLSLEAK) % 8) as u8,
    }
}

// The segments; where no slot has any, their fields are not looked at.
fn segments_in(cells: &[u16; 1024]) -> Segments
    ensures { (slot : ℕ) → Alike (segments_of result slot) (segments_of (segments_in cells.now) slot) }
{
    let n = bytes(cells, DELTNSEG);
    if n == [0; 6] {
        return Segments {
            n,
            offset: [0; 48],
            len: [0; 48],
            ba: [0; 48],
        };
    }
    Segments {
        n,
        offset: bytes(cells, DELTOFFST),
        len: bytes(cells, DELTLEN),
        ba: bytes(cells, DELTBA),
    }
}

fn sent_of(p: Option<Codes>) -> [u8; 6]
    ensures { result ≡ sent_of p }
{
    match p {
        None => [0; 6],
        Some(q) => [1, q.sdcycod, q.fdcycod, q.sgaincod, q.dbpbcod, q.floorcod],
    }
}

fn put_state(cells: &mut [u16; 1024], a: AllocState)
    requires { (length a.fsnroffst ≡ 7) × (length a.fgaincod ≡ 7) }
    ensures { cells.new ≡ put_state cells.old a }
{
    put_all(cells, BAI_SENT, &sent_of(a.parameters));
    put_all(cells, CSNROFFST, &[a.csnroffst, a.cplfleak, a.cplsleak]);
    put_all(cells, FSNROFFST, &a.fsnroffst);
    put_all(cells, FGAINCOD, &a.fgaincod);
}

// The start of the audio blocks.
pub fn fresh(cells: &mut [u16; 1024])
    ensures { cells.new ≡ fresh_by cells.old }
{
    put_state(cells, AllocState::fresh());
    put_all(cells, DELTNSEG, &[0; 6]);
    put_all(cells, SPXBNDSTRC, &def_spx_bndstrc());
    put_all(cells, CPLBNDSTRC, &def_cpl_bndstrc());
    put_all(cells, FIRSTSPXCOS, &[1; 5]);
    put_all(cells, FIRSTCPLCOS, &[1; 5]);
    put(cells, FIRSTCPLLEAK, 1);
}

// The parameters of bamode 0.
pub fn defaults(cells: &mut [u16; 1024])
    ensures { cells.new ≡ defaults_by cells.old }
{
    let codes = Codes {
        sdcycod: 2,
        fdcycod: 1,
        sgaincod: 1,
        dbpbcod: 2,
        floorcod: 7,
    };
    put_all(cells, BAI_SENT, &sent_of(Some(codes)));
}

// The pointers of the block.
pub fn allocate_in(
    cells: &[u16; 1024],
    exps: &[u8; 1792],
    baps: &mut [u8; 1792],
    memo: &mut [u64; 42],
) -> Result<(), Refusal>
    requires { (Held exps.now) × Memo memo.old exps.now baps.old }
    ensures { (acted (number_in result) (state cells.now (bins exps.now baps.new)) ≡ allocate_in (state cells.now (bins exps.now baps.old)))
        × Numbered result × Memo memo.new exps.now baps.new }
{
    let fscod = (cell_of(cells, FSCOD) % 3) as u8;
    let st = alloc_state_of(cells);
    let shape = shape_of(cells);
    let d = segments_in(cells);
    allocate_block(st, fscod, shape, &d, exps, baps, memo)
}
