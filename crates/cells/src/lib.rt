// The cells: what a reading keeps of the elements that it has read, and what is derived from them.
#![tactic(auto)]

pub mod numbers;

ghost use Rattle.std.specs.Prelude.{◌≡◌};
ghost use Rattle.cells.specs.Cells.{cell_of, put_in};

// What a cell holds, read without a jump.
pub fn cell_of(cells: &[u16; 1024], k: usize) -> u16
    ensures { result ≡ cell_of cells.now k }
{
    let i = k % 1024;
    let v = cells[i];
    if i == 0 { 0 } else { v }
}

// Puts a value into a cell.
pub fn put(cells: &mut [u16; 1024], k: usize, v: u32)
    ensures { cells.new ≡ put_in cells.old k v }
{
    let i = k % 1024;
    if i != 0 {
        cells[i] = (v % 65536) as u16;
    }
}
