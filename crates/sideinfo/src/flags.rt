// Flags in cells, and how many cells hold a value.
ghost use Rattle.std.specs.Prelude.{◌≡◌, ◌≤◌};
ghost use Rattle.sideinfo.specs.Frames.{holding};
ghost use Rattle.sideinfo.specs.Blocks.{flag_of, marked_in};
ghost use Rattle.sideinfo.specs.Shapes.{flags_of};

use cells::{cell_of, put};
use std::array;

pub fn flag(cells: &[u16; 1024], k: usize) -> bool
    ensures { result ≡ flag_of cells.now k }
{
    cell_of(cells, k) == 1
}

// N flags, from the cell k on.
pub fn flags<const N: usize>(cells: &[u16; 1024], k: usize) -> [bool; N]
    requires { (k ≤ 1024) × (N ≤ 1024) }
    ensures { result ≡ flags_of cells.now k N }
{
    array::from_fn(|i| flag(cells, k + i))
}

// How many of n cells from the cell k on hold v.
pub fn count(cells: &[u16; 1024], k: usize, v: u16, n: u16) -> u32
    requires { k ≤ 131072 }
    ensures { (result ≡ holding cells.now k v n) × (result ≤ n) }
{
    (0..usize::from(n))
        .filter(|i| cell_of(cells, k + *i) == v)
        .count() as u32
}

// Puts 1 into a cell, or leaves it.
pub fn mark(cells: &mut [u16; 1024], k: usize, on: bool)
    ensures { cells.new ≡ marked_in on k cells.old }
{
    if on {
        put(cells, k, 1);
    }
}
