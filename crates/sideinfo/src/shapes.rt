// What the cells say of a block: its channels, ranges and slots.
ghost use Rattle.std.specs.Prelude.{◌≡◌, ◌≤◌, ◌%◌};
ghost use Rattle.sideinfo.specs.Shapes.{values_of, shape_of};

use crate::flags::{flag, flags};
use cells::cell_of;
use cells::numbers::{AHT_READ, AHTINU, CHINCPL, CPLEND, CPLINU, CPLSTRT, ENDMANT, LFEON, NFCHANS};
use slots::Shape;
use std::array;

pub fn byte(v: u16) -> u8
    ensures { result ≡ v % 256 }
{
    (v % 256) as u8
}

// N values, from the cell k on.
pub fn values<const N: usize>(cells: &[u16; 1024], k: usize) -> [u16; N]
    requires { (k ≤ 1024) × (N ≤ 1024) }
    ensures { result ≡ values_of cells.now k N }
{
    array::from_fn(|i| cell_of(cells, k + i))
}

pub fn shape_of(cells: &[u16; 1024]) -> Shape
    ensures { result ≡ shape_of cells.now }
{
    Shape {
        nfchans: byte(cell_of(cells, NFCHANS)),
        lfeon: flag(cells, LFEON),
        cplinu: flag(cells, CPLINU),
        chincpl: flags(cells, CHINCPL),
        ahtinu: flags(cells, AHTINU),
        ahtread: flags(cells, AHT_READ),
        endmant: values(cells, ENDMANT),
        cplstrt: cell_of(cells, CPLSTRT),
        cplend: cell_of(cells, CPLEND),
    }
}
