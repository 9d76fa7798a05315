// The silence rule of bit allocation (A/52 clause 7.2.2.1, TS 102 366 clause 6.2.2.1).
#![tactic(auto)]

ghost use Rattle.std.specs.Prelude.{◌≡◌, ◌&&◌, ◌||◌, not, eqb};
ghost use Rattle.silence.specs.Silence.{silent_by};

use slots::{Shape, used};

fn no_offset(used: bool, fsnroffst: u8) -> bool
    ensures { result ≡ not used || eqb fsnroffst 0 }
{
    !used || fsnroffst == 0
}

// Whether the coarse offset and the fine offsets of all slots in use are 0.
pub fn silent(csnroffst: u8, fsnroffst: [u8; 7], shape: Shape) -> bool
    ensures { result ≡ silent_by csnroffst fsnroffst shape }
{
    let mut all = csnroffst == 0;
    for slot in 0..7 {
        all &= no_offset(used(shape, slot), fsnroffst[slot as usize]);
    }
    all
}
