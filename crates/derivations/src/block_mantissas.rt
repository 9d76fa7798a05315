// The mantissas of a block, by what the cells say of it.
ghost use Rattle.std.specs.Prelude.{◌≡◌, List, ℕ, ◌*◌, ◌≤◌, length};
ghost use Rattle.reading.specs.Run.{skim};
ghost use Rattle.plan.specs.Taken.{taken};
ghost use Rattle.slots.specs.Held.{bins};
ghost use Rattle.allocation.specs.Memo.{Tallies};
ghost use Rattle.cells.specs.Cells.{state};
ghost use Rattle.derivations.specs.Mantissas.{mantissas_in};

use bits::BitPlace;
use plan::{Taken, mantissas};
use refusals::Refused;
use sideinfo::shapes::shape_of;

// The mantissas of the block: the place after them, the tags counted and the bits of each slot, or a refusal.
pub fn mantissas_in(
    src: &[u8],
    cells: &[u16; 1024],
    baps: &[u8; 1792],
    memo: &[u64; 42],
    at: BitPlace,
    limit: BitPlace,
) -> Result<Taken, Refused>
    requires { (Tallies memo.now baps.now) × (limit.0 ≤ 8 * length src.now) }
    ensures { (exps : List ℕ) → taken result ≡ skim (mantissas_in (state cells.now (bins exps baps.now))) src.now at.0 limit.0 }
{
    mantissas(src, baps, memo, shape_of(cells), at, limit)
}
