// What the rows of a frame's tail begin with.
#![tactic(auto)]

ghost use Rattle.std.specs.Prelude.{◌≡◌, ◌-◌, ◌*◌, ◌≤◌, length};
ghost use Rattle.bits.specs.Bits.{bits_at};
ghost use Rattle.cells.specs.Cells.{put_in};
ghost use Rattle.cells.specs.Names.{FRAME_END, AUXDATAE as auxdatae};
ghost use Rattle.annex.specs.Frame.{start};

use bits::{BitPlace, bits_at};
use cells::numbers::{AUXDATAE, FRAME_END};
use cells::put;

// The cells of the tail: where the frame ends, and auxdatae, which is looked at ahead.
pub fn tail_cells(src: &[u8], limit: BitPlace) -> [u16; 1024]
    requires { (16 ≤ limit.0) × (limit.0 ≤ 8 * length src.now) }
    ensures { result ≡ put_in (put_in start.cells FRAME_END limit.0) auxdatae (bits_at src.now (limit.0 - 18) 1) }
{
    let auxdatae = BitPlace(limit.0.saturating_sub(18));
    let mut cells = [0; 1024];
    put(&mut cells, FRAME_END, limit.0 as u32);
    put(&mut cells, AUXDATAE, bits_at(src, auxdatae, 1));
    cells
}
