// What a row of input finds, recorded and stored.
#![tactic(auto)]

ghost use Rattle.std.specs.Prelude.{◌≡◌};
ghost use Rattle.syntax.specs.Rooms.{room_of, SameSlices};
ghost use Rattle.recording.specs.Recorded.{label_in, Keeps};

use bits::BitPlace;
use cells::numbers::BLOCK;
use cells::{cell_of, put};
use refusals::{Refusal, Refused};
use rows::fields::{block_part, index_of, index_part, keep_of, name_of};
use syntax::room::RecordRoom;
use syntax::{Cursor, Label, Stopped};

// What a row of input finds: the place after it, its width, the value that is recorded and the value that is stored.
#[derive(Clone, Copy)]
pub struct Look {
    pub place: BitPlace,
    pub width: u16,
    pub value: u32,
    pub stored: u32,
}

// What the record of a row is called.
pub fn label_of(w: u64, cells: &[u16; 1024]) -> Label
    ensures { result ≡ label_in w cells.now }
{
    Label {
        name: name_of(w),
        block: block_part(cell_of(cells, BLOCK)),
        index: index_part(index_of(w, cells)),
    }
}

// What is found is recorded and stored, and a refusal stands: compiled into the walk, which calls it for each record.
#[inline(always)]
pub fn keep(
    room: &mut RecordRoom<'_>,
    cells: &mut [u16; 1024],
    cur: Cursor,
    w: u64,
    found: Result<Look, Refused>,
) -> Result<Cursor, Stopped>
    ensures kept { Keeps w found cells.old cur.at.0 cur.count (room_of room.old) result cells.new (room_of room.new) }
    ensures same { SameSlices room.old room.new }
{
    let look = match found {
        Ok(look) => look,
        Err(refused) => {
            return Err(Stopped {
                refusal: refused.refusal,
                at: refused.place,
                count: cur.count,
            });
        }
    };
    let label = label_of(w, cells);
    let Some(next) = room.record(cur.count, label, cur.at, look.width, look.value) else {
        return Err(cur.stop(Refusal::NoRoom));
    };
    let k = keep_of(w, cells);
    put(cells, k, look.stored);
    Ok(Cursor {
        at: look.place,
        count: next,
    })
}
