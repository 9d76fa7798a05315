// A toy syntax, with every kind of row: its table, and the entry.
#![tactic(auto)]

pub mod table;

ghost use Rattle.std.specs.Prelude.{◌≡◌, ◌≤◌, ◌*◌, length};
ghost use Rattle.reading.specs.Room.{room};
ghost use Rattle.toy.specs.Answer.{answer, limit_of, parsed};
ghost use Rattle.toy.specs.Table.{Tabled};

use bits::BitPlace;
use syntax::room::RecordRoom;
use syntax::{Cursor, Stopped, least};
use table::TABLE;
use walk::each;

fn rows() -> [u64; 81]
    ensures { Tabled result }
{
    TABLE
}

fn limit_of(src: &[u8]) -> BitPlace
    ensures { (result.0 ≡ limit_of src.now) × (result.0 ≤ 8 * length src.now) }
{
    let n = src.len();
    if n < 4096 {
        return BitPlace(8 * n as u16);
    }
    BitPlace(32768)
}

// The frame in the slice, of at most 4,096 bytes: the answer and the records are those of the syntax's
// tree, cut at the room.
pub fn parse(
    src: &[u8],
    names: &mut [u8],
    blocks: &mut [i8],
    indexes: &mut [i16],
    firsts: &mut [u16],
    widths: &mut [u16],
    values: &mut [u32],
) -> Result<Cursor, Stopped>
    ensures { answer result (room names.new blocks.new indexes.new firsts.new widths.new values.new)
        ≡ parsed src.now (room names.old blocks.old indexes.old firsts.old widths.old values.old) }
{
    let table = rows();
    let mut cells: [u16; 1024] = [0; 1024];
    let mut exps: [u8; 1792] = [0; 1792];
    let mut baps: [u8; 1792] = [0; 1792];
    let mut memo: [u64; 42] = [0; 42];
    let limit = limit_of(src);
    let most = least(
        names.len(),
        blocks.len(),
        indexes.len(),
        firsts.len(),
        widths.len(),
        values.len(),
    );
    let mut room = RecordRoom {
        names,
        blocks,
        indexes,
        firsts,
        widths,
        values,
        most,
    };
    let start = Cursor {
        at: BitPlace(0),
        count: 0,
    };
    each(
        &table, src, &mut room, &mut cells, &mut exps, &mut baps, &mut memo, start, limit, 0, 81,
        0, 1, 0,
    )
}
