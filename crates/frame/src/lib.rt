// One frame whose opening is good: header, body and tail.
#![tactic(auto)]

ghost use Rattle.std.specs.Prelude.{◌≡◌, ◌+◌, ◌*◌, ◌%◌, ◌≤◌};
ghost use Rattle.syntax.specs.Rooms.{room_of, SameSlices};
ghost use Rattle.slots.specs.Held.{bins};
ghost use Rattle.cells.specs.Cells.{state, cell_of};
ghost use Rattle.cells.specs.Names.{FRMSIZ as frmsiz};
ghost use Rattle.annex.specs.Frame.{eac3};
ghost use Rattle.opening.specs.Opened.{Begun};
ghost use Rattle.short_frames.specs.ShortFrames.{up_to};
ghost use Rattle.frame.specs.Parts.{Headed, Framed, ReadBy};

use annex::annex;
use answer::{Answer, answer_of, refusal};
use bits::{BitPlace, ByteCount};
use cells::cell_of;
use cells::numbers::FRMSIZ;
use short_frames::unfit;
use syntax::room::RecordRoom;
use syntax::{Cursor, Stopped};
use tail::tail_cells;
use walk::each;

// Where the rows of the header end, those of the body and those of the tail; each part is run once.
const AFTER_HEADER: usize = 6;

const AFTER_BODY: usize = 494;

const AFTER_TAIL: usize = 510;

const ONCE: u32 = 1;

// How many bytes a frame has, by its header.
fn bytes_of(cells: &[u16; 1024]) -> ByteCount
    ensures { (result.0 ≡ 2 * (cell_of cells.now frmsiz % 2048 + 1)) × (result.0 ≤ 4096) }
{
    ByteCount(2 * (cell_of(cells, FRMSIZ) % 2048 + 1))
}

// The frame after its header, if it is not above the greatest and the slice holds it: the body, and then the tail.
fn framed(
    src: &[u8],
    room: &mut RecordRoom<'_>,
    table: &[u64; 510],
    cells: &mut [u16; 1024],
    exps: &mut [u8; 1792],
    baps: &mut [u8; 1792],
    memo: &mut [u64; 42],
    greatest: ByteCount,
    cur: Cursor,
) -> Result<Cursor, Stopped>
    requires { Headed table.now cells.old (bins exps.old baps.old) memo.old }
    ensures framed { Framed greatest.0 src.now cur (state cells.old (bins exps.old baps.old)) (room_of room.old) result cells.new (room_of room.new) }
    ensures same { SameSlices room.old room.new }
{
    let bytes = bytes_of(cells);
    if let Some(refusal) = unfit(greatest, bytes, src.len()) {
        return Err(cur.stop(refusal));
    }
    let limit = bytes.bits();
    let end = each(
        table,
        src,
        room,
        cells,
        exps,
        baps,
        memo,
        cur,
        limit,
        AFTER_HEADER,
        AFTER_BODY,
        0,
        ONCE,
        0,
    )?;
    let mut ends = tail_cells(src, limit);
    each(
        table, src, room, &mut ends, exps, baps, memo, end, limit, AFTER_BODY, AFTER_TAIL, 0, ONCE,
        0,
    )
}

// A frame of at most so many bytes, where the slice begins like one: table, cells and bins are laid, and header, body and tail are run.
pub fn begun(src: &[u8], room: &mut RecordRoom<'_>, greatest: ByteCount) -> Answer
    requires { Begun src.now }
    ensures read { ReadBy (up_to greatest.0 eac3) src.now (room_of room.old) result (room_of room.new) }
    ensures same { SameSlices room.old room.new }
{
    let table = annex();
    let mut cells: [u16; 1024] = [0; 1024];
    let mut exps: [u8; 1792] = [0; 1792];
    let mut baps: [u8; 1792] = [0; 1792];
    let mut memo: [u64; 42] = [0; 42];
    let start = Cursor {
        at: BitPlace(0),
        count: 0,
    };
    let header = each(
        &table,
        src,
        room,
        &mut cells,
        &mut exps,
        &mut baps,
        &mut memo,
        start,
        BitPlace(48),
        0,
        AFTER_HEADER,
        0,
        ONCE,
        0,
    );
    match header {
        Ok(cur) => {
            let read = framed(
                src, room, &table, &mut cells, &mut exps, &mut baps, &mut memo, greatest, cur,
            );
            answer_of(read, &cells)
        }
        Err(stopped) => refusal(stopped),
    }
}
