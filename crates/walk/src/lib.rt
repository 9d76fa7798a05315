// A bitstream syntax, run by a lent table of rows: one loop over the rows, and one over the turns of a loop.
#![tactic(auto)]

ghost use Rattle.slots.specs.Held.{bins};
ghost use Rattle.cells.specs.Cells.{state};
ghost use Rattle.syntax.specs.Rooms.{room_of, SameSlices};
ghost use Rattle.walk.specs.Stands.{Stand, Turned};

use bits::BitPlace;
use cells::put;
use derivations::derive;
use inputs::{gather, take};
use rows::steps::{deal, holds, last_of, loop_of, mark, more_of, onward, rows_of, stop_at};
use syntax::room::RecordRoom;
use syntax::{Cursor, Stopped};

// The rows from `from` to `to`, once for each number from i up to n, which stands in a cell meanwhile.
pub fn each(
    table: &[u64],
    src: &[u8],
    room: &mut RecordRoom<'_>,
    cells: &mut [u16; 1024],
    exps: &mut [u8; 1792],
    baps: &mut [u8; 1792],
    memo: &mut [u64; 42],
    start: Cursor,
    limit: BitPlace,
    from: usize,
    to: usize,
    i: u32,
    n: u32,
    counter: usize,
) -> Result<Cursor, Stopped>
    requires { Stand src.now limit.0 table.now (bins exps.old baps.old) memo.old from to }
    ensures turned { Turned src.now limit.0 table.now from to i n counter start.at.0 start.count (state cells.old (bins exps.old baps.old)) (room_of room.old)
        result (state cells.new (bins exps.new baps.new)) (room_of room.new) memo.new }
    ensures same { SameSlices room.old room.new }
{
    let mut cur = start;
    for j in i..n {
        put(cells, counter, j);
        let mut pc = from;
        let mut left: u32 = 0;
        let mut last: u32 = 0;
        // Stays: a `while`, since each row says how many rows are passed, and an element is read again in its place.
        while pc < to {
            let w = table[pc];
            let kind = w % 16;
            if kind / 2 == 4 {
                // a condition, 8 or 9
                if holds(w, cells) {
                    pc += 1;
                } else {
                    pc += 1 + rows_of(w);
                }
            } else if kind < 4 {
                last = last_of(w, left, last, cells);
                let more = more_of(w, left, last);
                if more == 0 {
                    pc += 1;
                } else {
                    mark(w, cells, last - more);
                    cur = take(src, room, cells, cur, limit, w)?;
                    left = more - 1;
                    pc = onward(left, pc);
                }
            } else if kind % 15 < 8 {
                // the mantissas, 4 to 7, or a set of exponents, 15
                cur = gather(src, room, cells, exps, baps, memo, cur, limit, w)?;
                pc += 1;
            } else if kind == 12 {
                if let Err(refusal) = derive((w / 32 % 256) as u8, cells, exps, baps, memo) {
                    return Err(cur.stop(refusal));
                }
                pc += 1;
            } else if kind < 14 {
                if let Err(refusal) = deal(w, cur.at, cells) {
                    return Err(Stopped {
                        refusal,
                        at: stop_at(w, cur.at, cells),
                        count: cur.count,
                    });
                }
                pc += 1;
            } else {
                let l = loop_of(w, cells);
                let end = pc + 1 + l.rows;
                cur = each(
                    table,
                    src,
                    room,
                    cells,
                    exps,
                    baps,
                    memo,
                    cur,
                    limit,
                    pc + 1,
                    end,
                    l.from,
                    l.to,
                    l.counter,
                )?;
                pc = end;
            }
        }
    }
    Ok(cur)
}
