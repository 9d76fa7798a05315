// Rows that read: bits are looked at, and what is found is recorded and stored.
#![tactic(auto)]

ghost use Rattle.std.specs.Prelude.{◌≡◌, ◌*◌, ◌%◌, ◌≤◌, ◌<◌, length};
ghost use Rattle.syntax.specs.Rooms.{room_of, SameSlices};
ghost use Rattle.slots.specs.Held.{bins};
ghost use Rattle.cells.specs.Cells.{state, puts_in};
ghost use Rattle.inputs.specs.Reads.{Wide, bits_of, passed_of, Sees, Takes, Opens, Gathers, set_by};

use bits::{BitPlace, bits_at, past};
use cells::numbers::ABSEXP;
use cells::{cell_of, put};
use derivations::block_mantissas::mantissas_in;
use derivations::sets::{end_of, start_of, strategy_of};
use exponents::set::{Set, read_exponents};
use kept::stale;
use recording::{Look, keep, label_of};
use refusals::{Refusal, Refused};
use rows::fields::{keep_of, slot_of, width_of};
use syntax::room::RecordRoom;
use syntax::{Cursor, Stopped};

// The bits of an element; those of a span.
fn element(src: &[u8], at: BitPlace, limit: BitPlace, width: u16) -> Result<Look, Refused>
    requires { (width ≤ 25) × (limit.0 ≤ 8 * length src.now) }
    ensures { result ≡ bits_of src.now limit.0 at.0 width }
{
    if past(at, width, limit) {
        return Err(Refused {
            refusal: Refusal::Truncated,
            place: at,
        });
    }
    let value = bits_at(src, at, width);
    Ok(Look {
        place: BitPlace(at.0 + width),
        width,
        value,
        stored: value,
    })
}

fn span(at: BitPlace, limit: BitPlace, width: u16) -> Result<Look, Refused>
    ensures { result ≡ passed_of limit.0 at.0 width }
{
    if past(at, width, limit) {
        return Err(Refused {
            refusal: Refusal::Truncated,
            place: at,
        });
    }
    Ok(Look {
        place: BitPlace(at.0 + width),
        width,
        value: 0,
        stored: 0,
    })
}

// What an element or a span finds at a place.
fn seek(
    src: &[u8],
    cells: &[u16; 1024],
    at: BitPlace,
    limit: BitPlace,
    w: u64,
) -> Result<Look, Refused>
    requires { (Wide src.now limit.0 w) × (w % 16 < 4) }
    ensures { Sees src.now limit.0 w cells.now at.0 result }
{
    if w % 16 < 3 {
        return element(src, at, limit, width_of(w));
    }
    span(
        at,
        limit,
        cell_of(cells, (w / 17592186044416 % 1024) as usize),
    )
}

// What an element or a span reads, once.
pub fn take(
    src: &[u8],
    room: &mut RecordRoom<'_>,
    cells: &mut [u16; 1024],
    cur: Cursor,
    limit: BitPlace,
    w: u64,
) -> Result<Cursor, Stopped>
    requires { (Wide src.now limit.0 w) × (w % 16 < 4) }
    ensures taken { Takes src.now limit.0 w cells.old cur.at.0 cur.count (room_of room.old) result cells.new (room_of room.new) }
    ensures same { SameSlices room.old room.new }
{
    let found = seek(src, cells, cur.at, limit, w);
    keep(room, cells, cur, w, found)
}

// The set of exponents of a row.
fn set_of(w: u64, cells: &[u16; 1024]) -> Set
    ensures { (result ≡ set_by w cells.now) × (result.absexp ≤ 15) }
{
    let slot = slot_of(w, cells);
    Set {
        label: label_of(w, cells),
        slot,
        strategy: (strategy_of(cells, slot) % 256) as u8,
        start: start_of(cells, slot),
        end: end_of(cells, slot),
        absexp: (cell_of(cells, ABSEXP) % 16) as u8,
    }
}

// Seven numbers, put into cells from the cell k on.
fn tell(cells: &mut [u16; 1024], k: usize, numbers: [u16; 7])
    requires { k ≤ 590839 }
    ensures { cells.new ≡ puts_in cells.old k numbers }
{
    for (i, number) in numbers.iter().enumerate() {
        put(cells, k + i, u32::from(*number));
    }
}

// What the mantissas of a block read, or a set of exponents. What their walk tells besides the tags is put behind them.
pub fn gather(
    src: &[u8],
    room: &mut RecordRoom<'_>,
    cells: &mut [u16; 1024],
    exps: &mut [u8; 1792],
    baps: &[u8; 1792],
    memo: &mut [u64; 42],
    cur: Cursor,
    limit: BitPlace,
    w: u64,
) -> Result<Cursor, Stopped>
    requires { Opens src.now limit.0 w memo.old (bins exps.old baps.now) }
    ensures gathered { Gathers src.now limit.0 w (state cells.old (bins exps.old baps.now)) cur.at.0 cur.count (room_of room.old)
        result (state cells.new (bins exps.new baps.now)) (room_of room.new) memo.new }
    ensures same { SameSlices room.old room.new }
{
    if w % 16 >= 8 {
        let set = set_of(w, cells);
        stale(memo, set.slot);
        return read_exponents(src, room, exps, cur, limit, set);
    }
    let taken = match mantissas_in(src, cells, baps, memo, cur.at, limit) {
        Ok(taken) => taken,
        Err(refused) => return keep(room, cells, cur, w, Err(refused)),
    };
    let found = Look {
        place: taken.place,
        width: taken.place.0.saturating_sub(cur.at.0),
        value: 0,
        stored: u32::from(taken.tags),
    };
    let k = keep_of(w, cells);
    let next = keep(room, cells, cur, w, Ok(found))?;
    tell(cells, k + 1, taken.bits);
    Ok(next)
}
