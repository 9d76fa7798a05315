// The reads of the recording cursor: elements, spans, and bits inside a span (syntax.rs).
#![tactic(auto)]

ghost use Rattle.std.specs.Prelude.{◌≡◌, List, ℕ, ◌*◌, ◌≤◌, length, IfOk, IfErr};
ghost use Rattle.syntax.specs.Records.{part_of, outcome};
ghost use Rattle.syntax.specs.Rooms.{room_of, SameSlices};
ghost use Rattle.reads.specs.Reads.{taking, seen, read_of, span_of, raw_of, close_of};

use bits::{BitPlace, past};
use refusals::Refusal;
use syntax::room::RecordRoom;
use syntax::{Cursor, Label, Stopped};

// A cursor and the value that was read.
#[derive(Clone, Copy)]
pub struct Taken {
    pub cursor: Cursor,
    pub value: u32,
}

// An element of `width` bits: read and recorded. It is truncated where it passes the limit; then it may find no room.
pub fn read(
    src: &[u8],
    room: &mut RecordRoom<'_>,
    cur: Cursor,
    limit: BitPlace,
    label: Label,
    width: u16,
) -> Result<Taken, Stopped>
    requires { (width ≤ 32) × (limit.0 ≤ 8 * length src.now) }
    ensures read { taking result (room_of room.new) ≡ read_of src.now limit.0 (part_of label) width cur.at.0 cur.count (room_of room.old) }
    ensures same { SameSlices room.old room.new }
{
    if past(cur.at, width, limit) {
        return Err(cur.stop(Refusal::Truncated));
    }
    let value = bits::get(src, cur.at, width);
    let Some(count) = room.record(cur.count, label, cur.at, width, value) else {
        return Err(cur.stop(Refusal::NoRoom));
    };
    let at = BitPlace(cur.at.0 + width);
    Ok(Taken {
        cursor: Cursor { at, count },
        value,
    })
}

// `width` bits as one record, not looked at.
pub fn span(
    room: &mut RecordRoom<'_>,
    cur: Cursor,
    limit: BitPlace,
    label: Label,
    width: u16,
) -> Result<Cursor, Stopped>
    ensures span { (s : List ℕ) → outcome result 0 (room_of room.new) ≡ span_of s limit.0 (part_of label) width cur.at.0 cur.count (room_of room.old) }
    ensures same { SameSlices room.old room.new }
{
    if past(cur.at, width, limit) {
        return Err(cur.stop(Refusal::Truncated));
    }
    let next = BitPlace(cur.at.0 + width);
    room.keep(cur, label, width, 0, next)
}

// `width` bits inside a span: read, not recorded.
pub fn raw(src: &[u8], cur: Cursor, limit: BitPlace, width: u16) -> Result<Taken, Stopped>
    requires { (width ≤ 32) × (limit.0 ≤ 8 * length src.now) }
    ensures seen { seen result ≡ raw_of src.now limit.0 width cur.at.0 }
    ensures count { IfOk result (λ t. t.cursor.count ≡ cur.count) }
    ensures count_then { IfErr result (λ e. e.count ≡ cur.count) }
{
    if past(cur.at, width, limit) {
        return Err(cur.stop(Refusal::Truncated));
    }
    let value = bits::get(src, cur.at, width);
    let at = BitPlace(cur.at.0 + width);
    Ok(Taken {
        cursor: Cursor {
            at,
            count: cur.count,
        },
        value,
    })
}

// A span from `first` up to the cursor, recorded now that it closes.
pub fn close(
    room: &mut RecordRoom<'_>,
    cur: Cursor,
    label: Label,
    first: BitPlace,
) -> Result<Cursor, Stopped>
    requires { first.0 ≤ cur.at.0 }
    ensures closed { outcome result 0 (room_of room.new) ≡ close_of (part_of label) first.0 cur.at.0 cur.count (room_of room.old) }
    ensures same { SameSlices room.old room.new }
{
    let begun = Cursor {
        at: first,
        count: cur.count,
    };
    room.keep(begun, label, cur.at.0 - first.0, 0, cur.at)
}
