// A reader that holds the caller's slice and its bit place, and offers the reads of crate `reads`: `raw`, `read`, `span`
// and `close`.
#![tactic(auto)]

ghost use Rattle.std.specs.Prelude.{◌≡◌, ◌*◌, ◌≤◌, length};
ghost use Rattle.syntax.specs.Records.{part_of, outcome};
ghost use Rattle.syntax.specs.Rooms.{room_of, SameSlices};
ghost use Rattle.reads.specs.Reads.{taking, seen, read_of, span_of, raw_of, close_of};

use bits::BitPlace;
use reads::Taken;
use syntax::room::RecordRoom;
use syntax::{Cursor, Label, Stopped};

#[derive(Clone, Copy)]
pub struct Reader<'a> {
    pub src: &'a [u8],
    pub at: BitPlace,
}

impl<'a> Reader<'a> {
    // A reader of the slice that stands at a place.
    pub fn over(src: &'a [u8], at: BitPlace) -> Reader<'a>
        ensures { (result.src ≡ src.entry) × (result.at ≡ at) }
    {
        Reader { src, at }
    }

    // `width` bits inside a span: read, not recorded.
    pub fn raw(self, limit: BitPlace, width: u16) -> Result<Taken, Stopped>
        requires { (width ≤ 32) × (limit.0 ≤ 8 * length self.src.now) }
        ensures { seen result ≡ raw_of self.entry.src.now limit.0 width self.entry.at.0 }
    {
        let here = Cursor {
            at: self.at,
            count: 0,
        };
        reads::raw(self.src, here, limit, width)
    }

    // An element of `width` bits: read and recorded.
    pub fn read(
        self,
        room: &mut RecordRoom<'_>,
        count: usize,
        limit: BitPlace,
        label: Label,
        width: u16,
    ) -> Result<Taken, Stopped>
        requires { (width ≤ 32) × (limit.0 ≤ 8 * length self.src.now) }
        ensures read { taking result (room_of room.new) ≡ read_of self.entry.src.now limit.0 (part_of label) width self.entry.at.0 count (room_of room.old) }
        ensures same { SameSlices room.old room.new }
    {
        let cur = Cursor { at: self.at, count };
        reads::read(self.src, room, cur, limit, label, width)
    }

    // `width` bits as one record, not looked at.
    pub fn span(
        self,
        room: &mut RecordRoom<'_>,
        count: usize,
        limit: BitPlace,
        label: Label,
        width: u16,
    ) -> Result<Cursor, Stopped>
        ensures span { outcome result 0 (room_of room.new) ≡ span_of self.entry.src.now limit.0 (part_of label) width self.entry.at.0 count (room_of room.old) }
        ensures same { SameSlices room.old room.new }
    {
        let begin = Cursor { at: self.at, count };
        reads::span(room, begin, limit, label, width)
    }

    // A span from `first` up to the reader's place, recorded now that it closes.
    pub fn close(
        self,
        room: &mut RecordRoom<'_>,
        count: usize,
        first: BitPlace,
        label: Label,
    ) -> Result<Cursor, Stopped>
        requires { first.0 ≤ self.at.0 }
        ensures closed { outcome result 0 (room_of room.new) ≡ close_of (part_of label) first.0 self.entry.at.0 count (room_of room.old) }
        ensures same { SameSlices room.old room.new }
    {
        let end = Cursor { at: self.at, count };
        reads::close(room, end, label, first)
    }
}
