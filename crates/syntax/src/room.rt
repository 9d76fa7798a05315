// The room for records: six lent slices side by side, one for each part of a record.
ghost use Rattle.std.specs.Prelude.{◌≡◌, ◌<◌, length, min};

use crate::{Cursor, Label, Stopped, least};
use bits::BitPlace;
use refusals::Refusal;

// Six slices, and how many records fit into the shortest of them.
#[derive(Drop)]
pub struct RecordRoom<'a> {
    pub names: &'a mut [u8],
    pub blocks: &'a mut [i8],
    pub indexes: &'a mut [i16],
    pub firsts: &'a mut [u16],
    pub widths: &'a mut [u16],
    pub values: &'a mut [u32],
    pub most: usize,
    ghost shortest: { most ≡ min (length names.now) (min (length blocks.now) (min (length indexes.now) (min (length firsts.now) (min (length widths.now) (length values.now))))) },
}

impl<'a> RecordRoom<'a> {
    ghost use Rattle.reading.specs.Run.{field_of};
    ghost use Rattle.reading.specs.Room.{room};
    ghost use Rattle.syntax.specs.Records.{part_of, outcome, recorded, record_of, keep_of};
    ghost use Rattle.syntax.specs.Rooms.{room_of, SameSlices, Lends};

    // The room that six slices give.
    pub fn new(
        names: &'a mut [u8],
        blocks: &'a mut [i8],
        indexes: &'a mut [i16],
        firsts: &'a mut [u16],
        widths: &'a mut [u16],
        values: &'a mut [u32],
    ) -> RecordRoom<'a>
        ensures lent { Lends names.entry blocks.entry indexes.entry firsts.entry widths.entry values.entry result }
        ensures room { room_of result ≡ room names.old blocks.old indexes.old firsts.old widths.old values.old }
    {
        let most = least(
            names.len(),
            blocks.len(),
            indexes.len(),
            firsts.len(),
            widths.len(),
            values.len(),
        );
        RecordRoom {
            names,
            blocks,
            indexes,
            firsts,
            widths,
            values,
            most,
        }
    }

    // Puts a record at the place `n`: how many records there are then, or none where there is no room.
    pub fn record(
        &mut self,
        n: usize,
        label: Label,
        first: BitPlace,
        width: u16,
        value: u32,
    ) -> Option<usize>
        ensures recorded { recorded result (room_of self.new) ≡ record_of (room_of self.old) n (field_of (part_of label) first.0 width value) }
        ensures same { SameSlices self.old self.new }
    {
        if self.most <= n {
            return None;
        }
        self.names[n] = label.name;
        self.blocks[n] = label.block;
        self.indexes[n] = label.index;
        self.firsts[n] = first.0;
        self.widths[n] = width;
        self.values[n] = value;
        Some(n + 1)
    }

    // A record from the cursor's place on, after which the reading goes on at `next`.
    pub fn keep(
        &mut self,
        cur: Cursor,
        label: Label,
        width: u16,
        value: u32,
        next: BitPlace,
    ) -> Result<Cursor, Stopped>
        ensures kept { outcome result value (room_of self.new) ≡ keep_of (field_of (part_of label) cur.at.0 width value) next.0 cur.count (room_of self.old) }
        ensures same { SameSlices self.old self.new }
    {
        match self.record(cur.count, label, cur.at, width, value) {
            Some(count) => Ok(Cursor { at: next, count }),
            None => Err(cur.stop(Refusal::NoRoom)),
        }
    }
}
