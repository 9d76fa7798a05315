// The reader of E-AC-3 syncframes (eac3.rs; A/52 Annex E, TS 102 366 Annex E).
#![tactic(auto)]

ghost use Rattle.reading.specs.Room.{room};
ghost use Rattle.short_frames.specs.ShortFrames.{up_to};
ghost use Rattle.annex.specs.Frame.{eac3};
ghost use Rattle.frame.specs.Parts.{ReadBy};
ghost use Rattle.eac3.specs.Called.{Called, SettopCalled};

use answer::{Answer, refusal};
use bits::ByteCount;
use frame::begun;
use opening::begin;
use syntax::least;
use syntax::room::RecordRoom;

// How many bytes a frame has at most: as many as frmsiz can say, and those of a settop box's frame memory.
const FULL: u16 = 4096;

const SETTOP: u16 = 1536;

// One frame of at most so many bytes, at the beginning of a slice: the frame, or one refusal, and its records in six lent slices. The room is made here: of what
// is lent to a function that gives a room back, nothing would be known afterwards.
fn read(
    src: &[u8],
    names: &mut [u8],
    blocks: &mut [i8],
    indexes: &mut [i16],
    firsts: &mut [u16],
    widths: &mut [u16],
    values: &mut [u32],
    greatest: ByteCount,
) -> Answer
    ensures { ReadBy (up_to greatest.0 eac3) src.now (room names.old blocks.old indexes.old firsts.old widths.old values.old) result (room names.new blocks.new indexes.new firsts.new widths.new values.new) }
{
    let most = least(
        names.len(),
        blocks.len(),
        indexes.len(),
        firsts.len(),
        widths.len(),
        values.len(),
    );
    let mut room = RecordRoom {
        names,
        blocks,
        indexes,
        firsts,
        widths,
        values,
        most,
    };
    match begin(src, &mut room) {
        Ok(_) => begun(src, &mut room, greatest),
        Err(stopped) => refusal(stopped),
    }
}

// The full entry: one frame of any size, at the beginning of a slice: the frame, or one refusal, and its records in six lent slices, as many as the shortest of
// them has room for.
pub fn parse(
    src: &[u8],
    names: &mut [u8],
    blocks: &mut [i8],
    indexes: &mut [i16],
    firsts: &mut [u16],
    widths: &mut [u16],
    values: &mut [u32],
) -> Answer
    ensures { Called src.now (room names.old blocks.old indexes.old firsts.old widths.old values.old) result (room names.new blocks.new indexes.new firsts.new widths.new values.new) }
{
    read(
        src,
        names,
        blocks,
        indexes,
        firsts,
        widths,
        values,
        ByteCount(FULL),
    )
}

// The settop entry: one frame of at most 1,536 bytes; a longer one is refusal 46.
pub fn parse_settop(
    src: &[u8],
    names: &mut [u8],
    blocks: &mut [i8],
    indexes: &mut [i16],
    firsts: &mut [u16],
    widths: &mut [u16],
    values: &mut [u32],
) -> Answer
    ensures { SettopCalled src.now (room names.old blocks.old indexes.old firsts.old widths.old values.old) result (room names.new blocks.new indexes.new firsts.new widths.new values.new) }
{
    read(
        src,
        names,
        blocks,
        indexes,
        firsts,
        widths,
        values,
        ByteCount(SETTOP),
    )
}
