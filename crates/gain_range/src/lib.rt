// The gain range of a frame as factors.
#![tactic(auto)]

ghost use Rattle.std.specs.Prelude.{◌≡◌};
ghost use Rattle.reading.specs.Room.{room};
ghost use Rattle.gain_range.specs.GainRange.{GainsRead};

use answer::Answer;
use gain::{Gains, gains_in};

// What is told of a frame: the reader's answer, and the four answers about its gain words.
#[derive(Clone, Copy)]
pub struct FrameGains {
    pub answer: Answer,
    pub gains: Gains,
}

// Reads the frame at the beginning of a slice into the lent rooms, and tells the lowest and the highest factor of its
// gain words: of dynrng, compr, dynrng2 and compr2. A refused frame has sent no word: its answer has 0 records.
pub fn gain_range(
    frame: &[u8],
    names: &mut [u8],
    blocks: &mut [i8],
    indexes: &mut [i16],
    firsts: &mut [u16],
    widths: &mut [u16],
    values: &mut [u32],
) -> FrameGains
    ensures { GainsRead frame.now (room names.old blocks.old indexes.old firsts.old widths.old values.old)
        result (room names.new blocks.new indexes.new firsts.new widths.new values.new) }
{
    let read = eac3::parse(frame, names, blocks, indexes, firsts, widths, values);
    let f = read.frame;
    let gains = gains_in(names, values, f.fields);
    FrameGains {
        answer: read,
        gains: gains,
    }
}
