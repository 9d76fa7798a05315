// The entry that finds a frame, for hosts outside: a C function over slices and numbers.
#![tactic(auto)]

ghost use Rattle.reading.specs.Room.{room};
ghost use Rattle.search_c.specs.Given.{FoundGiven};

use answer_c::tell;
use search::find;

// The first position of `capture`, from `start` on and at most `most` of them, that holds a frame. Gives 0, or the number
// of the refusal; the answer says more, with the position and the number tried at its end.
#[unsafe(no_mangle)]
pub extern "C" fn eac3_find(
    capture: &[u8],
    names: &mut [u8],
    blocks: &mut [i8],
    indexes: &mut [i16],
    firsts: &mut [u16],
    widths: &mut [u16],
    values: &mut [u32],
    start: usize,
    most: usize,
    answer: &mut [u64; 78],
) -> u8
    ensures { FoundGiven capture.now (room names.old blocks.old indexes.old firsts.old widths.old values.old) start most result
        (room names.new blocks.new indexes.new firsts.new widths.new values.new) answer.old answer.new }
{
    let found = find(
        capture, names, blocks, indexes, firsts, widths, values, start, most,
    );
    let number = tell(answer, found.answer);
    answer[76] = found.position as u64;
    answer[77] = found.tried as u64;
    number
}
