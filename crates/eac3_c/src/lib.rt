// The reader's entries for hosts outside: C functions over slices.
#![tactic(auto)]

ghost use Rattle.reading.specs.Room.{room};
ghost use Rattle.eac3.specs.Called.{answered_by, answered, settop};
ghost use Rattle.eac3_c.specs.Given.{Given};

use answer_c::tell;

// One frame at the beginning of `src`. Gives 0 for an accepted frame, or the number of the refusal; the answer says more.
#[unsafe(no_mangle)]
pub extern "C" fn eac3_parse(
    src: &[u8],
    names: &mut [u8],
    blocks: &mut [i8],
    indexes: &mut [i16],
    firsts: &mut [u16],
    widths: &mut [u16],
    values: &mut [u32],
    answer: &mut [u64; 76],
) -> u8
    ensures { Given (answered src.now (room names.old blocks.old indexes.old firsts.old widths.old values.old)) result
        (room names.new blocks.new indexes.new firsts.new widths.new values.new) answer.old answer.new }
{
    let a = eac3::parse(src, names, blocks, indexes, firsts, widths, values);
    tell(answer, a)
}

// The same for frames of at most 1,536 bytes; a longer one is refusal 46.
#[unsafe(no_mangle)]
pub extern "C" fn eac3_parse_settop(
    src: &[u8],
    names: &mut [u8],
    blocks: &mut [i8],
    indexes: &mut [i16],
    firsts: &mut [u16],
    widths: &mut [u16],
    values: &mut [u32],
    answer: &mut [u64; 76],
) -> u8
    ensures { Given (answered_by settop src.now (room names.old blocks.old indexes.old firsts.old widths.old values.old)) result
        (room names.new blocks.new indexes.new firsts.new widths.new values.new) answer.old answer.new }
{
    let a = eac3::parse_settop(src, names, blocks, indexes, firsts, widths, values);
    tell(answer, a)
}
