// The entries that set loudness words, for hosts outside: C functions over slices and numbers.
#![tactic(auto)]

ghost use Rattle.reading.specs.Room.{room};
ghost use Rattle.mastering_c.specs.Given.{WordGiven, WordsGiven};

use answer_c::tell;
use mastering::{set_word, set_words};

// Sets one loudness word of the frame at the beginning of `frame`, and crc2. Gives 0, or the number of the refusal; the
// answer says more.
#[unsafe(no_mangle)]
pub extern "C" fn eac3_set_word(
    frame: &mut [u8],
    names: &mut [u8],
    blocks: &mut [i8],
    indexes: &mut [i16],
    firsts: &mut [u16],
    widths: &mut [u16],
    values: &mut [u32],
    place: usize,
    value: u32,
    answer: &mut [u64; 76],
) -> u8
    ensures { WordGiven frame.old (room names.old blocks.old indexes.old firsts.old widths.old values.old) place value result frame.new
        (room names.new blocks.new indexes.new firsts.new widths.new values.new) answer.old answer.new }
{
    let a = set_word(
        frame, names, blocks, indexes, firsts, widths, values, place, value,
    );
    tell(answer, a)
}

// Sets up to 16 loudness words of the frame at the beginning of `frame`, and crc2, or none: each word by its place in the
// list, with the value beside it. Gives 0, or the number of the refusal; the answer says more.
#[unsafe(no_mangle)]
pub extern "C" fn eac3_set_words(
    frame: &mut [u8],
    names: &mut [u8],
    blocks: &mut [i8],
    indexes: &mut [i16],
    firsts: &mut [u16],
    widths: &mut [u16],
    values: &mut [u32],
    places: &[usize],
    words: &[u32],
    answer: &mut [u64; 76],
) -> u8
    ensures { WordsGiven frame.old (room names.old blocks.old indexes.old firsts.old widths.old values.old) places.now words.now result frame.new
        (room names.new blocks.new indexes.new firsts.new widths.new values.new) answer.old answer.new }
{
    let a = set_words(
        frame, names, blocks, indexes, firsts, widths, values, places, words,
    );
    tell(answer, a)
}
