// Loudness words set in a lent frame, by their places in the list: up to 16 or none, and one.
#![tactic(auto)]

ghost use Rattle.std.specs.Prelude.{◌≡◌, ◌≤◌, ◌<◌, length};
ghost use Rattle.reading.specs.Room.{room};
ghost use Rattle.words.specs.Told.{Told};
ghost use Rattle.mastering.specs.SetWord.{WordSet};
ghost use Rattle.mastering.specs.SetWords.{items_of, item_number, words_number, worded_to, values_to, bytes_to, held_to, WordsSet};
ghost use Rattle.mastering.specs.Listed.{Listed, Settable};

use answer::{Answer, Verdict, refusal};
use bits::{BitPlace, ByteCount};
use crc::set_crc2;
use refusals::Refusal;
use syntax::Stopped;
use words::{fits, word_width, write_word};

// Whether an item may be set to a value, in a list of so many records: its place may be beyond the list, an earlier item may
// list it, and the record there may be none of the six or the value too wide.
fn item_fits(
    names: &[u8],
    count: usize,
    places: &[usize],
    item: usize,
    value: u32,
) -> Result<(), Refusal>
    requires { (count ≤ length names.now) × (item < length places.now) }
    ensures { Told result (item_number names.now count places.now item value) }
{
    let place = places[item];
    if count <= place {
        return Err(Refusal::NoSuchRecord);
    }
    if places[..item].contains(&place) {
        return Err(Refusal::ListedTwice);
    }
    fits(names[place], value)
}

// Whether the items may be set: there may be more than 16, and each must fit. As many items as the shorter list has.
fn words_fit(names: &[u8], count: usize, places: &[usize], words: &[u32]) -> Result<(), Refusal>
    requires { count ≤ length names.now }
    ensures { Told result (words_number names.now count places.now words.now) }
{
    let items = places.len().min(words.len());
    if 16 < items {
        return Err(Refusal::TooManyItems);
    }
    for item in 0..items {
        item_fits(names, count, places, item, words[item])?;
    }
    Ok(())
}

// Sets the words of the items in a frame, and their values in its list.
fn write_words(
    frame: &mut [u8],
    names: &[u8],
    firsts: &[u16],
    values: &mut [u32],
    places: &[usize],
    words: &[u32],
)
    requires { Settable (length frame.old) names.now firsts.now (length values.old) places.now words.now (items_of places.now words.now) }
    ensures { (frame.new ≡ worded_to frame.old names.now firsts.now places.now words.now (items_of places.now words.now))
        × (values.new ≡ values_to values.old places.now words.now (items_of places.now words.now)) }
{
    for (&place, &word) in places.iter().zip(words) {
        let width = word_width(names[place]).unwrap();
        write_word(frame, BitPlace(firsts[place]), width, word);
        values[place] = word;
    }
}

// Sets the words of all items, and crc2, in a frame of so many bytes with a list of so many records, and their values in the
// list; under a refusal nothing changes.
fn rewrite(
    frame: &mut [u8],
    names: &[u8],
    firsts: &[u16],
    values: &mut [u32],
    bytes: ByteCount,
    count: usize,
    places: &[usize],
    words: &[u32],
) -> Result<(), Refusal>
    requires { Listed (length frame.old) names.now firsts.now (length values.old) bytes.0 count }
    ensures { let number = words_number names.now count places.now words.now in
        Told result number
        × (frame.new ≡ bytes_to number frame.old names.now firsts.now bytes.0 places.now words.now)
        × (values.new ≡ held_to number frame.old names.now firsts.now values.old bytes.0 count places.now words.now) }
{
    words_fit(names, count, places, words)?;
    write_words(frame, names, firsts, values, places, words);
    let crc2 = set_crc2(frame, bytes);
    values[count - 1] = crc2 as u32;
    Ok(())
}

// Sets up to 16 loudness words of the frame at the beginning of a slice, each by its place in the list, and puts crc2 right;
// or none of them. The items are places and values side by side, as many as the shorter has. The answer and the records are
// those of the new frame. A refusal changes no byte: those of the reader; 48, more than 16 items; then by items in order 41,
// the place is beyond the list; 47, an earlier item lists it; 42, the record there is not one of the six words; 43, the
// value is too wide.
pub fn set_words(
    frame: &mut [u8],
    names: &mut [u8],
    blocks: &mut [i8],
    indexes: &mut [i16],
    firsts: &mut [u16],
    widths: &mut [u16],
    values: &mut [u32],
    places: &[usize],
    words: &[u32],
) -> Answer
    ensures { WordsSet frame.old (room names.old blocks.old indexes.old firsts.old widths.old values.old) places.now words.now
        result frame.new (room names.new blocks.new indexes.new firsts.new widths.new values.new) }
{
    let read = eac3::parse(frame, names, blocks, indexes, firsts, widths, values);
    let f = read.frame;
    match read.verdict {
        Verdict::Refused(_, _, _) => read,
        Verdict::Accepted => match rewrite(
            frame, names, firsts, values, f.bytes, f.fields, places, words,
        ) {
            Ok(()) => read,
            Err(why) => refusal(Stopped {
                refusal: why,
                at: BitPlace(0),
                count: f.fields,
            }),
        },
    }
}

// Sets one loudness word: the one item of this place and value.
pub fn set_word(
    frame: &mut [u8],
    names: &mut [u8],
    blocks: &mut [i8],
    indexes: &mut [i16],
    firsts: &mut [u16],
    widths: &mut [u16],
    values: &mut [u32],
    place: usize,
    value: u32,
) -> Answer
    ensures { WordSet frame.old (room names.old blocks.old indexes.old firsts.old widths.old values.old) place value
        result frame.new (room names.new blocks.new indexes.new firsts.new widths.new values.new) }
{
    set_words(
        frame,
        names,
        blocks,
        indexes,
        firsts,
        widths,
        values,
        &[place],
        &[value],
    )
}
