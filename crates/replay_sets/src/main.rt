// Sets many loudness words in stored frames. Of each case on standard input it prints the answer, the records of some, and the
// bytes of the slice as they then are.
//
// Standard input, all numbers of two bytes, high byte first: how many cases there are; of each case 1 where its records are
// listed and else 0, how many places and how many values are lent, 20 places, 20 values, the length of the slice, and the slice.
#![tactic(auto)]

use ingest::cases::{Slice, input_pair, input_slice};
use listing::{Records, first_line, text_of};
use mastering::set_words;
use print::Text;
use std::io::Result;

// The words at the places, set, with room for 2,048 records.
fn set(frame: &mut [u8], places: &[usize], words: &[u32]) -> Records {
    let mut names: [u8; 2048] = [0; 2048];
    let mut blocks: [i8; 2048] = [0; 2048];
    let mut indexes: [i16; 2048] = [0; 2048];
    let mut firsts: [u16; 2048] = [0; 2048];
    let mut widths: [u16; 2048] = [0; 2048];
    let mut values: [u32; 2048] = [0; 2048];
    let answer = set_words(
        frame,
        &mut names,
        &mut blocks,
        &mut indexes,
        &mut firsts,
        &mut widths,
        &mut values,
        places,
        words,
    );
    Records {
        answer,
        names,
        blocks,
        indexes,
        firsts,
        widths,
        values,
    }
}

fn tell(rt: &HostRuntime, listed: usize, r: Records) -> Result<()> {
    if listed == 1 {
        return text_of(r).write(rt);
    }
    let mut out: Text<128> = Text::new();
    first_line(&mut out, r.answer);
    out.write(rt)
}

fn case(
    rt: &HostRuntime,
    listed: usize,
    places: &[usize],
    words: &[u32],
    frame: &mut [u8],
) -> Result<()> {
    tell(rt, listed, set(frame, places, words))?;
    rt.write_all(frame)
}

fn twenty_places(rt: &HostRuntime) -> Result<[usize; 20]> {
    let mut places = [0usize; 20];
    for place in places.iter_mut() {
        *place = input_pair(rt)?;
    }
    Ok(places)
}

fn twenty_words(rt: &HostRuntime) -> Result<[u32; 20]> {
    let mut words = [0u32; 20];
    for word in words.iter_mut() {
        *word = input_pair(rt)? as u32;
    }
    Ok(words)
}

fn one(rt: &HostRuntime) -> Result<()> {
    let listed = input_pair(rt)?;
    let lent = input_pair(rt)?.min(20);
    let beside = input_pair(rt)?.min(20);
    let places = twenty_places(rt)?;
    let words = twenty_words(rt)?;
    let Slice { mut buffer, size } = input_slice(rt)?;
    case(
        rt,
        listed,
        &places[..lent],
        &words[..beside],
        &mut buffer[..size],
    )
}

fn main(rt: HostRuntime) -> Result<()> {
    let cases = input_pair(&rt)?;
    for _ in 0..cases {
        one(&rt)?;
    }
    Ok(())
}
