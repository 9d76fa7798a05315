// Sets loudness words in stored frames. Of each case on standard input it prints the answer, the records of some, and the
// bytes of the slice as they then are.
//
// Standard input, all numbers of two bytes, high byte first: how many cases there are; of each case 1 where its records are
// listed and else 0, the place, the value, the length of the slice, and the slice.
#![tactic(auto)]

use ingest::cases::{Slice, input_pair, input_slice};
use listing::{Records, first_line, text_of};
use mastering::set_word;
use print::Text;
use std::io::Result;

// The word at a place, set, with room for 2,048 records.
fn set(frame: &mut [u8], place: usize, value: u32) -> Records {
    let mut names: [u8; 2048] = [0; 2048];
    let mut blocks: [i8; 2048] = [0; 2048];
    let mut indexes: [i16; 2048] = [0; 2048];
    let mut firsts: [u16; 2048] = [0; 2048];
    let mut widths: [u16; 2048] = [0; 2048];
    let mut values: [u32; 2048] = [0; 2048];
    let answer = set_word(
        frame,
        &mut names,
        &mut blocks,
        &mut indexes,
        &mut firsts,
        &mut widths,
        &mut values,
        place,
        value,
    );
    Records {
        answer,
        names,
        blocks,
        indexes,
        firsts,
        widths,
        values,
    }
}

fn tell(rt: &HostRuntime, listed: usize, r: Records) -> Result<()> {
    if listed == 1 {
        return text_of(r).write(rt);
    }
    let mut out: Text<128> = Text::new();
    first_line(&mut out, r.answer);
    out.write(rt)
}

fn case(rt: &HostRuntime, listed: usize, place: usize, value: u32, frame: &mut [u8]) -> Result<()> {
    tell(rt, listed, set(frame, place, value))?;
    rt.write_all(frame)
}

fn one(rt: &HostRuntime) -> Result<()> {
    let listed = input_pair(rt)?;
    let place = input_pair(rt)?;
    let value = input_pair(rt)?;
    let Slice { mut buffer, size } = input_slice(rt)?;
    case(rt, listed, place, value as u32, &mut buffer[..size])
}

fn main(rt: HostRuntime) -> Result<()> {
    let cases = input_pair(&rt)?;
    for _ in 0..cases {
        one(&rt)?;
    }
    Ok(())
}
