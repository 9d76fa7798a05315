// Reads stored slices at both entries. Of each case on standard input it prints the answer of the full entry, and that of the settop entry with its records.
//
// Standard input, all numbers of two bytes, high byte first: how many cases there are; of each case the room for records, the length of the slice, and the slice.
#![tactic(auto)]

use answer::Answer;
use ingest::cases::{input_pair, input_slice};
use listing::{Records, first_line, text_of};
use print::Text;
use std::io::Result;

// A slice read at the full entry.
fn full(src: &[u8], room: usize) -> Answer {
    let mut names: [u8; 2048] = [0; 2048];
    let mut blocks: [i8; 2048] = [0; 2048];
    let mut indexes: [i16; 2048] = [0; 2048];
    let mut firsts: [u16; 2048] = [0; 2048];
    let mut widths: [u16; 2048] = [0; 2048];
    let mut values: [u32; 2048] = [0; 2048];
    let n = room.min(2048);
    eac3::parse(
        src,
        &mut names[..n],
        &mut blocks,
        &mut indexes,
        &mut firsts,
        &mut widths,
        &mut values,
    )
}

// The same at the settop entry, with the records.
fn settop(src: &[u8], room: usize) -> Records {
    let mut names: [u8; 2048] = [0; 2048];
    let mut blocks: [i8; 2048] = [0; 2048];
    let mut indexes: [i16; 2048] = [0; 2048];
    let mut firsts: [u16; 2048] = [0; 2048];
    let mut widths: [u16; 2048] = [0; 2048];
    let mut values: [u32; 2048] = [0; 2048];
    let n = room.min(2048);
    let answer = eac3::parse_settop(
        src,
        &mut names[..n],
        &mut blocks,
        &mut indexes,
        &mut firsts,
        &mut widths,
        &mut values,
    );
    Records {
        answer,
        names,
        blocks,
        indexes,
        firsts,
        widths,
        values,
    }
}

fn answered(rt: &HostRuntime, answer: Answer) -> Result<()> {
    let mut out: Text<128> = Text::new();
    first_line(&mut out, answer);
    out.write(rt)
}

fn case(rt: &HostRuntime, room: usize, src: &[u8]) -> Result<()> {
    answered(rt, full(src, room))?;
    text_of(settop(src, room)).write(rt)
}

fn one(rt: &HostRuntime) -> Result<()> {
    let room = input_pair(rt)?;
    let src = input_slice(rt)?;
    case(rt, room, src.bytes())
}

fn main(rt: HostRuntime) -> Result<()> {
    let cases = input_pair(&rt)?;
    for _ in 0..cases {
        one(&rt)?;
    }
    Ok(())
}
