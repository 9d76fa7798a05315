// Tells the gain range of stored slices, as `gains` tells that of one frame.
//
// Standard input, all numbers of two bytes, high byte first: how many cases there are; of each case the room for records, the length of the slice, and the slice.
#![tactic(auto)]

use gain_range::{FrameGains, gain_range};
use ingest::cases::{input_pair, input_slice};
use std::io::Result;

fn gains_of(src: &[u8], room: usize) -> FrameGains {
    let mut names: [u8; 2048] = [0; 2048];
    let mut blocks: [i8; 2048] = [0; 2048];
    let mut indexes: [i16; 2048] = [0; 2048];
    let mut firsts: [u16; 2048] = [0; 2048];
    let mut widths: [u16; 2048] = [0; 2048];
    let mut values: [u32; 2048] = [0; 2048];
    let n = room.min(2048);
    gain_range(
        src,
        &mut names[..n],
        &mut blocks,
        &mut indexes,
        &mut firsts,
        &mut widths,
        &mut values,
    )
}

fn one(rt: &HostRuntime) -> Result<()> {
    let room = input_pair(rt)?;
    let src = input_slice(rt)?;
    gain_lines::tell(rt, gains_of(src.bytes(), room))
}

fn main(rt: HostRuntime) -> Result<()> {
    let cases = input_pair(&rt)?;
    for _ in 0..cases {
        one(&rt)?;
    }
    Ok(())
}
