// The gain range of the frame on standard input: of dynrng and compr, and of those of a second programme, the lowest and the
// highest factor, and both in dB.
#![tactic(auto)]

use gain_range::{FrameGains, gain_range};

fn gains_of(src: &[u8]) -> FrameGains {
    let mut names: [u8; 2048] = [0; 2048];
    let mut blocks: [i8; 2048] = [0; 2048];
    let mut indexes: [i16; 2048] = [0; 2048];
    let mut firsts: [u16; 2048] = [0; 2048];
    let mut widths: [u16; 2048] = [0; 2048];
    let mut values: [u32; 2048] = [0; 2048];
    gain_range(
        src,
        &mut names,
        &mut blocks,
        &mut indexes,
        &mut firsts,
        &mut widths,
        &mut values,
    )
}

fn main(rt: HostRuntime) -> std::io::Result<()> {
    let mut bytes = [0u8; 4096];
    let n = print::read_full(&mut rt.stdin(), &mut bytes)?;
    gain_lines::tell(&rt, gains_of(&bytes[..n]))
}
