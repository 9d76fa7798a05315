// Reads toy frames from standard input, each after a byte that tells its length, and writes the answer and
// the records of each: first bit, width, name, block, index, value.
#![tactic(auto)]

use print::Text;
use std::io::Result;
use syntax::{Cursor, Stopped};

fn line(
    rt: &HostRuntime,
    first: u16,
    width: u16,
    name: u8,
    block: i8,
    index: i16,
    value: u32,
) -> Result<()> {
    let mut out: Text<64> = Text::new();
    out.number(first as u64, b' ');
    out.number(width as u64, b' ');
    out.number(name as u64, b' ');
    out.signed(block as i16, b' ');
    out.signed(index, b' ');
    out.number(value as u64, b'\n');
    out.write(rt)
}

// Whether the frame was accepted, or the number of the refusal; and how many records it has.
fn answer(rt: &HostRuntime, read: std::result::Result<Cursor, Stopped>) -> Result<usize> {
    let mut out: Text<64> = Text::new();
    let (at, count) = match read {
        Ok(cur) => {
            out.put(b"accepted ");
            (cur.at, cur.count)
        }
        Err(stopped) => {
            out.put(b"refused ");
            out.number(stopped.refusal.number() as u64, b' ');
            (stopped.at, stopped.count)
        }
    };
    out.number(at.0 as u64, b' ');
    out.number(count as u64, b'\n');
    out.write(rt)?;
    Ok(count)
}

fn lines(
    rt: &HostRuntime,
    count: usize,
    firsts: [u16; 128],
    widths: [u16; 128],
    names: [u8; 128],
    blocks: [i8; 128],
    indexes: [i16; 128],
    values: [u32; 128],
) -> Result<()> {
    for i in 0..count.min(128) {
        line(
            rt, firsts[i], widths[i], names[i], blocks[i], indexes[i], values[i],
        )?;
    }
    Ok(())
}

fn run(rt: &HostRuntime, frame: &[u8]) -> Result<()> {
    let mut names: [u8; 128] = [0; 128];
    let mut blocks: [i8; 128] = [0; 128];
    let mut indexes: [i16; 128] = [0; 128];
    let mut firsts: [u16; 128] = [0; 128];
    let mut widths: [u16; 128] = [0; 128];
    let mut values: [u32; 128] = [0; 128];
    let read = toy::parse(
        frame,
        &mut names,
        &mut blocks,
        &mut indexes,
        &mut firsts,
        &mut widths,
        &mut values,
    );
    let count = answer(rt, read)?;
    lines(rt, count, firsts, widths, names, blocks, indexes, values)
}

fn main(rt: HostRuntime) -> Result<()> {
    let mut input = [0u8; 4096];
    let n = print::read_full(&mut rt.stdin(), &mut input)?;
    let mut rest = &input[..n];
    // Stays: a `while let`, since each length says how far the next one lies.
    while let Some((size, frames)) = rest.split_first() {
        let end = usize::from(*size).min(frames.len());
        run(&rt, &frames[..end])?;
        rest = &frames[end..];
    }
    Ok(())
}
