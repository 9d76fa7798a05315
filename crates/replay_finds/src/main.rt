// Searches stored captures. Of each case on standard input it prints the answer, the position and the number tried, and the first
// entries of the room as they then are: first bit, width, number of the name, block, index and value.
//
// Standard input, all numbers of two bytes, high byte first: how many cases there are; of each case how many entries are printed, the
// room of names, blocks, indexes, first bits, widths and values, the start, the allowance, the length of the capture, and the capture.
// As a start or an allowance 65,535 stands for the greatest number.
#![tactic(auto)]

ghost use Rattle.std.specs.Prelude.{◌≤◌, IfOk};

use answer::Answer;
use ingest::cases::{Slice, input_pair, input_slice};
use listing::{Records, first_line};
use print::Text;
use search::{Found, find};
use std::io::Result;

// The rooms of a case, none of more than 2,048 entries.
#[derive(Drop)]
struct Rooms {
    names: usize,
    blocks: usize,
    indexes: usize,
    firsts: usize,
    widths: usize,
    values: usize,
    ghost names_within: { names ≤ 2048 },
    ghost blocks_within: { blocks ≤ 2048 },
    ghost indexes_within: { indexes ≤ 2048 },
    ghost firsts_within: { firsts ≤ 2048 },
    ghost widths_within: { widths ≤ 2048 },
    ghost values_within: { values ≤ 2048 },
}

fn input_room(rt: &HostRuntime) -> Result<usize>
    ensures { IfOk result (λ n. n ≤ 2048) }
{
    Ok(input_pair(rt)?.min(2048))
}

impl Rooms {
    fn input(rt: &HostRuntime) -> Result<Rooms> {
        Ok(Rooms {
            names: input_room(rt)?,
            blocks: input_room(rt)?,
            indexes: input_room(rt)?,
            firsts: input_room(rt)?,
            widths: input_room(rt)?,
            values: input_room(rt)?,
        })
    }
}

// A case: how many entries are printed, the rooms, where the search starts and how many positions it may try, and the capture.
#[derive(Drop)]
struct Case {
    listed: usize,
    rooms: Rooms,
    start: usize,
    most: usize,
    capture: Slice,
}

// As a start or an allowance.
fn greatest(n: usize) -> usize {
    if n == 65535 { usize::MAX } else { n }
}

fn line(
    rt: &HostRuntime,
    first: u16,
    width: u16,
    name: u8,
    block: i8,
    index: i16,
    value: u32,
) -> Result<()> {
    let mut out: Text<64> = Text::new();
    out.number(first as u64, b' ');
    out.number(width as u64, b' ');
    out.number(name as u64, b' ');
    out.signed(block as i16, b' ');
    out.signed(index, b' ');
    out.number(value as u64, b'\n');
    out.write(rt)
}

fn lines(rt: &HostRuntime, r: Records, listed: usize) -> Result<()> {
    for i in 0..listed.min(2048) {
        line(
            rt,
            r.firsts[i],
            r.widths[i],
            r.names[i],
            r.blocks[i],
            r.indexes[i],
            r.values[i],
        )?;
    }
    Ok(())
}

fn tell(rt: &HostRuntime, answer: Answer, position: usize, tried: usize) -> Result<()> {
    let mut out: Text<256> = Text::new();
    first_line(&mut out, answer);
    out.number(position as u64, b' ');
    out.number(tried as u64, b'\n');
    out.write(rt)
}

impl Case {
    fn input(rt: &HostRuntime) -> Result<Case> {
        Ok(Case {
            listed: input_pair(rt)?,
            rooms: Rooms::input(rt)?,
            start: greatest(input_pair(rt)?),
            most: greatest(input_pair(rt)?),
            capture: input_slice(rt)?,
        })
    }

    fn tell(&self, rt: &HostRuntime) -> Result<()> {
        let mut names: [u8; 2048] = [0; 2048];
        let mut blocks: [i8; 2048] = [0; 2048];
        let mut indexes: [i16; 2048] = [0; 2048];
        let mut firsts: [u16; 2048] = [0; 2048];
        let mut widths: [u16; 2048] = [0; 2048];
        let mut values: [u32; 2048] = [0; 2048];
        let rooms = &self.rooms;
        let found = find(
            self.capture.bytes(),
            &mut names[..rooms.names],
            &mut blocks[..rooms.blocks],
            &mut indexes[..rooms.indexes],
            &mut firsts[..rooms.firsts],
            &mut widths[..rooms.widths],
            &mut values[..rooms.values],
            self.start,
            self.most,
        );
        let answer = found.answer;
        tell(rt, answer, found.position, found.tried)?;
        let records = Records {
            answer,
            names,
            blocks,
            indexes,
            firsts,
            widths,
            values,
        };
        lines(rt, records, self.listed)
    }
}

fn main(rt: HostRuntime) -> Result<()> {
    let cases = input_pair(&rt)?;
    for _ in 0..cases {
        Case::input(&rt)?.tell(&rt)?;
    }
    Ok(())
}
