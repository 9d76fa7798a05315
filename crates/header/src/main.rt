// Reads the header of the frame on standard input through crate `lent`, from syncword to bsid, and prints each element
// on a line: first bit, width, name and value. It ends where an element passes the bytes that there are.
#![tactic(auto)]

ghost use Rattle.std.specs.Prelude.{◌≡◌, ◌*◌, ◌≤◌, length};
ghost use Rattle.names.specs.Spelling.{rows};

use bits::{BitPlace, ByteCount};
use lent::Reader;
use names::numbers;
use print::Text;
use std::io::Result;
use syntax::room::RecordRoom;
use syntax::{Cursor, Label};

// The elements of a header with fscod 0 to 2 (A/52 table E1.2): the name and the width of each.
fn element(i: usize) -> (u8, u16)
    ensures { result.1 ≤ 32 }
{
    match i {
        0 => (numbers::SYNCWORD, 16),
        1 => (numbers::STRMTYP, 2),
        2 => (numbers::SUBSTREAMID, 3),
        3 => (numbers::FRMSIZ, 11),
        4 => (numbers::FSCOD, 2),
        5 => (numbers::NUMBLKSCOD, 2),
        6 => (numbers::ACMOD, 3),
        7 => (numbers::LFEON, 1),
        _ => (numbers::BSID, 5),
    }
}

// Reads the header into the room, as far as the limit lets it, and says how many records it has.
fn header(src: &[u8], room: &mut RecordRoom<'_>, limit: BitPlace) -> usize
    requires { limit.0 ≤ 8 * length src.now }
{
    let mut cur = Cursor {
        at: BitPlace(0),
        count: 0,
    };
    for i in 0..9 {
        let (name, width) = element(i);
        let label = Label {
            name,
            block: -1,
            index: -1,
        };
        match Reader::over(src, cur.at).read(room, cur.count, limit, label, width) {
            Ok(taken) => cur = taken.cursor,
            Err(stopped) => return stopped.count,
        }
    }
    cur.count
}

// The place after n bytes, or the start where a frame has not so many.
fn end(n: usize) -> BitPlace
    ensures { result.0 ≤ 8 * n }
{
    if 4096 < n {
        return BitPlace(0);
    }
    ByteCount(n as u16).bits()
}

fn line(
    rt: &HostRuntime,
    table: &[u8; 3232],
    first: u16,
    wide: u16,
    name: u8,
    value: u32,
) -> Result<()>
    requires { table.now ≡ rows }
{
    let mut out: Text<64> = Text::new();
    out.number(first as u64, b' ');
    out.number(wide as u64, b' ');
    out.name(table, name, b' ');
    out.number(value as u64, b'\n');
    out.write(rt)
}

fn lines(
    rt: &HostRuntime,
    table: &[u8; 3232],
    count: usize,
    firsts: [u16; 9],
    widths: [u16; 9],
    names: [u8; 9],
    values: [u32; 9],
) -> Result<()>
    requires { table.now ≡ rows }
{
    for i in 0..count.min(9) {
        line(rt, table, firsts[i], widths[i], names[i], values[i])?;
    }
    Ok(())
}

fn main(rt: HostRuntime) -> Result<()> {
    let mut bytes = [0u8; 4096];
    let n = print::read_full(&mut rt.stdin(), &mut bytes)?;
    let mut names = [0u8; 9];
    let mut blocks = [0i8; 9];
    let mut indexes = [0i16; 9];
    let mut firsts = [0u16; 9];
    let mut widths = [0u16; 9];
    let mut values = [0u32; 9];
    let mut room = RecordRoom::new(
        &mut names,
        &mut blocks,
        &mut indexes,
        &mut firsts,
        &mut widths,
        &mut values,
    );
    let count = header(&bytes[..n], &mut room, end(n));
    let table = names::table();
    lines(&rt, &table, count, firsts, widths, names, values)
}
