// A frame and its records, from a slice or from standard input.
#![tactic(auto)]

pub mod cases;

ghost use Rattle.std.specs.Prelude.{IfOk};
ghost use Rattle.ingest.specs.Ingest.{ReadFrom, Read};

use listing::Records;
use std::io::Result;

// Reads one frame with room for 2,048 records.
pub fn records_of(src: &[u8]) -> Records
    ensures { ReadFrom src.now result }
{
    let mut names: [u8; 2048] = [0; 2048];
    let mut blocks: [i8; 2048] = [0; 2048];
    let mut indexes: [i16; 2048] = [0; 2048];
    let mut firsts: [u16; 2048] = [0; 2048];
    let mut widths: [u16; 2048] = [0; 2048];
    let mut values: [u32; 2048] = [0; 2048];
    let answer = eac3::parse(
        src,
        &mut names,
        &mut blocks,
        &mut indexes,
        &mut firsts,
        &mut widths,
        &mut values,
    );
    Records {
        answer,
        names,
        blocks,
        indexes,
        firsts,
        widths,
        values,
    }
}

// The frame on standard input: its first 4,096 bytes are read, what follows is ignored.
pub fn input(rt: &HostRuntime) -> Result<Records>
    ensures { IfOk result Read }
{
    let mut bytes = [0u8; 4096];
    let n = print::read_full(&mut rt.stdin(), &mut bytes)?;
    Ok(records_of(&bytes[..n]))
}
