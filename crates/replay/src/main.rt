// Replays a list of answers of the Rust, on standard input: each case is a slice and what the Rust said of it. It prints
// number, place and count of each slice that is refused, the bits of the slots of each that is accepted, block by block, and the number of each case in which the reader differs, and
// then how many cases there are and how many of each verdict, how many records their frames have, and how many cases differ.
// Further slices follow; it prints their answers, and the records of some.
//
// Standard input, all numbers high byte first: 2 bytes, how many cases there are; of each case 2 bytes, the length of the
// slice, the slice, and 69 bytes: the verdict (0 accepted, 1 Invalid, 2 Unsupported, 3 Truncated) and 34 numbers of 2 bytes
// (specs/Cases.antt). Then 2 bytes, how many further slices there are; of each 2 bytes, 1 where its records are listed and
// else 0, 2 bytes, its length, and the slice.
#![tactic(auto)]

mod cases;
mod sums;

use answer::{Answer, SlotBits, Verdict};
use cases::same;
use ingest::cases::{input_pair, input_slice, pair};
use ingest::records_of;
use listing::{first_line, text_of};
use print::Text;
use std::io::Result;

fn answer(rt: &HostRuntime) -> Result<[u8; 69]> {
    let mut bytes = [0u8; 69];
    print::read_full(&mut rt.stdin(), &mut bytes)?;
    Ok(bytes)
}

// A word and a number.
fn part<const N: usize>(out: &mut Text<N>, name: &[u8], n: u64) {
    out.put(name);
    out.decimal(n);
}

fn verdicts_line<const N: usize>(out: &mut Text<N>, verdicts: &[u64; 4]) {
    part(out, b" accepted ", verdicts[0]);
    part(out, b" invalid ", verdicts[1]);
    part(out, b" unsupported ", verdicts[2]);
    part(out, b" truncated ", verdicts[3]);
}

// What the last line of the cases says: how many there are of each verdict, how many records they have, and how many differ.
#[derive(Drop)]
struct Tally {
    verdicts: [u64; 4],
    records: u64,
    differences: u64,
}

impl Tally {
    // One more case, with the number of records that it has.
    fn count(&mut self, theirs: &[u8; 69]) {
        let v = usize::from(theirs[0] % 4);
        self.verdicts[v] = self.verdicts[v].wrapping_add(1);
        let records = pair(theirs[63], theirs[64]) as u64;
        self.records = self.records.wrapping_add(records);
    }

    fn differs(&mut self, rt: &HostRuntime, case: usize) -> Result<()> {
        let mut out: Text<64> = Text::new();
        part(&mut out, b"case ", case as u64);
        out.put(b" differs\n");
        out.write(rt)?;
        self.differences = self.differences.wrapping_add(1);
        Ok(())
    }

    fn print(&self, rt: &HostRuntime, cases: usize) -> Result<()> {
        let mut out: Text<256> = Text::new();
        part(&mut out, b"cases ", cases as u64);
        verdicts_line(&mut out, &self.verdicts);
        part(&mut out, b" records ", self.records);
        part(&mut out, b" differences ", self.differences);
        out.put(b"\n");
        out.write(rt)
    }
}

// The answer of a slice.
fn answered(rt: &HostRuntime, answer: Answer) -> Result<()> {
    let mut out: Text<128> = Text::new();
    first_line(&mut out, answer);
    out.write(rt)
}

// The bits of the slots of a block.
fn bits_of_block<const N: usize>(out: &mut Text<N>, bits: [u16; 7]) {
    for n in bits {
        part(out, b" ", u64::from(n));
    }
}

// The bits of the slots of a frame, block by block.
fn slot_bits(rt: &HostRuntime, blocks: [SlotBits; 6]) -> Result<()> {
    let mut out: Text<320> = Text::new();
    out.put(b"bits");
    for block in blocks {
        bits_of_block(&mut out, block.bits);
    }
    out.put(b"\n");
    out.write(rt)
}

// Number, place and count of a slice that is refused; the bits of the slots of one that is accepted.
fn told(rt: &HostRuntime, answer: Answer) -> Result<()> {
    match answer.verdict {
        Verdict::Accepted => slot_bits(rt, answer.frame.slot_bits),
        Verdict::Refused(_, _, _) => answered(rt, answer),
    }
}

fn one(rt: &HostRuntime, t: &mut Tally, case: usize) -> Result<()> {
    let src = input_slice(rt)?;
    let theirs = answer(rt)?;
    t.count(&theirs);
    let r = records_of(src.bytes());
    told(rt, r.answer)?;
    if same(&r, &theirs) {
        Ok(())
    } else {
        t.differs(rt, case)
    }
}

fn replay_all(rt: &HostRuntime) -> Result<()> {
    let cases = input_pair(rt)?;
    let mut t = Tally {
        verdicts: [0; 4],
        records: 0,
        differences: 0,
    };
    for case in 0..cases {
        one(rt, &mut t, case)?;
    }
    t.print(rt, cases)
}

// The answer of a slice, with its records or without.
fn read(rt: &HostRuntime, listed: usize, src: &[u8]) -> Result<()> {
    let r = records_of(src);
    if listed == 1 {
        return text_of(r).write(rt);
    }
    answered(rt, r.answer)
}

fn further(rt: &HostRuntime) -> Result<()> {
    let listed = input_pair(rt)?;
    let src = input_slice(rt)?;
    read(rt, listed, src.bytes())
}

fn answer_all(rt: &HostRuntime) -> Result<()> {
    let slices = input_pair(rt)?;
    for _ in 0..slices {
        further(rt)?;
    }
    Ok(())
}

fn main(rt: HostRuntime) -> Result<()> {
    replay_all(&rt)?;
    answer_all(&rt)
}
