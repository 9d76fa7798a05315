// The answer and the records of a frame, as lines of text.
#![tactic(auto)]

ghost use Rattle.std.specs.Prelude.{◌≡◌, ◌≤◌, length};
ghost use Rattle.print.specs.Text.{Adds};
ghost use Rattle.listing.specs.Listing.{three_line, first_line, lines_of, listing_of};

use answer::{Answer, Verdict, count_of};
use print::Text;

// An answer, with as many records as it counts, in the order of their first bits. What follows them is 0.
// Stays: six arrays, for the entry of the C interface is lent six slices.
#[derive(Clone, Copy)]
pub struct Records {
    pub answer: Answer,
    pub names: [u8; 2048],
    pub blocks: [i8; 2048],
    pub indexes: [i16; 2048],
    pub firsts: [u16; 2048],
    pub widths: [u16; 2048],
    pub values: [u32; 2048],
}

// Three numbers that end a line.
fn three<const N: usize>(out: &mut Text<N>, a: u64, b: u64, c: u64)
    ensures { Adds N out.old (three_line a b c) out.new }
{
    out.number(a, b' ');
    out.number(b, b' ');
    out.number(c, b'\n');
}

// The answer: frame bytes, end of audio and records; or number, place and records.
pub fn first_line<const N: usize>(out: &mut Text<N>, answer: Answer)
    ensures { Adds N out.old (first_line answer) out.new }
{
    match answer.verdict {
        Verdict::Accepted => {
            let frame = answer.frame;
            out.put(b"accepted ");
            three(
                out,
                frame.bytes.0 as u64,
                frame.audio_end.0 as u64,
                frame.fields as u64,
            );
        }
        Verdict::Refused(refusal, place, count) => {
            out.put(b"refused ");
            three(out, refusal as u64, place.0 as u64, count as u64);
        }
    }
}

// The first n records, a line each: first bit, width, name, block, index and value.
fn lines<const N: usize>(out: &mut Text<N>, r: &Records, n: usize)
    requires text_in_bounds { length out.old ≤ N }
    requires n_bound { n ≤ 2048 }
    ensures { Adds N out.old (lines_of r.now n) out.new }
{
    let table = names::table();
    for i in 0..n {
        out.number(r.firsts[i] as u64, b' ');
        out.number(r.widths[i] as u64, b' ');
        out.name(&table, r.names[i], b' ');
        out.signed(r.blocks[i] as i16, b' ');
        out.signed(r.indexes[i], b' ');
        out.number(r.values[i] as u64, b'\n');
    }
}

// The answer on the first line, then a line for each record. There is room for the longest listing.
pub fn text_of(r: Records) -> Text<262272>
    ensures { result ≡ listing_of r }
{
    let mut out = Text::new();
    first_line(&mut out, r.answer);
    let answer = r.answer;
    let count = count_of(answer.verdict, answer.frame);
    lines(&mut out, &r, count.min(2048));
    out
}
