// The bits of the slots of a frame, as a table: a line for each block, one for the sums over the blocks, and one for each slot's
// share of the frame in per cent; a column for the coupling channel, each full bandwidth channel and the LFE channel, and their sum.
#![tactic(auto)]

ghost use Rattle.std.specs.Prelude.{◌≡◌, ◌<◌, ◌≤◌, length};
ghost use Rattle.print.specs.Text.{Adds};
ghost use Rattle.slot_table.specs.SlotTable.{bits_of, eight_of, share_of, tenths_of, cell_of, line_of, table_of, text_of};

use answer::{Answer, Frame, SlotBits, Verdict};
use bits::ByteCount;
use columns::{full_channels, heading};
use print::Text;
use slots::{CPL, LFE};

// The bits of a slot in some blocks.
fn slot_sum(blocks: &[SlotBits], slot: usize) -> u32
    requires { (length blocks.now ≤ 6) × (slot < 7) }
    ensures { (result ≡ bits_of blocks.now slot) × (result ≤ 393210) }
{
    let mut sum = 0;
    for block in 0..blocks.len() {
        sum += blocks[block].bits[slot] as u32;
    }
    sum
}

// The bits of each slot in some blocks, and their sum.
fn slot_sums(blocks: &[SlotBits]) -> [u32; 8]
    requires { length blocks.now ≤ 6 }
    ensures { result ≡ eight_of (bits_of blocks.now) }
{
    let a = slot_sum(blocks, 0);
    let b = slot_sum(blocks, 1);
    let c = slot_sum(blocks, 2);
    let d = slot_sum(blocks, 3);
    let e = slot_sum(blocks, 4);
    let cpl = slot_sum(blocks, 5);
    let lfe = slot_sum(blocks, 6);
    [a, b, c, d, e, cpl, lfe, a + b + c + d + e + cpl + lfe]
}

// The share of some bits in a frame, in tenths of a per cent.
fn share(frame: ByteCount, n: u32) -> u64
    ensures { result ≡ share_of frame.0 n }
{
    let bytes = frame.0 as u64;
    if bytes == 0 {
        return 0;
    }
    (1000 * n as u64 + 4 * bytes) / (8 * bytes)
}

fn tenths<const N: usize>(out: &mut Text<N>, n: u64)
    ensures { Adds N out.old (tenths_of n) out.new }
{
    out.right(n / 10, 5);
    out.put(b".");
    out.decimal(n % 10);
}

// Some bits as a cell: their share of a frame, where one is given, and else their number.
fn cell<const N: usize>(out: &mut Text<N>, frame: Option<ByteCount>, n: u32)
    ensures { Adds N out.old (cell_of frame n) out.new }
{
    match frame {
        Some(frame) => tenths(out, share(frame, n)),
        None => out.right(n as u64, 7),
    }
}

// The cells of the coupling channel, the full bandwidth channels, the LFE channel, and the sum.
fn line<const N: usize>(out: &mut Text<N>, frame: Option<ByteCount>, x: &[u32; 8], nfchans: u8)
    requires { nfchans ≤ 5 }
    ensures { Adds N out.old (line_of frame x.now nfchans) out.new }
{
    cell(out, frame, x[CPL as usize]);
    for ch in 0..nfchans as usize {
        cell(out, frame, x[ch]);
    }
    cell(out, frame, x[LFE as usize]);
    cell(out, frame, x[7]);
    out.put(b"\n");
}

// A line for each block, of which a frame has at most six, and below them the sums over the blocks, as bits and as shares.
fn table<const N: usize>(out: &mut Text<N>, f: &Frame)
    ensures { Adds N out.old (table_of f.now) out.new }
{
    let nfchans = full_channels(f.acmod as u32);
    heading(out, f.acmod as u32);
    out.put(b"    sum\n");
    for block in 0..f.numblks.min(6) as usize {
        out.right(block as u64, 5);
        line(
            out,
            None,
            &slot_sums(&f.slot_bits[block..block + 1]),
            nfchans,
        );
    }
    let all = slot_sums(&f.slot_bits);
    out.put(b"  sum");
    line(out, None, &all, nfchans);
    out.put(b"    %");
    line(out, Some(f.bytes), &all, nfchans);
}

// The table, or the answer of a frame that is refused. There is room for the longest.
pub fn text_of(a: Answer) -> Text<4096>
    ensures { result ≡ text_of a }
{
    let mut out = Text::new();
    match a.verdict {
        Verdict::Accepted => table(&mut out, &a.frame),
        Verdict::Refused(_, _, _) => listing::first_line(&mut out, a),
    }
    out
}
