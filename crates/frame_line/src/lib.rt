// The lines of the program `frames`: a heading, a line for each frame, a line for each stretch of bytes that hold none, and a last one
// with the sums.
#![tactic(auto)]

ghost use Rattle.std.specs.Prelude.{◌≡◌};
ghost use Rattle.frame_line.specs.Lines.{mode_of, lfe_of, rate_of, line_of, heading_of, stretch_of, sums_of};

use answer::Frame;
use print::Text;

// The full bandwidth channels by acmod (A/52 table 5.8): in front, behind.
#[tactic(auto, unfolding(crate::specs::Lines::mode_of, crate::specs::Lines::modes, names::specs::Spelling::bytes))]
fn mode(acmod: u16) -> &'static [u8]
    ensures { result.now ≡ mode_of acmod }
{
    match acmod {
        0 => b"   1+1",
        1 => b"   1/0",
        2 => b"   2/0",
        3 => b"   3/0",
        4 => b"   2/1",
        5 => b"   3/1",
        6 => b"   2/2",
        _ => b"   3/2",
    }
}

#[tactic(auto, unfolding(crate::specs::Lines::lfe_of, names::specs::Spelling::bytes))]
fn lfe(lfeon: bool) -> &'static [u8]
    ensures { result.now ≡ lfe_of lfeon }
{
    if lfeon { b"+LFE" } else { b"    " }
}

// Samples a second by fscod (A/52 table 5.6).
fn rate(fscod: u16) -> u64
    ensures { result ≡ rate_of fscod }
{
    match fscod {
        0 => 48000,
        1 => 44100,
        _ => 32000,
    }
}

// A frame at a position of the capture: where it stands, its bytes, its type and its number, its channels, and its sample rate, blocks
// and records.
pub fn frame_line(position: u64, f: Frame) -> Text<256>
    ensures { result ≡ line_of f position }
{
    let mut out = Text::new();
    out.right(position, 12);
    out.right(f.bytes.0 as u64, 7);
    out.right(f.strmtyp as u64, 6);
    out.right(f.substreamid as u64, 8);
    out.put(mode(f.acmod));
    out.put(lfe(f.lfeon));
    out.right(rate(f.fscod), 7);
    out.right(f.numblks as u64, 8);
    out.right(f.fields as u64, 9);
    out.put(b"\n");
    out
}

// Bytes from a position on that hold no frame.
pub fn stretch_line(position: u64, n: u64) -> Text<256>
    ensures { result ≡ stretch_of position n }
{
    let mut out = Text::new();
    out.right(position, 12);
    out.right(n, 7);
    out.put(b" passed over\n");
    out
}

// How many frames there were, how many bytes, and how many of these were passed over.
pub fn last_line(frames: u64, all: u64, passed: u64) -> Text<256>
    ensures { result ≡ sums_of frames all passed }
{
    let mut out = Text::new();
    out.decimal(frames);
    out.put(b" frames, ");
    out.decimal(all);
    out.put(b" bytes, ");
    out.decimal(passed);
    out.put(b" passed over\n");
    out
}

// The names of the columns.
pub fn heading() -> Text<256>
    ensures { result ≡ heading_of }
{
    let mut out = Text::new();
    out.put(b"    position  bytes  type  number  channels   rate  blocks  records\n");
    out
}
