// Tells the frames of the capture on standard input, a line for each: position, bytes, type, number, channels, sample rate, blocks and
// records. Bytes that hold no frame are passed over and told of. The last line has the sums.
//
// The capture is held in pieces. A position is decided only where at least 4,096 bytes of the capture lie from it on, or all that it
// has: no frame is longer, and what follows a frame is not looked at, so each position gets the answer that it has in the whole.
#![tactic(auto)]

ghost use Rattle.std.specs.Prelude.{◌≡◌, ◌-◌, IfErr, IfOk, drop, take};
ghost use Rattle.ingest.specs.Ingest.{empty};
ghost use Rattle.search.specs.Find.{found_in};
ghost use Rattle.frames.specs.Held.{allowance_of, next_in, rest_of, Shifted};

use answer::{Frame, Verdict};
use frame_line::{frame_line, heading, last_line, stretch_line};
use search::{Found, find};
use std::io::Result;

// The longest frame.
const LONGEST: usize = 4096;

// How far the capture is told: `before` bytes came before the `size` that are held, of which those before `at` are done with; the last
// frame ended at the position `behind` of the capture. Then what the last line says.
#[derive(Clone, Copy)]
struct Place {
    before: u64,
    size: usize,
    at: usize,
    ended: bool,
    behind: u64,
    frames: u64,
    passed: u64,
}

// How many positions may be decided.
fn allowance(size: usize, at: usize, ended: bool) -> usize
    ensures { result ≡ allowance_of size at ended }
{
    if ended {
        usize::MAX
    } else {
        size.saturating_sub(LONGEST - 1).saturating_sub(at)
    }
}

// The next frame, with room for the records of every frame: 33 does not come.
fn next(held: &[u8], at: usize, most: usize) -> Found
    ensures { result ≡ found_in held.now (empty 32782) at most }
{
    let mut names: [u8; 32782] = [0; 32782];
    let mut blocks: [i8; 32782] = [0; 32782];
    let mut indexes: [i16; 32782] = [0; 32782];
    let mut firsts: [u16; 32782] = [0; 32782];
    let mut widths: [u16; 32782] = [0; 32782];
    let mut values: [u32; 32782] = [0; 32782];
    find(
        held,
        &mut names,
        &mut blocks,
        &mut indexes,
        &mut firsts,
        &mut widths,
        &mut values,
        at,
        most,
    )
}

// The next frame among the bytes that are held.
fn next_of(bytes: &[u8], size: usize, at: usize, ended: bool) -> Found
    ensures { result ≡ next_in bytes.now size at ended }
{
    let n = size.min(bytes.len());
    next(&bytes[..n], at, allowance(n, at, ended))
}

// Moves the bytes from one on to the front, and says how many they are.
fn shift(bytes: &mut [u8], first: usize, size: usize) -> usize
    ensures { Shifted bytes.old first size bytes.new result }
{
    let end = size.min(bytes.len());
    let from = first.min(end);
    bytes.copy_within(from..end, 0);
    end - from
}

// Holds the bytes from one on, and as many more of the capture as there is room for.
fn refill(rt: &HostRuntime, bytes: &mut [u8], first: usize, size: usize) -> Result<usize>
    ensures ok { IfOk result (λ n. Shifted bytes.old first size bytes.new n) }
    ensures err { IfErr result (λ _. take (rest_of bytes.old first size) bytes.new ≡ take (rest_of bytes.old first size) (drop first bytes.old)) }
{
    let n = shift(bytes, first, size);
    let more = print::read_full(&mut rt.stdin(), &mut bytes[n..])?;
    Ok(n + more)
}

// Tells of the bytes between two positions, if there are any, and says how many they are.
fn stretch(rt: &HostRuntime, behind: u64, position: u64) -> Result<u64> {
    let n = position.wrapping_sub(behind);
    if n != 0 {
        stretch_line(behind, n).write(rt)?;
    }
    Ok(n)
}

impl Place {
    // Tells of a frame at a place of the bytes that are held.
    fn told(self, rt: &HostRuntime, at: usize, frame: Frame) -> Result<Place> {
        let position = self.before.wrapping_add(at as u64);
        let n = stretch(rt, self.behind, position)?;
        frame_line(position, frame).write(rt)?;
        let bytes = frame.bytes.0;
        Ok(Place {
            at: at.wrapping_add(usize::from(bytes)),
            behind: position.wrapping_add(u64::from(bytes)),
            frames: self.frames.wrapping_add(1),
            passed: self.passed.wrapping_add(n),
            ..self
        })
    }

    // Holds the bytes from one on, and more of the capture behind them.
    fn refilled(self, rt: &HostRuntime, bytes: &mut [u8], first: usize) -> Result<Place> {
        let size = refill(rt, bytes, first, self.size)?;
        Ok(Place {
            before: self.before.wrapping_add(first as u64),
            size,
            at: 0,
            ended: size < bytes.len(),
            ..self
        })
    }

    // Tells of what lies behind the last frame, and of the sums.
    fn finish(self, rt: &HostRuntime) -> Result<()> {
        let all = self.before.wrapping_add(self.size as u64);
        let n = stretch(rt, self.behind, all)?;
        last_line(self.frames, all, self.passed.wrapping_add(n)).write(rt)
    }

    // One frame more; or more of the capture, where none is found in what is held; or the end, where there is no next place.
    fn step(self, rt: &HostRuntime, bytes: &mut [u8]) -> Result<Option<Place>> {
        let found = next_of(bytes, self.size, self.at, self.ended);
        let answer = found.answer;
        match answer.verdict {
            Verdict::Accepted => Ok(Some(self.told(rt, found.position, answer.frame)?)),
            Verdict::Refused(_, _, _) => {
                if self.ended {
                    self.finish(rt)?;
                    Ok(None)
                } else {
                    let first = self.at.wrapping_add(found.tried);
                    Ok(Some(self.refilled(rt, bytes, first)?))
                }
            }
        }
    }
}

// A proved loop has to end, and nothing says that a capture does: the turns are counted up to a number that no run comes to.
fn tell(rt: &HostRuntime, bytes: &mut [u8]) -> Result<()> {
    let mut place = Place {
        before: 0,
        size: 0,
        at: 0,
        ended: false,
        behind: 0,
        frames: 0,
        passed: 0,
    };
    for _ in 0..u64::MAX {
        match place.step(rt, bytes)? {
            Some(next) => place = next,
            None => break,
        }
    }
    Ok(())
}

fn main(rt: HostRuntime) -> Result<()> {
    heading().write(&rt)?;
    let mut bytes = [0u8; 16384];
    tell(&rt, &mut bytes)
}
