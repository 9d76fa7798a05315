// Slices on standard input, each after two bytes that say its length, the high byte first.
ghost use Rattle.std.specs.Prelude.{◌≡◌, ◌+◌, ◌*◌, ◌≤◌, ◌<◌, IfOk, min, drop, replicate, take};

use std::io::Result;

// No list has a longer slice.
const LONGEST: usize = 4200;

// A number of two bytes.
pub fn pair(high: u8, low: u8) -> usize
    ensures { (result ≡ 256 * high + low) × (result < 65536) }
{
    usize::from(u16::from_be_bytes([high, low]))
}

// The number of the next two bytes.
pub fn input_pair(rt: &HostRuntime) -> Result<usize>
    ensures { IfOk result (λ n. n < 65536) }
{
    let mut bytes = [0u8; 2];
    print::read_full(&mut rt.stdin(), &mut bytes)?;
    Ok(pair(bytes[0], bytes[1]))
}

// A slice: the first bytes of a buffer, which has 0 after them.
#[derive(Drop)]
pub struct Slice {
    pub buffer: [u8; 4200],
    pub size: usize,
    ghost within: { size ≤ 4200 },
    ghost zeros: { drop size buffer ≡ drop size (replicate 4200 0) },
}

impl Slice {
    pub fn bytes(&self) -> &[u8]
        ensures { result.now ≡ take self.now.size self.now.buffer }
    {
        &self.buffer[..self.size]
    }
}

// The next n bytes, but no more than the longest slice has.
pub fn slice_of(rt: &HostRuntime, n: usize) -> Result<Slice>
    ensures { IfOk result (λ s. s.size ≡ min n 4200) }
{
    let size = n.min(LONGEST);
    let mut buffer = [0u8; 4200];
    print::read_full(&mut rt.stdin(), &mut buffer[..size])?;
    Ok(Slice { buffer, size })
}

// The next slice, after its length.
pub fn input_slice(rt: &HostRuntime) -> Result<Slice> {
    let n = input_pair(rt)?;
    slice_of(rt, n)
}
