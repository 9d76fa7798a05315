// The cyclic redundancy check of a syncframe (crc.rs; A/52 clause 7.10.1, TS 102 366 clause 6.10.1), by two tables, two bytes
// at a time.
#![tactic(auto)]

mod steps;

ghost use Rattle.std.specs.Prelude.{◌≡◌, ◌*◌, ◌-◌, ◌≤◌, length};
ghost use Rattle.crc.specs.Crc.{remainder, crc2, with_crc2};
ghost use Rattle.crc.specs.Bytes.{after};
ghost use Rattle.crc.specs.Table.{Stepped};

use bits::ByteCount;
use steps::{EIGHT_STEPS, SIXTEEN_STEPS};

// The tables of eight and of sixteen one-bit steps.
#[derive(Clone, Copy)]
struct Tables {
    eight: [u16; 256],
    sixteen: [u16; 256],
    ghost by_eight: { Stepped 8 eight },
    ghost by_sixteen: { Stepped 16 sixteen },
}

impl Tables {
    fn new() -> Tables {
        Tables {
            eight: EIGHT_STEPS,
            sixteen: SIXTEEN_STEPS,
        }
    }

    // The register after a byte.
    fn take_byte(&self, r: u16, byte: u8) -> u16
        ensures { result ≡ after r byte 8 }
    {
        (r << 8) ^ self.eight[((r >> 8) as u8 ^ byte) as usize]
    }

    // The register after two bytes.
    fn take_two(&self, r: u16, first: u8, second: u8) -> u16
        ensures { result ≡ after (after r first 8) second 8 }
    {
        self.sixteen[((r >> 8) as u8 ^ first) as usize]
            ^ self.eight[((r % 256) as u8 ^ second) as usize]
    }

    // The remainder of the bytes from `from` up to `to`.
    fn pass(&self, src: &[u8], from: usize, to: usize) -> u16
        requires { (from ≤ to) × (to ≤ length src.now) }
        ensures { result ≡ remainder src.now (8 * from) (8 * (to - from)) }
    {
        let (pairs, rest) = src[from..to].as_chunks::<2>();
        let mut r = 0;
        for pair in pairs {
            r = self.take_two(r, pair[0], pair[1]);
        }
        for byte in rest {
            r = self.take_byte(r, *byte);
        }
        r
    }
}

// The remainder of the bytes from `from` up to `to`.
pub fn remainder(src: &[u8], from: usize, to: usize) -> u16
    requires { (from ≤ to) × (to ≤ length src.now) }
    ensures { result ≡ remainder src.now (8 * from) (8 * (to - from)) }
{
    Tables::new().pass(src, from, to)
}

// Puts crc2 into the last two bytes of a frame of so many bytes, and hands it back. No other byte changes.
pub fn set_crc2(frame: &mut [u8], bytes: ByteCount) -> u16
    requires { (6 ≤ bytes.0) × (bytes.0 ≤ length frame.old) }
    ensures { (result ≡ crc2 frame.old bytes.0) × (frame.new ≡ with_crc2 frame.old bytes.0) }
{
    let n = bytes.0 as usize;
    let r = remainder(frame, 2, n - 2);
    frame[n - 2..n].copy_from_slice(&r.to_be_bytes());
    r
}
