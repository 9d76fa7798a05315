// The gain range of a frame for people: five lines, the reader's answer, and of each of the four words how many were sent,
// with the lowest and the highest factor in decimal, exactly, and in dB, to two decimals. What the lines say is not proved, only
// that they are made and written; what must be printed comes from the reference of compare/gains.rs.
#![tactic(auto)]

ghost use Rattle.std.specs.Prelude.{◌+◌, ◌^◌, ◌≤◌, ◌<◌};

use answer::Answer;
use gain::Range;
use gain_range::FrameGains;
use listing::first_line;
use print::Text;
use std::io::Result;

// 20 log10 (1 + Y / 32), in millionths of a dB, for Y from 0 to 31.
const STEPS: [u32; 32] = [
    0, 267279, 526579, 778361, 1023050, 1261035, 1492672, 1718293, 1938200, 2152678, 2361986,
    2566370, 2766054, 2961251, 3152157, 3338958, 3521825, 3700922, 3876401, 4048404, 4217067,
    4382518, 4544876, 4704254, 4860761, 5014498, 5165560, 5314041, 5460025, 5603597, 5744834,
    5883811,
];

// A factor of 2 in millionths of a dB, and 8 of them: the lowest factor is 1/256.
const DOUBLE: u64 = 6020600;

const EIGHT_DOUBLES: u64 = 48164800;

// n, or n and a step more where so many parts of 8,192 are not above x.
fn more(n: u32, step: u32, x: f64) -> u32
    requires { n + step < 2 ^ 32 }
    ensures { result ≤ n + step }
{
    if (n + step) as f64 / 8192.0 <= x {
        n + step
    } else {
        n
    }
}

// How many whole parts of 8,192 a factor has; every factor is a whole number of them, below 2^21.
fn parts_of(x: f64) -> u32 {
    let mut n: u32 = 0;
    let mut step: u32 = 1048576;
    // Stays: the step is halved, and no range or iterator of the library halves.
    while 0 < step {
        n = more(n, step, x);
        step /= 2;
    }
    n
}

// The digits behind the point of so many parts of 8,192, after a 1, and without zeros at their end: a part is 5^13 of 10^13.
fn digits_of(rest: u32) -> u64
    requires { rest < 8192 }
{
    let mut d = 10000000000000 + rest as u64 * 1220703125;
    // Stays: no method of the library takes zeros from a number's end.
    while 10 <= d && d % 10 == 0 {
        d /= 10;
    }
    d
}

// The digits of a number but for the first one.
fn later_digits<const N: usize>(out: &mut Text<N>, n: u64) {
    let mut digits = [0u8; 20];
    let k = io::decimal(n, &mut digits);
    out.put(&digits[1..k]);
}

// A factor in decimal.
fn factor<const N: usize>(out: &mut Text<N>, n: u32) {
    out.decimal((n / 8192) as u64);
    if n % 8192 != 0 {
        out.put(b".");
        later_digits(out, digits_of(n % 8192));
    }
}

// So many parts of 8,192 in millionths of a dB, from 1/256 on.
fn millionths(n: u32) -> u64
    ensures { result < 2 ^ 56 }
{
    let mut m = n;
    let mut doubles: u32 = 0;
    // Stays: the number is halved, and no range or iterator of the library halves.
    while 63 < m {
        m /= 2;
        doubles += 1;
    }
    doubles as u64 * DOUBLE + STEPS[(m % 32) as usize] as u64
}

// Hundredths in decimal.
fn hundredths<const N: usize>(out: &mut Text<N>, h: u64) {
    out.decimal(h / 100);
    out.put(b".");
    later_digits(out, 100 + h % 100);
}

// A factor in dB.
fn decibels<const N: usize>(out: &mut Text<N>, n: u32) {
    let v = millionths(n);
    if v < EIGHT_DOUBLES {
        out.put(b"-");
    }
    hundredths(out, (v.abs_diff(EIGHT_DOUBLES) + 5000) / 10000);
}

// The line of one word.
fn line(rt: &HostRuntime, name: &[u8], r: Range) -> Result<()> {
    let mut out: Text<128> = Text::new();
    out.put(name);
    if r.words == 0 {
        out.put(b": no word sent\n");
        return out.write(rt);
    }
    let low = parts_of(r.low);
    let high = parts_of(r.high);
    out.put(b": words ");
    out.decimal(r.words as u64);
    out.put(b", factors ");
    factor(&mut out, low);
    out.put(b" to ");
    factor(&mut out, high);
    out.put(b", dB ");
    decibels(&mut out, low);
    out.put(b" to ");
    decibels(&mut out, high);
    out.put(b"\n");
    out.write(rt)
}

fn answered(rt: &HostRuntime, answer: Answer) -> Result<()> {
    let mut out: Text<128> = Text::new();
    first_line(&mut out, answer);
    out.write(rt)
}

// The lines of a frame, to standard output.
pub fn tell(rt: &HostRuntime, told: FrameGains) -> Result<()> {
    answered(rt, told.answer)?;
    line(rt, b"dynrng", told.gains.dynrng.range)?;
    line(rt, b"compr", told.gains.compr.range)?;
    line(rt, b"dynrng2", told.gains.dynrng2.range)?;
    line(rt, b"compr2", told.gains.compr2.range)
}
