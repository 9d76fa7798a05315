// The gain range of a frame for hosts outside: a C function over slices and numbers.
#![tactic(auto)]

ghost use Rattle.std.specs.Prelude.{◌≡◌, ◌+◌, ◌≤◌, length};
ghost use Rattle.reading.specs.Room.{room};
ghost use Rattle.answer.specs.Answer.{number_of};
ghost use Rattle.gain_c.specs.Numbers.{present_of, sent_laid, first_laid, numbers_laid, pair_laid, factors_laid, GainsGiven};

use answer::{Answer, count_of, number_of, place_of};
use gain::{Gain, Gains, Range, Ranged};
use gain_range::gain_range;

fn present(g: Gain) -> u64
    ensures { result ≡ present_of g }
{
    match g {
        Gain::NotSent => 0,
        Gain::Present(_, _) => 1,
    }
}

// Writes what is told of one of the four from a place on: whether words were sent, and how many.
fn lay_sent(out: &mut [u64], at: usize, r: Ranged)
    requires { at + 2 ≤ length out.old }
    ensures { out.new ≡ sent_laid out.old at r }
{
    let gain = r.gain;
    out[at] = present(gain);
    out[at + 1] = r.range.words as u64;
}

fn lay_first(out: &mut [u64], number: u64, place: u64, count: u64)
    requires { 3 ≤ length out.old }
    ensures { out.new ≡ first_laid out.old number place count }
{
    out[0] = number;
    out[1] = place;
    out[2] = count;
}

// Writes number, place and count of an answer, and what is told of the four. Gives the number.
fn tell(out: &mut [u64], a: Answer, g: Gains) -> u8
    requires { 11 ≤ length out.old }
    ensures { (result ≡ number_of a) × (out.new ≡ numbers_laid out.old a g) }
{
    let v = a.verdict;
    let f = a.frame;
    let number = number_of(v);
    lay_first(
        out,
        number as u64,
        place_of(v, f) as u64,
        count_of(v, f) as u64,
    );
    lay_sent(out, 3, g.dynrng);
    lay_sent(out, 5, g.compr);
    lay_sent(out, 7, g.dynrng2);
    lay_sent(out, 9, g.compr2);
    number
}

// Writes the lowest and the highest factor from a place on; those of the four.
fn lay_pair(out: &mut [f64], at: usize, r: Range)
    requires { at + 2 ≤ length out.old }
    ensures { out.new ≡ pair_laid out.old at r }
{
    out[at] = r.low;
    out[at + 1] = r.high;
}

fn lay_factors(out: &mut [f64], g: Gains)
    requires { 8 ≤ length out.old }
    ensures { out.new ≡ factors_laid out.old g }
{
    lay_pair(out, 0, g.dynrng.range);
    lay_pair(out, 2, g.compr.range);
    lay_pair(out, 4, g.dynrng2.range);
    lay_pair(out, 6, g.compr2.range);
}

// Reads the frame at the beginning of `frame`, and tells the lowest and the highest factor of its gain words: of dynrng,
// compr, dynrng2 and compr2. Gives 0, or the number of the refusal; the answer says more.
#[unsafe(no_mangle)]
pub extern "C" fn eac3_gain_range(
    frame: &[u8],
    names: &mut [u8],
    blocks: &mut [i8],
    indexes: &mut [i16],
    firsts: &mut [u16],
    widths: &mut [u16],
    values: &mut [u32],
    factors: &mut [f64; 8],
    answer: &mut [u64; 11],
) -> u8
    ensures { GainsGiven frame.now (room names.old blocks.old indexes.old firsts.old widths.old values.old) result
        (room names.new blocks.new indexes.new firsts.new widths.new values.new)
        factors.old factors.new answer.old answer.new }
{
    let told = gain_range(frame, names, blocks, indexes, firsts, widths, values);
    lay_factors(factors, told.gains);
    tell(answer, told.answer, told.gains)
}
