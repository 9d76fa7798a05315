// An answer as numbers, for hosts outside.
#![tactic(auto)]

ghost use Rattle.std.specs.Prelude.{◌≡◌, ◌+◌, ◌≤◌, length};
ghost use Rattle.answer.specs.Answer.{number_of};
ghost use Rattle.answer_c.specs.Numbers.{frame_numbers, written, laid, bits_laid, laid_of};
ghost use Rattle.answer_c.specs.Parts.{Bare, refusal_laid};

use answer::{Answer, Frame, SlotBits, count_of, number_of, place_of};

// What the answer tells of a frame, as numbers, but for the bits of the slots.
pub fn numbers(f: Frame) -> [u16; 31]
    ensures { result ≡ frame_numbers f }
{
    let blocks = f.block_starts;
    let mantissas = f.mantissa_starts;
    [
        f.bytes.0,
        f.bsid,
        f.acmod,
        u16::from(f.lfeon),
        f.fscod,
        f.strmtyp,
        f.substreamid,
        f.numblks,
        blocks[0].0,
        blocks[1].0,
        blocks[2].0,
        blocks[3].0,
        blocks[4].0,
        blocks[5].0,
        mantissas[0].0,
        mantissas[1].0,
        mantissas[2].0,
        mantissas[3].0,
        mantissas[4].0,
        mantissas[5].0,
        f.audio_end.0,
        f.aht_tags,
        u16::from(f.aht_slots[0]),
        u16::from(f.aht_slots[1]),
        u16::from(f.aht_slots[2]),
        u16::from(f.aht_slots[3]),
        u16::from(f.aht_slots[4]),
        u16::from(f.aht_slots[5]),
        u16::from(f.aht_slots[6]),
        f.spx_blocks,
        f.cpl_blocks,
    ]
}

// Writes numbers from a place on.
fn lay_from(out: &mut [u64], at: usize, numbers: &[u16])
    requires { at + length numbers.now ≤ length out.old }
    ensures { out.new ≡ written out.old at numbers.now (length numbers.now) }
{
    for (i, number) in numbers.iter().enumerate() {
        out[i + at] = u64::from(*number);
    }
}

// Writes three numbers and those of a frame.
fn lay(out: &mut [u64], number: u64, place: u64, count: u64, frame: &[u16; 31])
    requires { 34 ≤ length out.old }
    ensures { out.new ≡ laid out.old number place count frame.now }
{
    out[0] = number;
    out[1] = place;
    out[2] = count;
    lay_from(out, 3, frame);
}

// Writes the three numbers of a refusal, and zeros for the frame that there is not.
fn lay_refusal(out: &mut [u64], number: u64, place: u64, count: u64)
    requires { 76 ≤ length out.old }
    ensures { out.new ≡ refusal_laid out.old number place count }
{
    out[0] = number;
    out[1] = place;
    out[2] = count;
    out[3..76].fill(0);
}

// Writes the bits of the slots of six blocks.
fn lay_bits(out: &mut [u64], slots: &[SlotBits; 6])
    requires { 76 ≤ length out.old }
    ensures { out.new ≡ bits_laid out.old slots.now 6 }
{
    for (block, here) in slots.iter().enumerate() {
        lay_from(out, 34 + 7 * block, &here.bits);
    }
}

// Writes an answer, and gives its number. A refusal has no frame, whose numbers are not looked at.
pub fn tell(out: &mut [u64], a: Answer) -> u8
    requires { Bare a × (76 ≤ length out.old) }
    ensures { (result ≡ number_of a) × (out.new ≡ laid_of out.old a) }
{
    let v = a.verdict;
    let f = a.frame;
    let number = number_of(v);
    let place = u64::from(place_of(v, f));
    let count = count_of(v, f) as u64;
    if number == 0 {
        lay(out, u64::from(number), place, count, &numbers(f));
        lay_bits(out, &f.slot_bits);
    } else {
        lay_refusal(out, u64::from(number), place, count);
    }
    number
}
