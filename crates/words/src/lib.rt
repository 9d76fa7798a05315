// The six loudness words of a frame: dialnorm, dialnorm2, compr, compr2, dynrng and dynrng2. Which names are words, what a
// word holds, and a word written into a lent frame.
#![tactic(auto)]

ghost use Rattle.std.specs.Prelude.{◌≡◌, ◌+◌, ◌*◌, ◌/◌, ◌^◌, ◌≤◌, ◌<◌, length, MatchOption};
ghost use Rattle.words.specs.Words.{width_of, unfit_of, with_word};
ghost use Rattle.words.specs.Told.{Told};

use bits::{BitPlace, bits_at};
use names::numbers::{COMPR, COMPR2, DIALNORM, DIALNORM2, DYNRNG, DYNRNG2};
use refusals::Refusal;

// How many bits a word of this name has; none where the name is not one of the six.
#[tactic(auto, unfolding(crate::specs::Words::width_of))]
pub fn word_width(name: u8) -> Option<u16>
    ensures { MatchOption result (width_of name ≡ 0) (λ w. (w ≡ width_of name) × (0 < w) × (w ≤ 8)) }
{
    match name {
        DIALNORM | DIALNORM2 => Some(5),
        COMPR | COMPR2 | DYNRNG | DYNRNG2 => Some(8),
        _ => None,
    }
}

// Whether a record of this name may be set to a value: it may not where it is not one of the six, or the value too wide.
#[tactic(auto, unfolding(crate::specs::Words::unfit_of))]
pub fn fits(name: u8, value: u32) -> Result<(), Refusal>
    ensures { Told result (unfit_of name value) }
{
    let width = word_width(name).ok_or(Refusal::NotAWord)?;
    if 1 << width <= value {
        return Err(Refusal::ValueTooWide);
    }
    Ok(())
}

// A number, and behind it so many bits.
fn append(high: u32, width: u16, low: u32) -> u32
    requires { (width ≤ 16) × (high < 65536) × (low < 2 ^ width) }
    ensures { result ≡ high * 2 ^ width + low }
{
    (high << width) + low
}

// Writes a word of so many bits at a place. It lies in two bytes, whose other bits stay.
pub fn write_word(frame: &mut [u8], at: BitPlace, width: u16, value: u32)
    requires { (width ≤ 8) × (value < 2 ^ width) × (at.0 + width < 65536) × (at.0 / 8 + 1 < length frame.old) }
    ensures { frame.new ≡ with_word frame.old at.0 width value }
{
    let off = at.0 % 8;
    let first = (at.0 / 8) as usize;
    let rest = 16 - off - width;
    let before = bits_at(frame, BitPlace(at.0 - off), off);
    let behind = bits_at(frame, BitPlace(at.0 + width), rest);
    let both = append(append(before, width, value), rest, behind);
    frame[first] = (both / 256) as u8;
    frame[first + 1] = (both % 256) as u8;
}
