// Items as text: a word by its name, with its block where it repeats, or by its place in the list; and its value.
#![tactic(auto)]

ghost use Rattle.std.specs.Prelude.{◌≡◌, ◌<◌, min, length, bytes_eq, IfSome};
ghost use Rattle.word_items.specs.Items.{last_to, name_of, digit_of, behind, value_to, marks_hex, number_of, is_meant, place_of};

use names::numbers::{COMPR, COMPR2, DIALNORM, DIALNORM2, DYNRNG, DYNRNG2};

// Why a word that is meant has no place in a list: no record is meant, or more than one.
#[derive(Clone, Copy, PartialEq, Eq, Debug)]
pub enum Unplaced {
    Nowhere,
    Twice,
}

// Where the last of a byte stands.
pub fn last(text: &[u8], wanted: u8) -> Option<usize>
    ensures last { result ≡ last_to text.now wanted (length text.now) }
    ensures within { IfSome result (λ i. i < length text.now) }
{
    text.iter().rposition(|c| *c == wanted)
}

fn is_word(text: &[u8], word: &[u8]) -> bool
    ensures { result ≡ bytes_eq text.now word.now }
{
    text == word
}

// The number of the word that a text spells.
#[tactic(auto, unfolding(crate::specs::Items::name_of))]
pub fn name_of(text: &[u8]) -> Option<u8>
    ensures { result ≡ name_of text.now }
{
    if is_word(text, b"dialnorm") {
        Some(DIALNORM)
    } else if is_word(text, b"dialnorm2") {
        Some(DIALNORM2)
    } else if is_word(text, b"compr") {
        Some(COMPR)
    } else if is_word(text, b"compr2") {
        Some(COMPR2)
    } else if is_word(text, b"dynrng") {
        Some(DYNRNG)
    } else if is_word(text, b"dynrng2") {
        Some(DYNRNG2)
    } else {
        None
    }
}

// What a letter counts as a digit.
#[tactic(auto, unfolding(crate::specs::Items::digit_of))]
fn digit(c: u8) -> Option<u32>
    ensures { result ≡ digit_of c }
{
    match c {
        b'0'..=b'9' => Some(c as u32 - 48),
        b'a'..=b'f' => Some(c as u32 - 87),
        _ => None,
    }
}

// A digit more behind a number.
#[tactic(auto, unfolding(crate::specs::Items::behind))]
fn further(base: u32, value: u32, d: u32) -> Option<u32>
    ensures { result ≡ behind base (Some value) (Some d) }
{
    if base <= d {
        return None;
    }
    value.checked_mul(base)?.checked_add(d)
}

// The number that some letters write.
fn digits(text: &[u8], base: u32) -> Option<u32>
    ensures { result ≡ value_to text.now base 0 (length text.now) }
{
    let mut value = 0;
    for c in text {
        value = further(base, value, digit(*c)?)?;
    }
    Some(value)
}

#[tactic(auto, unfolding(crate::specs::Items::marks_hex))]
fn marks_hex(a: u8, b: u8) -> bool
    ensures { result ≡ marks_hex a b }
{
    a == b'0' && b == b'x'
}

// The number that a text writes: decimal, or hexadecimal behind 0x.
pub fn number_of(text: &[u8]) -> Option<u32>
    ensures { result ≡ number_of text.now }
{
    if text.is_empty() {
        return None;
    }
    if text.len() <= 2 {
        return digits(text, 10);
    }
    if marks_hex(text[0], text[1]) {
        return digits(&text[2..], 16);
    }
    digits(text, 10)
}

// Whether a record is the word meant: its name, and its block where one is told.
#[tactic(auto, unfolding(crate::specs::Items::is_meant))]
fn is_meant(n: u8, b: u8, name: u8, block: Option<u8>) -> bool
    ensures { result ≡ is_meant n b name block }
{
    match block {
        None => n == name,
        Some(block) => n == name && b == block,
    }
}

// The place of the one record that is meant.
pub fn place_of(names: &[u8], blocks: &[u8], name: u8, block: Option<u8>) -> Result<usize, Unplaced>
    ensures { result ≡ place_of names.now blocks.now (min (length names.now) (length blocks.now)) name block }
{
    let mut place = None;
    for t in 0..names.len().min(blocks.len()) {
        if is_meant(names[t], blocks[t], name, block) {
            if place.is_some() {
                return Err(Unplaced::Twice);
            }
            place = Some(t);
        }
    }
    place.ok_or(Unplaced::Nowhere)
}
