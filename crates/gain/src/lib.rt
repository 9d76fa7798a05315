// The gain words of a frame as factors, dynrng and compr: the lowest and the highest, exactly.
#![tactic(auto)]

ghost use Rattle.std.specs.Prelude.{◌≡◌, ◌+◌, ◌^◌, ◌<◌, ◌≤◌, length};
ghost use Rattle.gain.specs.Factor.{dynrng_factor, compr_factor, factor_of, Exactly};
ghost use Rattle.gain.specs.Gains.{ranged_of, gains_of};
ghost use Rattle.gain.specs.Parts.{named, turn, add_to, gain_name, noted as with_word, extents_of, spread_of, answer_of};

use names::numbers::{COMPR, COMPR2, DYNRNG, DYNRNG2};

// The two kinds of gain word.
#[derive(Clone, Copy, PartialEq, Eq, Debug)]
pub enum Kind {
    Dynrng,
    Compr,
}

// The answer for some words: none was sent, or the lowest and the highest factor.
// Stays: docs/requests/08-gain-range.md names this form; an Option of a pair tells its reader neither what is none nor which
// factor is which, and gain_c/specs/Numbers states the C answer over it.
#[derive(Clone, Copy)]
pub enum Gain {
    NotSent,
    Present(f64, f64),
}

// The range record: both factors and the number of words; 1, 1 and 0 where none was sent.
#[derive(Clone, Copy)]
pub struct Range {
    pub low: f64,
    pub high: f64,
    pub words: usize,
}

// An answer with its range record, and the four of a frame: those of the first programme, and of the second.
#[derive(Clone, Copy)]
pub struct Ranged {
    pub gain: Gain,
    pub range: Range,
}

#[derive(Clone, Copy)]
pub struct Gains {
    pub dynrng: Ranged,
    pub compr: Ranged,
    pub dynrng2: Ranged,
    pub compr2: Ranged,
}

// What some words span, each turned: the lowest, the highest and how many. The same of the words of four names.
#[derive(Clone, Copy)]
struct Extent {
    low: u8,
    high: u8,
    words: usize,
}

#[derive(Clone, Copy)]
struct Extents {
    dynrng: Extent,
    compr: Extent,
    dynrng2: Extent,
    compr2: Extent,
}

// The word with its sign bit turned: 80 hex, the lowest factor, becomes 0, and 7F, the highest, 255.
fn turned(w: u8) -> u8
    ensures { result ≡ turn w }
{
    w.wrapping_add(128)
}

// The factor of a dynrng word, exactly.
fn dynrng_factor(w: u8) -> f64
    ensures { Exactly result (dynrng_factor w) }
{
    let b = turned(w) as u32;
    ((32 + b % 32) << (b / 32)) as f64 / 512.0
}

// The factor of a compr word, exactly.
fn compr_factor(w: u8) -> f64
    ensures { Exactly result (compr_factor w) }
{
    let b = turned(w) as u32;
    ((16 + b % 16) << (b / 16)) as f64 / 4096.0
}

// The factor of a word of either kind, exactly.
pub fn factor(kind: Kind, w: u8) -> f64
    ensures { Exactly result (factor_of kind w) }
{
    match kind {
        Kind::Dynrng => dynrng_factor(w),
        Kind::Compr => compr_factor(w),
    }
}

// One word more.
fn added(e: Extent, w: u8) -> Extent
    requires { e.words + 1 < 2 ^ 64 }
    ensures { result ≡ add_to e w }
{
    let b = turned(w);
    Extent {
        low: e.low.min(b),
        high: e.high.max(b),
        words: e.words + 1,
    }
}

// Whether a record of this name is a gain word.
fn gain_word(name: u8) -> bool
    ensures { result ≡ gain_name name }
{
    matches!(name, DYNRNG | COMPR | DYNRNG2 | COMPR2)
}

// One record more, for the words of its name.
fn noted(e: Extents, name: u8, w: u8) -> Extents
    requires { (e.dynrng.words + 1 < 2 ^ 64) × (e.compr.words + 1 < 2 ^ 64) × (e.dynrng2.words + 1 < 2 ^ 64) × (e.compr2.words + 1 < 2 ^ 64) }
    ensures { result ≡ with_word e name w }
{
    match name {
        DYNRNG => Extents {
            dynrng: added(e.dynrng, w),
            ..e
        },
        COMPR => Extents {
            compr: added(e.compr, w),
            ..e
        },
        DYNRNG2 => Extents {
            dynrng2: added(e.dynrng2, w),
            ..e
        },
        COMPR2 => Extents {
            compr2: added(e.compr2, w),
            ..e
        },
        _ => e,
    }
}

// What the gain words among the first `count` records span. Most records are none.
fn extents_in(names: &[u8], values: &[u32], count: usize) -> Extents
    requires { (count ≤ length names.now) × (count ≤ length values.now) }
    ensures { result ≡ extents_of (λ k. named k names.now values.now 0 count) }
{
    let none = Extent {
        low: 255,
        high: 0,
        words: 0,
    };
    let mut e = Extents {
        dynrng: none,
        compr: none,
        dynrng2: none,
        compr2: none,
    };
    for i in 0..count {
        if gain_word(names[i]) {
            e = noted(e, names[i], (values[i] % 256) as u8);
        }
    }
    e
}

// The range record of what some words of one kind span.
fn spread(kind: Kind, e: Extent) -> Range
    ensures { result ≡ spread_of kind e }
{
    if e.words == 0 {
        return Range {
            low: 1.0,
            high: 1.0,
            words: 0,
        };
    }
    Range {
        low: factor(kind, turned(e.low)),
        high: factor(kind, turned(e.high)),
        words: e.words,
    }
}

// The answer that a range record gives: no word was sent, or the pair.
fn gain_from(r: Range) -> Gain
    ensures { result ≡ answer_of r }
{
    if r.words == 0 {
        return Gain::NotSent;
    }
    Gain::Present(r.low, r.high)
}

// The answer for what some words of one kind span, with its range record.
fn told(kind: Kind, e: Extent) -> Ranged
    ensures { result ≡ record { gain = answer_of (spread_of kind e); range = spread_of kind e } }
{
    let range = spread(kind, e);
    Ranged {
        gain: gain_from(range),
        range,
    }
}

// The four answers for the first `count` records, from their names and values.
pub fn gains_in(names: &[u8], values: &[u32], count: usize) -> Gains
    requires { (count ≤ length names.now) × (count ≤ length values.now) }
    ensures { result ≡ gains_of (λ k. named k names.now values.now 0 count) }
{
    let e = extents_in(names, values, count);
    Gains {
        dynrng: told(Kind::Dynrng, e.dynrng),
        compr: told(Kind::Compr, e.compr),
        dynrng2: told(Kind::Dynrng, e.dynrng2),
        compr2: told(Kind::Compr, e.compr2),
    }
}
