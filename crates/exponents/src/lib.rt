// Exponents out of their groups (A/52 clause 7.1.3, TS 102 366 clause 6.1.3).
//
// `exps` holds seven slots of 256 exponents: of the five full bandwidth channels, the coupling channel (5)
// and the LFE channel (6).
// Stays: one array and not seven, since `put_of`, `Held` and `pointed_of` of specs speak of one list of 1,792.
#![tactic(auto)]

ghost use Rattle.std.specs.Prelude.{◌≡◌, ◌+◌, ◌*◌, ◌<◌, ◌≤◌, length};
ghost use Rattle.exponents.specs.Exponents.{next_of, decode_of, size_of, groups_of, start_of, first_of, put_of, spread_of, laid_of};

use refusals::Refusal;
use slots::{CPL, LFE};

pub mod set; // a set of exponents, read group by group

// An exponent after one step, or none where it leaves 0 to 24.
#[tactic(auto, using(std::proofs::lemmas::Bool::Decides::nat_tests), unfolding(crate::specs::Exponents::next_of))]
fn step(prev: u32, m: u32) -> Option<u32>
    requires { (prev < 256) × (m < 5) }
    ensures { result ≡ next_of prev m }
{
    match prev + m {
        sum @ 2..=26 => Some(sum - 2),
        _ => None,
    }
}

// The three exponents of a group, from the exponent before it; refused where the group is above 124, and where
// an exponent leaves 0 to 24.
pub fn decode(prev: u32, group: u32) -> Result<(u32, u32, u32), Refusal>
    requires { prev < 256 }
    ensures { result ≡ decode_of prev group }
{
    if 124 < group {
        return Err(Refusal::GroupedExponent);
    }
    let a = step(prev, group / 25).ok_or(Refusal::ExponentOutside)?;
    let b = step(a, group % 25 / 5).ok_or(Refusal::ExponentOutside)?;
    let c = step(b, group % 25 % 5).ok_or(Refusal::ExponentOutside)?;
    Ok((a, b, c))
}

// How many bins share an exponent: strategy 1 is D15, 2 is D25, 3 is D45.
#[tactic(auto, using(std::proofs::lemmas::Bool::Decides::nat_tests), unfolding(crate::specs::Exponents::size_of))]
pub fn group_size(strategy: u8) -> u32
    ensures { (result ≡ size_of strategy) × (1 ≤ result) × (result ≤ 4) }
{
    match strategy {
        3 => 4,
        2 => 2,
        _ => 1,
    }
}

// The number of groups of a set that ends before the bin `end`, of the coupling channel from `start` on.
#[tactic(auto, using(std::proofs::lemmas::Bool::Decides::nat_tests), unfolding(crate::specs::Exponents::groups_of))]
pub fn groups(slot: u8, strategy: u8, start: u16, end: u16) -> u16
    ensures { result ≡ groups_of slot strategy start end }
{
    let size = 3 * group_size(strategy);
    match slot {
        CPL => (u32::from(end.saturating_sub(start)) / size) as u16,
        LFE => 2,
        _ => ((u32::from(end.saturating_sub(1)) + (size - 3)) / size) as u16,
    }
}

// The value that the first group counts from.
#[tactic(auto, using(std::proofs::lemmas::Bool::Decides::nat_tests), unfolding(crate::specs::Exponents::start_of))]
pub fn start_of(slot: u8, absexp: u8) -> u32
    requires { absexp ≤ 15 }
    ensures { result ≡ start_of slot absexp }
{
    let value = u32::from(absexp);
    if slot == CPL { 2 * value } else { value }
}

// The bin that the first group's exponents begin at.
#[tactic(auto, using(std::proofs::lemmas::Bool::Decides::nat_tests), unfolding(crate::specs::Exponents::first_of))]
pub fn first_of(slot: u8, start: u16) -> u16
    ensures { result ≡ first_of slot start }
{
    if slot == CPL { start } else { 1 }
}

// The exponent of a bin; nothing where there is no such slot or bin.
#[tactic(auto, using(std::proofs::lemmas::Bool::Decides::nat_tests), unfolding(crate::specs::Exponents::put_of))]
pub fn put(exps: &mut [u8; 1792], slot: u8, bin: u32, e: u8)
    requires { length exps.old ≡ 1792 }
    ensures { exps.new ≡ put_of exps.old slot bin e }
{
    if slot < 7 && bin < 256 {
        exps[256 * usize::from(slot) + bin as usize] = e;
    }
}

// One exponent for N bins, of which the slot may not have all.
fn spread<const N: usize>(exps: &mut [u8; 1792], slot: u8, bin: u32, e: u8)
    requires { (length exps.old ≡ 1792) × (bin + N < 4294967296) }
    ensures { exps.new ≡ spread_of exps.old slot bin N e }
{
    for k in bin..bin + N as u32 {
        put(exps, slot, k, e);
    }
}

// One exponent for N bins that the slot has.
// Stays: beside `spread`, whose test of each bin takes a tenth more time a group.
fn spread_in<const N: usize>(exps: &mut [u8; 1792], slot: u8, bin: u32, e: u8)
    requires { (length exps.old ≡ 1792) × (slot < 7) × (bin + N ≤ 256) }
    ensures { exps.new ≡ spread_of exps.old slot bin N e }
{
    let first = 256 * usize::from(slot) + bin as usize;
    for k in 0..N {
        exps[first + k] = e;
    }
}

// A group whose bins the slot has.
fn lay_in<const N: usize>(exps: &mut [u8; 1792], slot: u8, bin: u32, a: u8, b: u8, c: u8)
    requires { (length exps.old ≡ 1792) × (slot < 7) × (bin + 3 * N ≤ 256) }
    ensures { exps.new ≡ laid_of exps.old slot N bin a b c }
{
    spread_in::<N>(exps, slot, bin, a);
    spread_in::<N>(exps, slot, bin + N as u32, b);
    spread_in::<N>(exps, slot, bin + 2 * N as u32, c);
}

// A group some of whose bins the slot may not have.
fn lay_each<const N: usize>(exps: &mut [u8; 1792], slot: u8, bin: u32, a: u8, b: u8, c: u8)
    requires { (length exps.old ≡ 1792) × (N ≤ 4) × (bin + 12 < 4294967296) }
    ensures { exps.new ≡ laid_of exps.old slot N bin a b c }
{
    spread::<N>(exps, slot, bin, a);
    spread::<N>(exps, slot, bin + N as u32, b);
    spread::<N>(exps, slot, bin + 2 * N as u32, c);
}

// The same by its strategy: out of the loop over groups, whose registers it would take.
#[inline(never)]
#[tactic(auto, using(std::proofs::lemmas::Bool::Decides::nat_tests), unfolding(crate::specs::Exponents::size_of))]
fn lay_some(exps: &mut [u8; 1792], slot: u8, strategy: u8, bin: u32, a: u8, b: u8, c: u8)
    requires { (length exps.old ≡ 1792) × (bin + 12 < 4294967296) }
    ensures { exps.new ≡ laid_of exps.old slot (size_of strategy) bin a b c }
{
    match strategy {
        3 => lay_each::<4>(exps, slot, bin, a, b, c),
        2 => lay_each::<2>(exps, slot, bin, a, b, c),
        _ => lay_each::<1>(exps, slot, bin, a, b, c),
    }
}

// The three exponents of a group, each for as many bins as the strategy has it, from the bin `bin` on.
#[tactic(auto, using(std::proofs::lemmas::Bool::Decides::nat_tests), unfolding(crate::specs::Exponents::size_of))]
pub fn lay(exps: &mut [u8; 1792], slot: u8, strategy: u8, bin: u32, a: u8, b: u8, c: u8)
    requires { (length exps.old ≡ 1792) × (bin + 12 < 4294967296) }
    ensures { exps.new ≡ laid_of exps.old slot (size_of strategy) bin a b c }
{
    if 7 <= slot || 244 < bin {
        lay_some(exps, slot, strategy, bin, a, b, c);
        return;
    }
    match strategy {
        3 => lay_in::<4>(exps, slot, bin, a, b, c),
        2 => lay_in::<2>(exps, slot, bin, a, b, c),
        _ => lay_in::<1>(exps, slot, bin, a, b, c),
    }
}
