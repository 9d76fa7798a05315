// The adaptive hybrid transform: gain words, vector indexes and pre-mantissas of a slot (TS 102 366
// clauses E.1.2.4, E.2.4.2 and E.2.4.4).
#![tactic(auto)]

ghost use Rattle.std.specs.Prelude.{◌≡◌, List, [], cond, ℕ, ◌+◌, ◌-◌, ◌*◌, ◌^◌, ◌/◌, ◌%◌, ◌<◌, ◌≤◌, length, get_or, eqb, IfOk};
ghost use Rattle.tables.specs.Small.{vq_bits, gaq_bits};
ghost use Rattle.reading.specs.Run.{skim};
ghost use Rattle.hybrid.specs.Hybrid.{active_of, active_in, singles_of, triples_of, gains_of, small_of, large_of, premantissa_of, premantissas_of, bin_of, gain_of, next_active, bins_of, aht_of};
ghost use Rattle.hybrid.specs.Outcomes.{tags_outcome, slot_outcome, Gained, GainsOutcome};

use bits::BitPlace;
use refusals::{Refusal, Refused};
use skim::raw;

// The tags counted, and the place after them.
#[derive(Clone, Copy)]
pub struct Tags {
    pub place: BitPlace,
    pub tags: u16,
}

// Of a slot: the place after it, the tags, and the bits that it took.
#[derive(Clone, Copy)]
pub struct Transformed {
    pub place: BitPlace,
    pub tags: u16,
    pub bits: u16,
}

// Table E.2.2, hebap 0 to 7.
fn vq_bits(hebap: u8) -> u16
    ensures { (result ≡ get_or vq_bits hebap 0) × (result ≤ 9) }
{
    match hebap {
        1..=4 => u16::from(hebap) + 1,
        5..=7 => u16::from(hebap) + 2,
        _ => 0,
    }
}

// Table E.2.2, hebap 8 to 19, by hebap - 8.
fn gaq_bits(row: u8) -> u16
    ensures { (result ≡ get_or gaq_bits row 0) × (result ≤ 16) }
{
    match row {
        0..=9 => u16::from(row) + 3,
        10 => 14,
        11 => 16,
        _ => 0,
    }
}

// Whether a bin has a gain word.
fn active(mode: u32, hebap: u8) -> bool
    ensures { result ≡ active_of mode hebap }
{
    let end = if mode < 2 { 12 } else { 17 };
    8 <= hebap && hebap < end
}

// The bits of a small value, which may be the tag of a large one.
fn small(m: u16, gain: u8) -> u16
    requires { m ≤ 16 }
    ensures { (result ≡ small_of m gain) × (result ≤ 16) }
{
    m.saturating_sub(if gain == 2 { 1 } else { 2 })
}

// The bits of a large value.
fn large(m: u16, gain: u8) -> u16
    requires { m ≤ 16 }
    ensures { (result ≡ large_of m gain) × (result ≤ 16) }
{
    if gain == 2 { m.saturating_sub(1) } else { m }
}

// The small value 100..0.
fn tag(bits: u16) -> u32
    requires { bits ≤ 16 }
    ensures { result ≡ 2 ^ (bits - 1) }
{
    1 << bits.saturating_sub(1)
}

// One pre-mantissa.
fn premantissa(src: &[u8], at: BitPlace, limit: BitPlace, m: u16, gain: u8) -> Result<Tags, Refused>
    requires { (m ≤ 16) × (limit.0 ≤ 8 * length src.now) }
    ensures { (tags_outcome result ≡ skim (premantissa_of m gain) src.now at.0 limit.0) × IfOk result (λ t. t.tags ≤ 1) }
{
    if gain == 1 {
        let seen = raw(src, at, m, limit)?;
        return Ok(Tags {
            place: seen.next,
            tags: 0,
        });
    }
    let bits = small(m, gain);
    let first = raw(src, at, bits, limit)?;
    if first.value != tag(bits) {
        return Ok(Tags {
            place: first.next,
            tags: 0,
        });
    }
    let second = raw(src, first.next, large(m, gain), limit)?;
    Ok(Tags {
        place: second.next,
        tags: 1,
    })
}

// The six pre-mantissas of a bin.
fn premantissas(
    src: &[u8],
    at: BitPlace,
    limit: BitPlace,
    m: u16,
    gain: u8,
) -> Result<Tags, Refused>
    requires { (m ≤ 16) × (limit.0 ≤ 8 * length src.now) }
    ensures { (tags_outcome result ≡ skim (premantissas_of m gain 6 0) src.now at.0 limit.0) × IfOk result (λ t. t.tags ≤ 6) }
{
    let mut place = at;
    let mut tags: u16 = 0;
    for i in 0..6u16 {
        let t = premantissa(src, place, limit, m, gain)?;
        place = t.place;
        tags += t.tags;
    }
    Ok(Tags { place, tags })
}

// A bin.
fn bin(src: &[u8], at: BitPlace, limit: BitPlace, hebap: u8, gain: u8) -> Result<Tags, Refused>
    requires { limit.0 ≤ 8 * length src.now }
    ensures { (tags_outcome result ≡ skim (bin_of hebap gain) src.now at.0 limit.0) × IfOk result (λ t. t.tags ≤ 6) }
{
    if hebap < 8 {
        let seen = raw(src, at, vq_bits(hebap), limit)?;
        return Ok(Tags {
            place: seen.next,
            tags: 0,
        });
    }
    premantissas(src, at, limit, gaq_bits(hebap - 8), gain)
}

// Gain words of one bit: their gains, and the place after them.
fn singles(
    src: &[u8],
    at: BitPlace,
    limit: BitPlace,
    large: u8,
    n: usize,
    gain: &mut [u8; 258],
) -> Result<BitPlace, Refused>
    requires { (n ≤ 256) × (limit.0 ≤ 8 * length src.now) × Gained gain.old [] }
    ensures { GainsOutcome result gain.new (skim (singles_of large n []) src.now at.0 limit.0) }
{
    let mut place = at;
    for i in 0..n {
        let word = raw(src, place, 1, limit)?;
        gain[i] = if word.value == 1 { large } else { 1 };
        place = word.next;
    }
    Ok(place)
}

// Composite gain words of five bits: refused for one above 26.
fn triples(
    src: &[u8],
    at: BitPlace,
    limit: BitPlace,
    n: usize,
    gain: &mut [u8; 258],
) -> Result<BitPlace, Refused>
    requires { (n ≤ 86) × (limit.0 ≤ 8 * length src.now) × Gained gain.old [] }
    ensures { GainsOutcome result gain.new (skim (triples_of n []) src.now at.0 limit.0) }
{
    let mut place = at;
    for i in 0..n {
        let word = raw(src, place, 5, limit)?;
        if 26 < word.value {
            return Err(Refused {
                refusal: Refusal::CompositeGain,
                place: word.next,
            });
        }
        let k = 3 * i;
        gain[k] = 1 << (word.value / 9);
        gain[k + 1] = 1 << (word.value % 9 / 3);
        gain[k + 2] = 1 << (word.value % 3);
        place = word.next;
    }
    Ok(place)
}

// The gains of `n` active bins, into an array of ones.
fn read_gains(
    src: &[u8],
    at: BitPlace,
    limit: BitPlace,
    mode: u32,
    n: usize,
    gain: &mut [u8; 258],
) -> Result<BitPlace, Refused>
    requires { (n ≤ 256) × (limit.0 ≤ 8 * length src.now) × Gained gain.old [] }
    ensures { GainsOutcome result gain.new (skim (gains_of mode n) src.now at.0 limit.0) }
{
    match mode {
        0 => Ok(at),
        1 => singles(src, at, limit, 2, n, gain),
        2 => singles(src, at, limit, 4, n, gain),
        _ => triples(src, at, limit, (n + 2) / 3, gain),
    }
}

// How many bins of a range have a gain word.
fn active_in(baps: &[u8; 1792], slot: u8, start: u16, end: u16, mode: u32) -> usize
    requires { (length baps.now ≡ 1792) × (slot < 7) × (end ≤ 256) }
    ensures { (result ≡ active_in mode baps.now slot start (end - start)) × (result ≤ 256) }
{
    let base = 256 * usize::from(slot);
    let mut n: usize = 0;
    for i in start..end {
        n += usize::from(active(mode, baps[base + usize::from(i)]));
    }
    n
}

// The bins of a range.
fn read_bins(
    src: &[u8],
    baps: &[u8; 1792],
    slot: u8,
    start: u16,
    end: u16,
    mode: u32,
    gain: &[u8; 258],
    at: BitPlace,
    limit: BitPlace,
) -> Result<Tags, Refused>
    requires { (length baps.now ≡ 1792) × (slot < 7) × (end ≤ 256) × (limit.0 ≤ 8 * length src.now) }
    ensures { ((gains : List ℕ) → Gained gain.now gains → tags_outcome result ≡ skim (bins_of mode gains baps.now slot start (end - start) 0 0) src.now at.0 limit.0) × IfOk result (λ t. t.tags ≤ 1536) }
{
    let base = 256 * usize::from(slot);
    let mut place = at;
    let mut k: usize = 0;
    let mut tags: u16 = 0;
    for i in start..end {
        let hebap = baps[base + usize::from(i)];
        let is_active = active(mode, hebap);
        let t = bin(
            src,
            place,
            limit,
            hebap,
            if is_active { gain[k] } else { 1 },
        )?;
        place = t.place;
        tags += t.tags;
        k += usize::from(is_active);
    }
    Ok(Tags { place, tags })
}

// Where the gain words, vector indexes and pre-mantissas of the bins of a slot end.
fn read_slot(
    src: &[u8],
    baps: &[u8; 1792],
    slot: u8,
    start: u16,
    end: u16,
    at: BitPlace,
    limit: BitPlace,
) -> Result<Tags, Refused>
    requires { (length baps.now ≡ 1792) × (slot < 7) × (end ≤ 256) × (limit.0 ≤ 8 * length src.now) }
    ensures { (tags_outcome result ≡ skim (aht_of baps.now slot start (end - start)) src.now at.0 limit.0) × IfOk result (λ t. t.tags ≤ 1536) }
{
    let mode = raw(src, at, 2, limit)?;
    let mut gain = [1u8; 258];
    let place = read_gains(
        src,
        mode.next,
        limit,
        mode.value,
        active_in(baps, slot, start, end, mode.value),
        &mut gain,
    )?;
    read_bins(src, baps, slot, start, end, mode.value, &gain, place, limit)
}

// The gain words, vector indexes and pre-mantissas of the bins `start` to `end` - 1 of a slot: refusal 8
// at the first bit of what would pass `limit`, 13 for a composite gain above 26.
pub fn aht(
    src: &[u8],
    baps: &[u8; 1792],
    slot: u8,
    start: u16,
    end: u16,
    at: BitPlace,
    limit: BitPlace,
) -> Result<Transformed, Refused>
    requires { (length baps.now ≡ 1792) × (slot < 7) × (end ≤ 256) × (limit.0 ≤ 8 * length src.now) }
    ensures { (slot_outcome result ≡ skim (aht_of baps.now slot start (end - start)) src.now at.0 limit.0) × IfOk result (λ t. (t.tags ≤ 1536) × (t.bits ≡ t.place.0 - at.0)) }
{
    let t = read_slot(src, baps, slot, start, end, at, limit)?;
    Ok(Transformed {
        place: t.place,
        tags: t.tags,
        bits: t.place.0.saturating_sub(at.0),
    })
}
