// The pointers of parametric bit allocation, from the masks, and the whole: A/52 clauses 7.2.2 and 7.2.2.7, TS 102 366 clauses 6.2.2
// and 6.2.2.7. On levels: see the crate `alloc`.

#![tactic(auto)]

ghost use Rattle.std.specs.Prelude.{◌≡◌, ℕ, ◌+◌, ◌-◌, ◌/◌, ◌%◌, ◌<◌, ◌≤◌, max, pos, negsuc, length, get_or, replicate, ◌≤ℤ◌};
ghost use Rattle.tables.specs.Bands.{band_of, BinBand};
ghost use Rattle.alloc.specs.Allocation.{fast_of, slow_of, allocation};
ghost use Rattle.alloc.specs.Levels.{place_l, places_l, point_l, pointer_l, allocation_l, base_of, gains_of, leaks_of, level_of, levels_of};
ghost use Rattle.alloc.specs.Premises.{Exponents, Written, Tuned, Channelled, Levelled, Leaking, Pointed};
ghost use Rattle.alloc.specs.Shares.{shares_of};

use alloc::{Channel, Deltas, Gains, Leak, Leaks, Levels, Params, Pointers, Tables, end_of};
use band_sums::Bins;
use masking::{Bands, Curve};

// The band of a bin.
fn band_of(tables: &Tables, bin: usize) -> usize
    requires { bin < 253 }
    ensures { BinBand bin result }
{
    usize::from(tables.masktab[bin])
}

// The place of a mask, with `down` taken away, in steps of 32 from `base` on.
fn place(mask: u32, down: u32, base: u32) -> u32
    requires { base ≤ 160 }
    ensures { (result ≡ (mask - down) / 32 % 256 + base) × (result ≤ 415) }
{
    mask.saturating_sub(down) / 32 % 256 + base
}

// The places of the bands of a range, in place of their masks.
fn place_bands(bands: &Bands, out: &mut [u32; 50], curve: &Curve)
    ensures { Written (λ b. place_l (get_or out.old b 0) curve.now.levels.snr curve.now.levels.floor) bands.now.first bands.now.last out.old out.new }
{
    let q = curve.levels;
    let down = q.snr + q.floor - 960;
    let base = 160 - (11264 - q.floor) / 32;
    for b in bands.first..bands.last {
        out[b] = place(out[b], down, base);
    }
}

// The places of the bands of a range among the pointers. The other bands keep 0.
fn places(tables: &Tables, bands: &Bands, out: &mut [u32; 50], curve: &Curve)
    requires { out.old ≡ replicate 50 0 }
    ensures { out.new ≡ places_l curve.now.gains curve.now.leaks curve.now.levels curve.now.deltas bands.now.powers.now bands.now.first bands.now.last }
{
    bands.masks(tables.hth, out, curve);
    place_bands(bands, out, curve);
}

// The pointer of a bin whose power is w steps below 3072, in a band with its place in the table.
fn pointer(points: &[u8; 1024], place: usize, w: u8) -> u8
    requires { (place ≤ 927) × (w ≤ 96) }
    ensures { result ≡ get_or points.now (place + w) 0 }
{
    points[place + usize::from(w)]
}

// What the pointers of a channel are looked up by: the tables, where its table starts among the pointers, the powers of its bins
// and the places of its bands.
#[derive(Clone, Copy)]
struct Lookup<'a> {
    tables: &'a Tables<'a>,
    base: usize,
    powers: &'a [u8; 256],
    places: &'a [u32; 50],
    ghost base_most: { base ≤ 512 },
    ghost power_most: { (j : ℕ) → get_or powers.now j 0 ≤ 96 },
    ghost place_most: { (k : ℕ) → get_or places.now k 0 ≤ 415 },
}

impl<'a> Lookup<'a> {
    // The pointers of the bins lo .. hi - 1 of a band with its place in the table, and the sum of their shares.
    fn point(&self, out: &mut [u8], lo: usize, hi: usize, place: usize) -> u64
        requires { (lo ≤ hi) × (hi ≤ 256) × (hi ≤ length out.old) × (place ≤ 927) }
        ensures { Pointed self.now.tables.now.shares.now (point_l self.now.tables.now.points.now self.now.powers.now place) lo hi out.old out.new result }
    {
        let points = self.tables.points;
        let shares = self.tables.shares;
        let powers = self.powers;
        let mut sum = 0;
        for j in lo..hi {
            let b = pointer(points, place, powers[j]);
            out[j] = b;
            sum += shares[usize::from(b)];
        }
        sum
    }

    // The same of the bins from .. to - 1 below 28, each of which is a band.
    // Stays: beside `point`, whose bins have one place; one loop for both would take that place by a closure, and is no plainer.
    fn point_singles(&self, out: &mut [u8], from: usize, to: usize) -> u64
        requires { (from ≤ to) × (to ≤ max from 28) × (to ≤ length out.old) }
        ensures { Pointed self.now.tables.now.shares.now (pointer_l self.now.tables.now.points.now self.now.base self.now.powers.now self.now.places.now) from to out.old out.new result }
    {
        let points = self.tables.points;
        let shares = self.tables.shares;
        let powers = self.powers;
        let places = self.places;
        let base = self.base;
        let mut sum = 0;
        for j in from..to {
            let b = pointer(points, base + places[j] as usize, powers[j]);
            out[j] = b;
            sum += shares[usize::from(b)];
        }
        sum
    }

    // The same of the bins start .. end - 1, which are in the bands first .. last - 1.
    fn point_bands(
        &self,
        out: &mut [u8],
        start: usize,
        end: usize,
        first: usize,
        last: usize,
    ) -> u64
        requires within { (start ≤ end) × (end ≤ 253) × (end ≤ length out.old) }
        requires some { start < end → (first ≡ band_of start) × (last ≡ band_of (end - 1) + 1) }
        requires none { end ≤ start → last ≤ first }
        ensures { Pointed self.now.tables.now.shares.now (pointer_l self.now.tables.now.points.now self.now.base self.now.powers.now self.now.places.now) start end out.old out.new result }
    {
        let mut sum = 0;
        let mut j = start;
        for k in first..last {
            let hi = end.min(end_of(self.tables.ends, k));
            sum += self.point(out, j, hi, self.base + self.places[k] as usize);
            j = hi;
        }
        sum
    }

    // The same of the bins start .. end - 1, which are in the bands first .. last - 1: those below 28, and the others.
    fn point_all(&self, out: &mut [u8], start: usize, end: usize, first: usize, last: usize) -> u64
        requires within { (start < end) × (end ≤ 253) × (end ≤ length out.old) }
        requires bands { (first ≡ band_of start) × (last ≡ band_of (end - 1) + 1) }
        ensures { Pointed self.now.tables.now.shares.now (pointer_l self.now.tables.now.points.now self.now.base self.now.powers.now self.now.places.now) start end out.old out.new result }
    {
        let single = end.min(28);
        let mid = start.max(single);
        let low = self.point_singles(out, start, mid);
        let high = self.point_bands(out, mid, end, first.max(single), last);
        low + high
    }
}

// Zeros at from .. to - 1.
fn clear(out: &mut [u8], from: usize, to: usize)
    requires { (from ≤ to) × (to ≤ length out.old) }
    ensures { Written (λ k. 0) from to out.old out.new }
{
    out[from..to].fill(0);
}

// The pointers of an empty range: 256 zeros.
pub fn no_bins(out: &mut [u8])
    requires { length out.old ≡ 256 }
    ensures { out.new ≡ replicate 256 0 }
{
    out.fill(0);
}

// The pointers of a range that is not empty, on levels.
fn allocate_some(tables: &Tables, bins: &Bins, out: &mut [u8], curve: &Curve, base: usize) -> u64
    requires { (base ≤ 512) × (length out.old ≡ 256) }
    ensures out_after { out.new ≡ allocation_l tables.now.points.now base bins.now.exps.now bins.now.start bins.now.end curve.now.gains curve.now.leaks curve.now.levels curve.now.deltas }
    ensures value { result ≡ shares_of tables.now.shares.now (allocation_l tables.now.points.now base bins.now.exps.now bins.now.start bins.now.end curve.now.gains curve.now.leaks curve.now.levels curve.now.deltas) bins.now.start (bins.now.end - bins.now.start) }
{
    let start = bins.start;
    let end = bins.end;
    let first = band_of(tables, start);
    let last = band_of(tables, end - 1) + 1;
    let mut sums = [8192u32; 50];
    let mut powers = [0u8; 256];
    band_sums::bands(
        tables.latab,
        tables.ends,
        bins,
        &mut powers,
        &mut sums,
        first,
    );
    let bands = Bands {
        powers: &sums,
        first,
        last,
    };
    let mut of_bands = [0u32; 50];
    places(tables, &bands, &mut of_bands, curve);
    clear(out, 0, start);
    clear(out, end, 256);
    let lookup = Lookup {
        tables,
        base,
        powers: &powers,
        places: &of_bands,
    };
    lookup.point_all(out, start, end, first, last)
}

// A floor as a level.
fn level(x: i32) -> u32
    requires { (negsuc 2047 ≤ℤ x) × (x ≤ℤ pos 752) }
    ensures { (result ≡ level_of x) × (6144 ≤ result) × (result ≤ 11264) }
{
    (x + 8192) as u32
}

fn leaks_of(l: Option<Leak>) -> Leaks
    requires { (fast_of l ≤ 2560) × (slow_of l ≤ 2560) }
    ensures { (result ≡ leaks_of l) × Leaking result }
{
    match l {
        None => Leaks {
            fast: 8192,
            slow: 8192,
        },
        Some(leak) => Leaks {
            fast: 8192 + leak.fast,
            slow: 8192 + leak.slow,
        },
    }
}

// What the masks of a channel are made with.
fn curve_of(c: Channel, p: Params, l: Option<Leak>, d: Deltas) -> Curve
    requires { (Channelled c l d) × Tuned p }
    ensures gains { result.gains ≡ gains_of c.fgain p }
    ensures leaks { result.leaks ≡ leaks_of l }
    ensures levels { result.levels ≡ levels_of p c.csnroffst c.fsnroffst }
    ensures deltas { result.deltas ≡ d }
{
    let floor = p.floor;
    Curve {
        gains: Gains {
            fgain: c.fgain,
            sgain: p.sgain,
            fdecay: p.fdecay,
            sdecay: p.sdecay,
        },
        leaks: leaks_of(l),
        levels: Levels {
            knee: 8192 + p.dbknee,
            floor: level(floor),
            snr: 64 * u32::from(c.csnroffst) + 4 * u32::from(c.fsnroffst),
            fscod: p.fscod,
        },
        deltas: d,
    }
}

fn base_of(kind: Pointers) -> usize
    ensures { (result ≡ base_of kind) × (result ≤ 512) }
{
    match kind {
        Pointers::Bap => 0,
        Pointers::Hebap => 512,
    }
}

// The 256 pointers of a channel, into `out`: those of the bins start .. end - 1, and 0 elsewhere. Gives the sum of the shares
// of these bins' pointers.
// Stays: `out` is a slice, whose length `exponents` asks for; an array would ask more of the callers of `allocate`.
pub fn allocate(
    tables: &Tables,
    exps: &[u8],
    out: &mut [u8],
    c: Channel,
    p: Params,
    l: Option<Leak>,
    d: Deltas,
    kind: Pointers,
) -> u64
    requires exponents { (Exponents exps.now c.start c.end) × (length out.old ≡ 256) }
    requires channelled { (Channelled c l d) × Tuned p }
    ensures out_after { out.new ≡ allocation kind exps.now c p l d }
    ensures value { result ≡ shares_of tables.now.shares.now (allocation kind exps.now c p l d) c.start (c.end - c.start) }
{
    if c.end <= c.start {
        no_bins(out);
        return 0;
    }
    let bins = Bins {
        exps,
        start: c.start,
        end: c.end,
    };
    let curve = curve_of(c, p, l, d);
    allocate_some(tables, &bins, out, &curve, base_of(kind))
}
