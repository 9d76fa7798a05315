// The powers of the bins and their sums by band: A/52 clauses 7.2.2.2 and 7.2.2.3, TS 102 366 clauses 6.2.2.2 and 6.2.2.3. On
// levels: see the crate `alloc`.
#![tactic(auto)]

ghost use Rattle.std.specs.Prelude.{◌≡◌, ◌+◌, ◌/◌, ◌<◌, ◌≤◌, min, get_or, replicate};
ghost use Rattle.tables.specs.BitAllocation.{latab as laTab, bndend};
ghost use Rattle.tables.specs.Bands.{band_of};
ghost use Rattle.alloc.specs.Levels.{psd_l, LogSum, steps_below, range_l};
ghost use Rattle.alloc.specs.Premises.{Exponents};

use alloc::end_of;

// The exponents of a channel, which has the bins start .. end - 1.
#[derive(Clone, Copy)]
pub struct Bins<'a> {
    pub exps: &'a [u8],
    pub start: usize,
    pub end: usize,
    pub ghost some: { start < end },
    pub ghost within: { end ≤ 253 },
    pub ghost ready: { Exponents exps.now start end },
}

// The larger of two powers that lie d apart, raised as log addition says. From 510 on the table has 0.
fn raised(latab: &[u8; 256], top: u32, d: u32) -> u32
    requires { (latab.now ≡ laTab) × (top < 65536) }
    ensures { result ≡ top + get_or laTab (min (d / 2) 255) 0 }
{
    if d < 510 {
        top + u32::from(latab[(d / 2) as usize])
    } else {
        top
    }
}

// The sum of two powers, at least the larger and at most 64 above it.
fn logadd(latab: &[u8; 256], a: u32, b: u32) -> u32
    requires { (latab.now ≡ laTab) × (a < 65536) × (b < 65536) }
    ensures { LogSum a b result }
{
    if a < b {
        raised(latab, b, b - a)
    } else {
        raised(latab, a, a - b)
    }
}

// The power of an exponent.
fn power(e: u8) -> u32
    requires { e ≤ 24 }
    ensures { result ≡ psd_l e }
{
    8192 + 3072 - 128 * u32::from(e)
}

// The same in steps of 32 below 3072.
fn below(e: u8) -> u8
    requires { e ≤ 24 }
    ensures { result ≡ steps_below (psd_l e) }
{
    4 * e
}

// The powers of a channel's bins and the sums of their bands, in one pass: s is the sum of band k, which ends at the bin
// `to`. The other bins keep 0, and the other bands the level of 0.
// Stays: two tables by themselves; with `Tables` of `alloc`, `bands` would ask for the others too.
pub fn bands(
    latab: &[u8; 256],
    ends: &[u8; 50],
    bins: &Bins,
    powers: &mut [u8; 256],
    bnd: &mut [u32; 50],
    first: usize,
)
    requires latab_value { (latab.now ≡ laTab) × (ends.now ≡ bndend) × (powers.old ≡ replicate 256 0) × (bnd.old ≡ replicate 50 8192) }
    requires first_band { first ≡ band_of bins.now.start }
    ensures { (powers.new ≡ (range_l bins.now.exps.now bins.now.start bins.now.end).powers) × (bnd.new ≡ (range_l bins.now.exps.now bins.now.start bins.now.end).sums) }
{
    let exps = bins.exps;
    let o = exps[bins.start];
    powers[bins.start] = below(o);
    let mut s = power(o);
    let mut k = first;
    let mut to = end_of(ends, first);
    for j in bins.start + 1..bins.end {
        let e = exps[j];
        powers[j] = below(e);
        let p = power(e);
        if j == to {
            bnd[k] = s;
            k += 1;
            to = end_of(ends, k);
            s = p;
        } else {
            s = logadd(latab, s, p);
        }
    }
    bnd[k] = s;
}
