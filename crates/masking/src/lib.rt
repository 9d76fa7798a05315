// The masks of parametric bit allocation, from the powers of the bands on: A/52 clauses 7.2.2.4 to 7.2.2.6, TS 102 366
// clauses 6.2.2.4 to 6.2.2.6. On levels: see the crate `alloc`.

#![tactic(auto)]

ghost use Rattle.std.specs.Prelude.{◌≡◌, ℕ, ◌+◌, ◌-◌, ◌<◌, ◌≤◌, max, get_or, replicate};
ghost use Rattle.tables.specs.BitAllocation.{hth as hthTab};
ghost use Rattle.alloc.specs.Allocation.{lfe_last};
ghost use Rattle.alloc.specs.Levels.{lowcomp_l, next_low_l, decay_from_l, begin_l, NextL, excite_l, hear_l, masked_l, mask_l};
ghost use Rattle.alloc.specs.Premises.{Written, Levelled, Gained, Leaking, Excites};

use alloc::{Deltas, Gains, Leaks, Levels, Passed};
use segments::shift;

// What the masks of a channel are made with, besides the powers of its bands.
#[derive(Clone, Copy)]
pub struct Curve {
    pub gains: Gains,
    pub leaks: Leaks,
    pub levels: Levels,
    pub deltas: Deltas,
    pub ghost gained: { Gained gains },
    pub ghost leaking: { Leaking leaks },
    pub ghost levelled: { Levelled levels },
    pub ghost segments: { deltas.n ≤ 8 },
}

// The powers of the bands, of which a channel has the bands first .. last - 1.
#[derive(Clone, Copy)]
pub struct Bands<'a> {
    pub powers: &'a [u32; 50],
    pub first: usize,
    pub last: usize,
    pub ghost ordered: { first ≤ last },
    pub ghost within: { last ≤ 50 },
    pub ghost most: { (k : ℕ) → get_or powers.now k 0 < 32768 },
    pub ghost least: { (k : ℕ) → k < 50 → 8192 ≤ get_or powers.now k 0 },
}

// calc_lowcomp
fn calc_lowcomp(a: u32, b0: u32, b1: u32, bin: usize) -> u32
    requires { b0 < 65536 }
    ensures { result ≡ lowcomp_l a b0 b1 bin }
{
    if bin < 20 {
        if b0 + 256 == b1 {
            if bin < 7 { 384 } else { 320 }
        } else if b1 < b0 {
            a.saturating_sub(64)
        } else {
            a
        }
    } else {
        a.saturating_sub(128)
    }
}

// The last band of the LFE channel has no band after it to compare with.
fn lfe_last(last: usize, b: usize) -> bool
    ensures { result ≡ lfe_last last b }
{
    last == 7 && b == 6
}

// A leak that decays, or starts anew from a power that is above it.
fn decayed(leak: u32, decay: u32, p: u32, gain: u32) -> u32
    requires { (decay ≤ leak) × (gain ≤ p) }
    ensures { result ≡ max (leak - decay) (p - gain) }
{
    (leak - decay).max(p - gain)
}

// The threshold of hearing of a band.
fn hearing_at(hth: &[u16; 150], fscod: usize, b: usize) -> u32
    requires { (hth.now ≡ hthTab) × (fscod < 3) × (b < 50) }
    ensures { (result ≡ hear_l fscod b) × (result < 16384) }
{
    8192 + u32::from(hth[50 * fscod + b])
}

// The mask of a band before the segments, from its excitation and its power.
fn masked(hth: &[u16; 150], e: u32, p: u32, curve: &Curve, b: usize) -> u32
    requires { (hth.now ≡ hthTab) × (b < 50) × (e < 32768) }
    ensures { (result ≡ masked_l e p curve.now.levels b) × (result < 65536) }
{
    let q = curve.levels;
    (e + q.knee.saturating_sub(p) / 4).max(hearing_at(hth, q.fscod, b))
}

impl<'a> Bands<'a> {
    // lowcomp at a band below 22, from lowcomp before it, where the range starts at band 0.
    fn next_low(&self, s: Passed, b: usize) -> u32
        requires { b < 22 }
        ensures { (result ≡ next_low_l self.now.powers.now 0 self.now.last s.low b) × (result ≤ 384) }
    {
        if lfe_last(self.last, b) {
            return s.low;
        }
        calc_lowcomp(s.low, self.powers[b], self.powers[b + 1], b)
    }

    // The band from which the leaks decay, where the range starts at band 0.
    fn decay_from(&self) -> usize
        ensures { (result ≡ decay_from_l self.now.powers.now self.now.last 5 2) × (result ≤ 7) }
    {
        for b in 2..7 {
            if lfe_last(self.last, b) || self.powers[b] <= self.powers[b + 1] {
                return b + 1;
            }
        }
        7
    }

    // The leaks and lowcomp, one band on, before the leaks decay.
    fn pass_rising(&self, curve: &Curve, s: Passed, b: usize) -> Passed
        requires { b < 22 }
        ensures { (begin : ℕ) → b < begin → NextL self.now.powers.now curve.now.gains s 0 self.now.last begin b result }
    {
        let p = self.powers[b];
        Passed {
            fast: p - curve.gains.fgain,
            slow: p - curve.gains.sgain,
            low: self.next_low(s, b),
        }
    }

    // The same where the leaks decay, with lowcomp at the band.
    fn pass_falling(&self, curve: &Curve, s: Passed, low: u32, b: usize) -> Passed
        requires { (b < 50) × (low ≤ 384) }
        ensures { (first last begin : ℕ) → begin ≤ b → low ≡ next_low_l self.now.powers.now first last s.low b
            → NextL self.now.powers.now curve.now.gains s first last begin b result }
    {
        let p = self.powers[b];
        let g = curve.gains;
        Passed {
            fast: decayed(s.fast, g.fdecay, p, g.fgain),
            slow: decayed(s.slow, g.sdecay, p, g.sgain),
            low,
        }
    }

    // The excitation of the bands 0 .. to - 1, before the leaks decay.
    // Stays: `rise`, `middle` and `high` each have a formula of their own; one loop would test at each band which holds, and is
    // no plainer.
    fn rise(&self, out: &mut [u32; 50], curve: &Curve, mut s: Passed, to: usize) -> Passed
        requires { (to ≤ begin_l self.now.powers.now 0 self.now.last) × (to ≤ 22) }
        ensures { Excites self.now.powers.now curve.now.gains 0 self.now.last 0 to s result out.old out.new }
    {
        for b in 0..to {
            s = self.pass_rising(curve, s, b);
            out[b] = s.fast - s.low;
        }
        s
    }

    // The excitation of the bands from .. to - 1, where the leaks decay, below band 22.
    fn middle(
        &self,
        out: &mut [u32; 50],
        curve: &Curve,
        mut s: Passed,
        from: usize,
        to: usize,
    ) -> Passed
        requires { (from ≤ to) × (from < to → begin_l self.now.powers.now 0 self.now.last ≤ from) × (to ≤ 22) }
        ensures { Excites self.now.powers.now curve.now.gains 0 self.now.last from to s result out.old out.new }
    {
        for b in from..to {
            s = self.pass_falling(curve, s, self.next_low(s, b), b);
            out[b] = (s.fast - s.low).max(s.slow);
        }
        s
    }

    // The excitation of the bands from .. last - 1, where there is no lowcomp: from band 22 on, or in a range that does not
    // start at band 0.
    fn high(&self, out: &mut [u32; 50], curve: &Curve, mut s: Passed, from: usize) -> Passed
        requires from_le_last { from ≤ self.now.last }
        requires falling { from < self.now.last → begin_l self.now.powers.now self.now.first self.now.last ≤ from }
        requires no_low { from < self.now.last → self.now.first ≡ 0 → 22 ≤ from }
        ensures { Excites self.now.powers.now curve.now.gains self.now.first self.now.last from self.now.last s result out.old out.new }
    {
        for b in from..self.last {
            s = self.pass_falling(curve, s, 0, b);
            out[b] = s.fast.max(s.slow);
        }
        s
    }

    // The excitation of the range.
    fn excite(&self, out: &mut [u32; 50], curve: &Curve)
        ensures { Written (λ b. excite_l self.now.powers.now curve.now.gains curve.now.leaks self.now.first self.now.last (b - self.now.first)) self.now.first self.now.last out.old out.new }
    {
        let s = Passed {
            fast: curve.leaks.fast,
            slow: curve.leaks.slow,
            low: 0,
        };
        if self.first != 0 {
            self.high(out, curve, s, self.first);
            return;
        }
        let begin = self.decay_from().min(self.last);
        let mid = self.last.min(22);
        let low = self.rise(out, curve, s, begin);
        let t = self.middle(out, curve, low, begin, mid);
        self.high(out, curve, t, mid);
    }

    // The masks of the range before the segments, in place of its excitation.
    fn mask(&self, hth: &[u16; 150], out: &mut [u32; 50], curve: &Curve)
        requires { (hth.now ≡ hthTab) × ((k : ℕ) → get_or out.old k 0 < 32768) }
        ensures { Written (λ b. masked_l (get_or out.old b 0) (get_or self.now.powers.now b 0) curve.now.levels b) self.now.first self.now.last out.old out.new × ((k : ℕ) → get_or out.new k 0 < 65536) }
    {
        for b in self.first..self.last {
            out[b] = masked(hth, out[b], self.powers[b], curve, b);
        }
    }

    // The masks of the range, from its powers. The other bands keep 0.
    pub fn masks(&self, hth: &[u16; 150], out: &mut [u32; 50], curve: &Curve)
        requires { (hth.now ≡ hthTab) × (out.old ≡ replicate 50 0) }
        ensures { Written (mask_l curve.now.gains curve.now.leaks curve.now.levels curve.now.deltas self.now.powers.now self.now.first self.now.last) self.now.first self.now.last out.old out.new × ((k : ℕ) → get_or out.new k 0 < 16777216) }
    {
        self.excite(out, curve);
        self.mask(hth, out, curve);
        shift(out, curve.deltas, self.first, self.last);
    }
}
