// The segments of delta bit allocation: A/52 clause 7.2.2.6, TS 102 366 clause 6.2.2.6. On levels: see the crate `alloc`.
#![tactic(auto)]

ghost use Rattle.std.specs.Prelude.{◌≡◌, ℕ, ◌+◌, ◌<◌, ◌≤◌, length, get_or};
ghost use Rattle.alloc.specs.Levels.{delta_l, deltaed_l};
ghost use Rattle.alloc.specs.Premises.{Written};

use alloc::Deltas;

// A mask moved by a segment's step.
fn moved(m: u32, ba: u8) -> u32
    requires { m < 16777216 }
    ensures { (result ≡ delta_l m ba) × (result ≤ m + 32768) }
{
    let b = u32::from(ba);
    if b < 4 {
        m.saturating_sub((4 - b) * 128)
    } else {
        m + (b - 3) * 128
    }
}

// The masks of the bands from .. to - 1, moved by a segment's step.
fn move_bands(out: &mut [u32; 50], ba: u8, from: usize, to: usize)
    requires { (to ≤ 50) × ((k : ℕ) → get_or out.old k 0 < 16777216) }
    ensures { Written (λ b. delta_l (get_or out.old b 0) ba) from to out.old out.new × ((k : ℕ) → get_or out.new k 0 ≤ get_or out.old k 0 + 32768) }
{
    for b in from..to {
        out[b] = moved(out[b], ba);
    }
}

// The masks of the bands first .. last - 1 after all segments. The counter `band` runs on from one segment to the next.
pub fn shift(out: &mut [u32; 50], d: Deltas, first: usize, last: usize)
    requires { (last ≤ 50) × (d.n ≤ 8) × ((k : ℕ) → get_or out.old k 0 < 65536) }
    ensures { Written (λ b. deltaed_l d b (get_or out.old b 0) d.n) first last out.old out.new × ((k : ℕ) → get_or out.new k 0 < 16777216) }
{
    let mut band = 0;
    for i in 0..d.n {
        let from = band + usize::from(d.offset[i]);
        band = from + usize::from(d.len[i]);
        move_bands(out, d.ba[i], first.max(from), last.min(band));
    }
}
