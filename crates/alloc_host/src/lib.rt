// `allocate` by codes, for a driver outside: the comparison with the Rust, and the timing.

#![tactic(auto)]

ghost use Rattle.std.specs.Prelude.{◌≡◌, ◌≤◌, length};
ghost use Rattle.alloc.specs.Premises.{Exponents};
ghost use Rattle.alloc_host.specs.Host.{kind_of, leak_by, channel_of, params_by, deltas_of, allocation_by, Codes};

use alloc::{Channel, Deltas, Leak, Params, Pointers, Tables};

fn pointers_of(hebap: bool) -> Pointers
    ensures { result ≡ kind_of hebap }
{
    if hebap {
        Pointers::Hebap
    } else {
        Pointers::Bap
    }
}

fn leak_by(coupling: bool, cplfleak: u8, cplsleak: u8) -> Option<Leak>
    ensures { result ≡ leak_by coupling cplfleak cplsleak }
{
    if coupling {
        Some(alloc::leak_of(cplfleak, cplsleak))
    } else {
        None
    }
}

fn channel_of(start: usize, end: usize, codes: &[u8; 14]) -> Channel
    ensures { result ≡ channel_of start end codes.now }
{
    Channel {
        start,
        end,
        fgain: tables::fast_gain(codes[6]),
        csnroffst: codes[7],
        fsnroffst: codes[8],
    }
}

fn params_by(codes: &[u8; 14]) -> Params
    ensures { result ≡ params_by codes.now }
{
    alloc::params_of(
        codes[1],
        codes[2],
        codes[3],
        codes[4],
        codes[5],
        usize::from(codes[0]),
    )
}

fn deltas_of(n: u8, segments: &[[u8; 8]; 3]) -> Deltas
    ensures { result ≡ deltas_of n segments.now }
{
    let [offset, len, ba] = *segments;
    Deltas {
        n: usize::from(n),
        offset,
        len,
        ba,
    }
}

// The 256 pointers of one channel, into `out`. specs/Host.antt has the order of the codes and of the segments.
#[unsafe(no_mangle)]
pub extern "C" fn alloc_by_codes(
    exps: &[u8],
    out: &mut [u8],
    segments: &[[u8; 8]; 3],
    codes: &[u8; 14],
    start: usize,
    end: usize,
)
    requires exponents { (Exponents exps.now start end) × (length out.old ≡ 256) }
    requires end_bound { (end ≤ 253) × (length segments.now ≡ 3) × Codes codes.now }
    ensures { out.new ≡ allocation_by exps.now segments.now codes.now start end }
{
    if end <= start {
        pointers::no_bins(out);
        return;
    }
    let tables = Tables {
        latab: &tables::log_add(),
        masktab: &tables::masktab(),
        ends: &tables::band_end(),
        hth: &tables::hearing(),
        points: &tables::pointers(),
        shares: &[0; 256],
    };
    // Stays: the two flags among the codes are numbers, as the C interface has them.
    let c = channel_of(start, end, codes);
    let p = params_by(codes);
    let l = leak_by(codes[11] == 1, codes[9], codes[10]);
    let d = deltas_of(codes[13], segments);
    let kind = pointers_of(codes[12] == 1);
    pointers::allocate(&tables, exps, out, c, p, l, d, kind);
}
