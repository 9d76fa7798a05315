// The crates of a block for a driver outside: the comparison with the reference.
#![tactic(auto)]

ghost use Rattle.std.specs.Prelude.{◌≡◌, ◌+◌, ◌*◌, ◌-◌, ◌<◌, ◌≤◌, length};
ghost use Rattle.reading.specs.Run.{skim};
ghost use Rattle.exponents.specs.Exponents.{decode_of, size_of, groups_of, start_of, first_of, put_of, laid_of};
ghost use Rattle.mantissas.specs.Mantissas.{conventional_of};
ghost use Rattle.hybrid.specs.Hybrid.{aht_of};
ghost use Rattle.slots.specs.Held.{Held};
ghost use Rattle.allocation.specs.State.{allocated_of, segments_by};
ghost use Rattle.blocks_c.specs.Packed.{packed_group, packed, Ends, PassedOutcome, TagsOutcome};
ghost use Rattle.blocks_c.specs.Flat.{sent_of, state_of, shape_of};

use allocation::{AllocState, Codes, Segments};
use bits::BitPlace;
use mantissas::Groups;
use slots::Shape;

#[unsafe(no_mangle)]
pub extern "C" fn blocks_groups(slot: u8, strategy: u8, start: u16, end: u16) -> u16
    ensures { result ≡ groups_of slot strategy start end }
{
    exponents::groups(slot, strategy, start, end)
}

#[unsafe(no_mangle)]
pub extern "C" fn blocks_start(slot: u8, absexp: u8) -> u8
    requires { absexp ≤ 15 }
    ensures { result ≡ start_of slot absexp }
{
    exponents::start_of(slot, absexp) as u8
}

#[unsafe(no_mangle)]
pub extern "C" fn blocks_first(slot: u8, start: u16) -> u16
    ensures { result ≡ first_of slot start }
{
    exponents::first_of(slot, start)
}

#[unsafe(no_mangle)]
pub extern "C" fn blocks_put(exps: &mut [u8; 1792], slot: u8, bin: u32, e: u8)
    requires { length exps.old ≡ 1792 }
    ensures { exps.new ≡ put_of exps.old slot bin e }
{
    exponents::put(exps, slot, bin, e);
}

#[unsafe(no_mangle)]
pub extern "C" fn blocks_lay(
    exps: &mut [u8; 1792],
    slot: u8,
    strategy: u8,
    bin: u16,
    a: u8,
    b: u8,
    c: u8,
)
    requires { length exps.old ≡ 1792 }
    ensures { exps.new ≡ laid_of exps.old slot (size_of strategy) bin a b c }
{
    exponents::lay(exps, slot, strategy, u32::from(bin), a, b, c);
}

#[unsafe(no_mangle)]
pub extern "C" fn blocks_decode(prev: u8, group: u8) -> u32
    ensures { result ≡ packed_group (decode_of prev group) }
{
    match exponents::decode(u32::from(prev), u32::from(group)) {
        Err(refusal) => 16777216 * u32::from(refusal.number()),
        Ok((a, b, c)) => a + 256 * b + 65536 * c,
    }
}

fn pack(number: u8, place: BitPlace, x: u16, y: u8, z: u8) -> u64
    ensures { result ≡ packed number place.0 x y z }
{
    u64::from(number)
        + 256 * u64::from(place.0)
        + 16777216 * u64::from(x)
        + 4294967296 * u64::from(y)
        + 1099511627776 * u64::from(z)
}

// The three counts come in and go out.
#[unsafe(no_mangle)]
pub extern "C" fn blocks_conventional(
    baps: &[u8; 1792],
    slot: u8,
    start: u16,
    end: u16,
    g1: u8,
    g2: u8,
    g4: u8,
    at: u16,
    limit: u16,
) -> u64
    requires { (length baps.now ≡ 1792) × (slot < 7) × (end ≤ 256) }
    ensures { PassedOutcome result (λ s. skim (conventional_of baps.now slot start (end - start) (record { g1 = g1; g2 = g2; g4 = g4 })) s at limit) }
{
    let mut g = Groups { g1, g2, g4 };
    let told = mantissas::conventional(
        baps,
        slot,
        start,
        end,
        &mut g,
        BitPlace(at),
        BitPlace(limit),
    );
    match told {
        Ok(p) => pack(0, p.place, u16::from(g.g1), g.g2, g.g4),
        Err(e) => pack(e.refusal.number(), e.place, u16::from(g.g1), g.g2, g.g4),
    }
}

#[unsafe(no_mangle)]
pub extern "C" fn blocks_aht(
    src: &[u8],
    baps: &[u8; 1792],
    slot: u8,
    start: u16,
    end: u16,
    at: u16,
    limit: u16,
) -> u64
    requires { (length baps.now ≡ 1792) × (slot < 7) × (end ≤ 256) × (limit ≤ 8 * length src.now) }
    ensures { TagsOutcome result (skim (aht_of baps.now slot start (end - start)) src.now at limit) }
{
    match hybrid::aht(src, baps, slot, start, end, BitPlace(at), BitPlace(limit)) {
        Ok(t) => pack(0, t.place, t.tags, 0, 0),
        Err(e) => pack(e.refusal.number(), e.place, 0, 0, 0),
    }
}

fn sent_of(sent: bool, codes: &[u8; 5]) -> Option<Codes>
    ensures { result ≡ sent_of sent codes.now }
{
    if !sent {
        return None;
    }
    Some(Codes {
        sdcycod: codes[0],
        fdcycod: codes[1],
        sgaincod: codes[2],
        dbpbcod: codes[3],
        floorcod: codes[4],
    })
}

// The arrays come in lent, one for each. Nothing is kept from one call to the next.
#[unsafe(no_mangle)]
pub extern "C" fn blocks_allocate(
    sent: bool,
    codes: &[u8; 5],
    csnroffst: u8,
    fsnroffst: &[u8; 7],
    fgaincod: &[u8; 7],
    cplfleak: u8,
    cplsleak: u8,
    fscod: u8,
    nfchans: u8,
    lfeon: bool,
    cplinu: bool,
    ahtinu: &[bool; 7],
    ahtread: &[bool; 7],
    endmant: &[u16; 5],
    cplstrt: u16,
    cplend: u16,
    n: &[u8; 6],
    offset: &[u8; 48],
    len: &[u8; 48],
    ba: &[u8; 48],
    exps: &[u8; 1792],
    baps: &mut [u8; 1792],
) -> u8
    requires { (Held exps.now) × (length baps.old ≡ 1792) × (cplfleak < 8) × (cplsleak < 8) × (fscod < 3) }
    ensures { Ends result baps.new
        (allocated_of (state_of (sent_of sent codes.now) csnroffst fsnroffst.now fgaincod.now cplfleak cplsleak) fscod
        (shape_of nfchans lfeon cplinu ahtinu.now ahtread.now endmant.now cplstrt cplend)
        (segments_by n.now offset.now len.now ba.now) exps.now baps.old) }
{
    let st = AllocState {
        parameters: sent_of(sent, codes),
        csnroffst,
        fsnroffst: *fsnroffst,
        fgaincod: *fgaincod,
        cplfleak,
        cplsleak,
    };
    let shape = Shape {
        nfchans,
        lfeon,
        cplinu,
        chincpl: [false; 5],
        ahtinu: *ahtinu,
        ahtread: *ahtread,
        endmant: *endmant,
        cplstrt,
        cplend,
    };
    let d = Segments {
        n: *n,
        offset: *offset,
        len: *len,
        ba: *ba,
    };
    let mut memo = [0u64; 42];
    match allocation::allocate_block(st, fscod, shape, &d, exps, baps, &mut memo) {
        Ok(()) => 0,
        Err(refusal) => refusal.number(),
    }
}
