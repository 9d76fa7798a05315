// What the pointers of a range come to. Where the mantissas of a range end follows from it, if the frame does
// not end before.
ghost use Rattle.std.specs.Prelude.{◌≡◌, ◌-◌, ◌<◌, ◌≤◌, length};
ghost use Rattle.alloc.specs.Allocation.{tab};
ghost use Rattle.mantissas.specs.Tally.{share_of, packed, fields_of, tally_of, opened_of, turned_of};

// The bits of the mantissas that stand alone, and how many there are of the pointers 1, 2 and 4.
#[derive(Clone, Copy)]
pub struct Tally {
    pub alone: u16,
    pub n1: u16,
    pub n2: u16,
    pub n4: u16,
}

// What a pointer adds to the sum of a pass: a field of 16 bits for each part of a tally.
pub fn shares() -> [u64; 256]
    ensures { result ≡ tab share_of 0 256 }
{
    let mut t = [0u64; 256];
    t[1] = 65536;
    t[2] = 4294967296;
    t[3] = 3;
    t[4] = 281474976710656;
    t[5] = 4;
    t[6] = 5;
    t[7] = 6;
    t[8] = 7;
    t[9] = 8;
    t[10] = 9;
    t[11] = 10;
    t[12] = 11;
    t[13] = 12;
    t[14] = 14;
    t[15] = 16;
    t
}

// The sum of a pass over the bins `start` to `end` - 1 of a slot.
fn sum(shares: &[u64; 256], baps: &[u8], slot: u8, start: u16, end: u16) -> u64
    requires { (shares.now ≡ tab share_of 0 256) × (length baps.now ≡ 1792) × (slot < 7) × (end ≤ 256) }
    ensures { result ≡ packed (tally_of baps.now slot start (end - start)) }
{
    let base = 256 * usize::from(slot);
    let mut x: u64 = 0;
    for i in start..end {
        x += shares[usize::from(baps[base + usize::from(i)])];
    }
    x
}

// The four fields of a sum.
pub fn fields(x: u64) -> Tally
    ensures { result ≡ fields_of x }
{
    let y = x / 65536;
    let z = y / 65536;
    Tally {
        alone: (x % 65536) as u16,
        n1: (y % 65536) as u16,
        n2: (z % 65536) as u16,
        n4: (z / 65536) as u16,
    }
}

// The tally of a range, counted.
pub fn tallied(baps: &[u8; 1792], slot: u8, start: u16, end: u16) -> Tally
    requires { (length baps.now ≡ 1792) × (slot < 7) × (end ≤ 256) }
    ensures { result ≡ tally_of baps.now slot start (end - start) }
{
    let t = shares();
    fields(sum(&t, baps, slot, start, end))
}

// How many of `n` mantissas open a group of SIZE, where `count` of the group at hand have passed.
pub fn opened<const SIZE: u8>(count: u8, n: u16) -> u32
    requires { (2 ≤ SIZE) × (SIZE ≤ 3) }
    ensures { (result ≡ opened_of SIZE count n) × (result ≤ 65535) }
{
    let size = u32::from(SIZE);
    let ahead = if count == 0 {
        u32::from(n)
    } else {
        (u32::from(n) + u32::from(count) % size).saturating_sub(size)
    };
    (ahead + size - 1) / size
}

// How many of a group of SIZE have passed, `n` mantissas later.
pub fn turned<const SIZE: u8>(count: u8, n: u16) -> u8
    requires { 0 < SIZE }
    ensures { result ≡ turned_of SIZE count n }
{
    if n == 0 {
        return count;
    }
    ((u32::from(count) + u32::from(n)) % u32::from(SIZE)) as u8
}
