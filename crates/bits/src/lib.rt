// Bits of a slice of bytes, the high bit of each byte first (A/52 clause 5.3, TS 102 366 clause 4.3).
#![tactic(auto)]

ghost use Rattle.std.specs.Prelude.{◌≡◌, false, ◌+◌, ◌*◌, ◌-◌, ◌/◌, ◌<◌, ◌≤◌, ltb, length};
ghost use Rattle.bits.specs.Bits.{bits_at, get_of};

// A place in a syncframe, in bits from its first one. A frame has at most 32,768.
#[derive(Clone, Copy, PartialEq, Eq, PartialOrd, Ord, Debug)]
pub struct BitPlace(pub u16);

// A number of whole bytes. A frame has at most 4,096.
#[derive(Clone, Copy, PartialEq, Eq, PartialOrd, Ord, Debug)]
pub struct ByteCount(pub u16);

impl ByteCount {
    // The place after that many bytes.
    pub fn bits(self) -> BitPlace
        requires { self.0 ≤ 8191 }
        ensures { result.0 ≡ 8 * self.0 }
    {
        BitPlace(8 * self.0)
    }
}

impl BitPlace {
    // How many whole bytes stand before the place.
    pub fn bytes(self) -> ByteCount
        ensures { result.0 ≡ self.0 / 8 }
    {
        ByteCount(self.0 / 8)
    }
}

// Whether `width` bits at `at` pass the end. Where they do not, the place after them fits.
pub fn past(at: BitPlace, width: u16, end: BitPlace) -> bool
    ensures { (result ≡ ltb end.0 (at.0 + width)) × (result ≡ false → at.0 + width < 65536) }
{
    (end.0 as u32) < at.0 as u32 + width as u32
}

// The number that the bytes from `first` up to `last` are: one and two at once, others in a loop.
fn load(src: &[u8], first: usize, last: usize) -> u64
    requires { (first ≤ last) × (last ≤ first + 5) × (last ≤ length src.now) }
    ensures { result ≡ bits_at src.now (8 * first) (8 * (last - first)) }
{
    let n = last - first;
    if n == 1 {
        return src[first] as u64;
    }
    if n == 2 {
        return src[first] as u64 * 256 + src[first + 1] as u64;
    }
    let mut v = 0;
    for b in &src[first..last] {
        v = v * 256 + *b as u64;
    }
    v
}

// The `width` bits from `at` on, the first of them the highest. 0 where the width is 0 or above 32,
// and where the bits pass the end of the slice.
pub fn get(src: &[u8], at: BitPlace, width: u16) -> u32
    ensures { result ≡ get_of src.now at.0 width }
{
    if 32 < width {
        return 0;
    }
    let from = at.0 as usize;
    let to = from + width as usize;
    let last = (to + 7) / 8;
    if src.len() < last {
        return 0;
    }
    let v = load(src, from / 8, last);
    ((v >> (last * 8 - to)) % (1 << (width as u64))) as u32
}

// The number that the four bytes from `first` on are.
fn four_bytes(src: &[u8], first: usize) -> u64
    requires { first + 4 ≤ length src.now }
    ensures { result ≡ bits_at src.now (8 * first) 32 }
{
    ((src[first] as u64 * 256 + src[first + 1] as u64) * 256 + src[first + 2] as u64) * 256
        + src[first + 3] as u64
}

// The `width` bits from `at` on, at most 25 of them, which lie in the slice: quicker than `get`. Out of four
// bytes that are loaded at once the bits before are shifted to the left, those after to the right.
pub fn bits_at(src: &[u8], at: BitPlace, width: u16) -> u32
    requires { (width ≤ 25) × (at.0 + width ≤ 8 * length src.now) }
    ensures { result ≡ bits_at src.now at.0 width }
{
    let first = at.0 as usize / 8;
    if first + 4 <= src.len() {
        let v = four_bytes(src, first);
        return (((v << (at.0 as u64 % 8)) % 4294967296) >> (32 - width as u64)) as u32;
    }
    // a new place: that of the caller then need not lie in memory for this call
    get(src, BitPlace(at.0), width)
}
