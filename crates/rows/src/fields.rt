// The parts of a row's number, which is the sum of its fields (specs/Rows), each at its first bit:
//
//   element    kind 0, name 4 (8 bits), width 12 (5), cell 17 (10), by 27 (5), row 32 (4), index 36 (3), index cell 39 (5), to 44 (10), from 54 (1), counter 55 (5)
//   span       the same, with the cell of the width at 44; the mantissas: the same
//   exponents  kind, name, index and index cell as an element; slot 12 (3), slot cell 15 (5)
//   when       kind 0, cell 4 (10), by 14 (5), row 19 (4), mask 23 (16), rows 54 (10); a refusal: the same, with its number at 54 (8)
//   compare    kind 0, relation 5 (2), cell 7 (10), by 17 (5), number 22 (6), place 28 (10), form 38 (1), word 39 (16), or cell 39 (10) and by 49 (5)
//   put        kind 0, form 4 (3), cell 7 (10), by 17 (5), row 22 (4), of 26 (10), of by 36 (5), x 41 (8), y 49 (5), or second cell 41 (10)
//   fill       as put, with form 5, and many 22 (4) in place of the row
//   derive     kind 0, derivation 5 (8)
//   each       kind 0, form 4 (3), counter 7 (5), to 12 (10), by 22 (5), row 27 (4), first 31 (5), first cell 36 (10), rows 46 (10)
//
// The functions read of the number what they need, by `field`.
ghost use Rattle.std.specs.Prelude.{◌≡◌, ◌/◌, ◌%◌, ◌^◌, ◌<◌, ◌≤◌};
ghost use Rattle.cells.specs.Cells.{place_of, sum_of, addr, signed};
ghost use Rattle.rows.specs.Rows.{name_in, width_in, keep_in, index_in, slot_in};

use crate::kinds::Kind;
use cells::cell_of;

// The field of so many bits of a row's number, from the bit `first` on.
pub(crate) fn field(w: u64, first: u32, bits: u32) -> usize
    requires { (first < 64) × (bits ≤ 16) }
    ensures { result ≡ w / 2 ^ first % 2 ^ bits }
{
    (w >> first & ((1 << bits) - 1)) as usize
}

pub fn name_of(w: u64) -> u8
    ensures { result ≡ name_in w }
{
    field(w, 4, 8) as u8
}

pub fn width_of(w: u64) -> u16
    ensures { result ≡ width_in w }
{
    field(w, 12, 5) as u16
}

// The cell at an address: a first cell, and the cells of two counters.
pub fn spot(base: usize, by: usize, row: usize, cells: &[u16; 1024]) -> usize
    requires { base < 1024 }
    ensures { (result ≡ place_of (addr base by row) cells.now) × (result ≤ 590838) }
{
    base + usize::from(cell_of(cells, by)) + 8 * usize::from(cell_of(cells, row))
}

// The cell that keeps an element. A plain element has no counters.
pub fn keep_of(w: u64, cells: &[u16; 1024]) -> usize
    ensures { (result ≡ place_of (keep_in w) cells.now) × (result ≤ 590838) }
{
    let base = field(w, 17, 10);
    match Kind::of(w) {
        Kind::Element => base,
        _ => spot(base, field(w, 27, 5), field(w, 32, 4), cells),
    }
}

// One more than the index of a record, 0 for none.
pub fn index_of(w: u64, cells: &[u16; 1024]) -> u32
    ensures { result ≡ sum_of (index_in w) cells.now }
{
    let number = field(w, 36, 3) as u32;
    match Kind::of(w) {
        Kind::Element => number,
        _ => number + cell_of(cells, field(w, 39, 5)) as u32,
    }
}

// The slot of a set of exponents.
pub fn slot_of(w: u64, cells: &[u16; 1024]) -> u8
    ensures { result ≡ sum_of (slot_in w) cells.now % 256 }
{
    let counter = usize::from(cell_of(cells, field(w, 15, 5)));
    ((field(w, 12, 3) + counter) % 256) as u8
}

// A part of a record, of a number that is one more.
// Stays: two functions; one over both types would need a trait for a line each, which is no plainer.
pub fn block_part(n: u16) -> i8
    ensures { result ≡ signed 128 n }
{
    (n % 128) as i8 - 1
}

pub fn index_part(n: u32) -> i16
    ensures { result ≡ signed 32768 n }
{
    (n % 32768) as i16 - 1
}
