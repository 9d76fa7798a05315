// Rows that read nothing: conditions, refusals, values, derivations; and what a loop counts.
ghost use Rattle.std.specs.Prelude.{◌≡◌, ◌≢◌, cond, IfErr, ◌+◌, ◌-◌, ◌*◌, ◌%◌, ◌≤◌, ◌<◌, eqb};
ghost use Rattle.slots.specs.Held.{Bins};
ghost use Rattle.refusals.specs.Refusals.{number_of};
ghost use Rattle.cells.specs.Cells.{state, cell_of, place_of, held_of, put_in};
ghost use Rattle.rows.specs.Syntax.{amount_of, number_of as other_of, count_of, filled};
ghost use Rattle.rows.specs.Kinds.{value_by};
ghost use Rattle.rows.specs.Rows.{at_in, mask_in, masked, put_at_in, of_in, filled_in, many_in, x_in, y_in, relation_in, compared_in, with_in, compares, stop_in, loop_to, loop_in, rows_in, to_in, from_in, counter_in};
ghost use Rattle.rows.specs.Steps.{Dealt, refusal_in};

use crate::fields::{field, spot};
use crate::kinds::{Form, Kind, Relation};
use bits::BitPlace;
use cells::{cell_of, put};
use refusals::Refusal;

// The cell of a condition. Only odd kinds have counters.
fn tested(w: u64, cells: &[u16; 1024]) -> usize
    ensures { result ≡ place_of (at_in w) cells.now }
{
    let base = field(w, 4, 10);
    if w % 2 == 1 {
        spot(base, field(w, 14, 5), field(w, 19, 4), cells)
    } else {
        base
    }
}

// Whether the mask of a row has the value of its cell, and 15 for all above.
pub fn holds(w: u64, cells: &[u16; 1024]) -> bool
    ensures { result ≡ masked (mask_in w) (at_in w) cells.now }
{
    let v = cell_of(cells, tested(w, cells)).min(15);
    (field(w, 23, 16) >> v) % 2 == 1
}

// How many rows a condition passes that fails.
pub fn rows_of(w: u64) -> usize
    ensures { (result ≡ rows_in w) × (result < 1024) }
{
    field(w, 54, 10)
}

// The number that a value is made of, and those that a fill and a comparison have.
fn source(w: u64, cells: &[u16; 1024]) -> u16
    ensures { result ≡ held_of (of_in w) cells.now }
{
    cell_of(cells, spot(field(w, 26, 10), field(w, 36, 5), 0, cells))
}

// x + y a
fn linear(w: u64, a: u16) -> u32
    ensures { result ≡ x_in w + y_in w * a }
{
    field(w, 41, 8) as u32 + field(w, 49, 5) as u32 * a as u32
}

// y a - x
fn reduced(w: u64, a: u16) -> u32
    ensures { result ≡ y_in w * a - x_in w }
{
    (field(w, 49, 5) as u32 * a as u32).saturating_sub(field(w, 41, 8) as u32)
}

// What is put into a cell.
fn amount(w: u64, form: Form, at: BitPlace, cells: &[u16; 1024]) -> u32
    ensures { result ≡ amount_of (value_by form w) at.0 cells.now }
{
    let a = source(w, cells);
    let b = cell_of(cells, field(w, 41, 10));
    match form {
        Form::Here => at.0 as u32,
        Form::Let => linear(w, a),
        Form::Less => reduced(w, a),
        Form::Plus => a as u32 + b as u32,
        Form::Minus => a.saturating_sub(b) as u32,
    }
}

// A value, put into its cell.
fn set(w: u64, form: Form, at: BitPlace, cells: &mut [u16; 1024])
    ensures { cells.new ≡ put_in cells.old (place_of (put_at_in w) cells.old) (amount_of (value_by form w) at.0 cells.old) }
{
    let k = spot(field(w, 7, 10), field(w, 17, 5), field(w, 22, 4), cells);
    let v = amount(w, form, at, cells);
    put(cells, k, v);
}

// One value for so many cells.
fn fill(w: u64, cells: &mut [u16; 1024])
    ensures { cells.new ≡ filled (many_in w) (filled_in w) (x_in w + y_in w * held_of (of_in w) cells.old) cells.old }
{
    let v = linear(w, source(w, cells));
    let k = field(w, 7, 10);
    let n = field(w, 22, 4);
    for i in 0..n {
        put(cells, k + i, v);
    }
}

// The number that a comparison has on its other side.
fn other(w: u64, cells: &[u16; 1024]) -> u16
    ensures { result ≡ other_of (with_in w) cells.now }
{
    if field(w, 38, 1) == 0 {
        field(w, 39, 16) as u16
    } else {
        cell_of(cells, spot(field(w, 39, 10), field(w, 49, 5), 0, cells))
    }
}

fn compared(w: u64, cells: &[u16; 1024]) -> bool
    ensures { result ≡ compares (relation_in w) (held_of (compared_in w) cells.now) (other_of (with_in w) cells.now) }
{
    let a = cell_of(cells, spot(field(w, 7, 10), field(w, 17, 5), 0, cells));
    Relation::of(w).holds(a, other(w, cells))
}

// The refusal of a row whose test holds. The number 0 refuses nothing.
fn refused(holds: bool, number: usize) -> Result<(), Refusal>
    requires { number < 256 }
    ensures is { refusal_in result ≡ cond holds number 0 }
    ensures refused { IfErr result (λ r. number_of r ≢ 0) }
{
    if holds && number != 0 {
        Err(Refusal::ByRow(number as u8))
    } else {
        Ok(())
    }
}

// An assignment, a refusal or a comparison.
pub fn deal(w: u64, at: BitPlace, cells: &mut [u16; 1024]) -> Result<(), Refusal>
    requires { (10 ≤ w % 16) × (w % 16 < 14) × (¬ (w % 16 ≡ 12)) }
    ensures dealt { (b : Bins) → Dealt w at.0 (state cells.old b) (refusal_in result) (state cells.new b) }
    ensures refused { IfErr result (λ r. number_of r ≢ 0) }
{
    match Kind::of(w) {
        Kind::Assignment => {
            match Form::of(w) {
                Some(form) => set(w, form, at, cells),
                None => fill(w, cells),
            }
            Ok(())
        }
        Kind::Refusal => refused(holds(w, cells), field(w, 54, 8)),
        _ => refused(compared(w, cells), field(w, 22, 6)),
    }
}

// The place of a refusal: the present one, or that in a cell where it lies ahead.
pub fn stop_at(w: u64, at: BitPlace, cells: &[u16; 1024]) -> BitPlace
    ensures { result.0 ≡ at.0 + (cell_of cells.now (stop_in w) - at.0) }
{
    match Kind::of(w) {
        Kind::Comparison => BitPlace(at.0.max(cell_of(cells, field(w, 28, 10)))),
        _ => at,
    }
}

// What a loop counts: from, up to, in which cell; and how many rows it has.
#[derive(Clone, Copy)]
pub struct Loop {
    pub from: u32,
    pub to: u32,
    pub counter: usize,
    pub rows: usize,
}

fn count_of(w: u64, cells: &[u16; 1024]) -> u32
    ensures { result ≡ count_of (loop_to w) cells.now }
{
    let to = field(w, 12, 10);
    if field(w, 4, 3) == 0 {
        cell_of(cells, spot(to, field(w, 22, 5), field(w, 27, 4), cells)) as u32
    } else {
        to as u32
    }
}

pub fn loop_of(w: u64, cells: &[u16; 1024]) -> Loop
    ensures { (result ≡ loop_in w cells.now) × (result.rows < 1024) }
{
    Loop {
        from: field(w, 31, 5) as u32 + cell_of(cells, field(w, 36, 10)) as u32,
        to: count_of(w, cells),
        counter: field(w, 7, 5),
        rows: field(w, 46, 10),
    }
}

// An element is read once, or for each number of a counter. While `left` is not 0 it is to be read so often still, up to the number `last`.
pub fn last_of(w: u64, left: u32, last: u32, cells: &[u16; 1024]) -> u32
    ensures { result ≡ cond (eqb left 0) (count_of (to_in w) cells.now) last }
{
    if left != 0 {
        last
    } else if let Kind::Repeated = Kind::of(w) {
        cell_of(cells, field(w, 44, 10)) as u32
    } else {
        1
    }
}

pub fn more_of(w: u64, left: u32, last: u32) -> u32
    ensures { result ≡ cond (eqb left 0) (last - from_in w) left }
{
    if left != 0 {
        left
    } else if let Kind::Repeated = Kind::of(w) {
        last.saturating_sub(field(w, 54, 1) as u32)
    } else {
        last
    }
}

// The counter of an element holds a number.
pub fn mark(w: u64, cells: &mut [u16; 1024], j: u32)
    ensures { cells.new ≡ put_in cells.old (counter_in w) j }
{
    if let Kind::Repeated = Kind::of(w) {
        put(cells, field(w, 55, 5), j);
    }
}

// The row after an element that is to be read so often still.
pub fn onward(left: u32, pc: usize) -> usize
    requires { pc < 1024 }
    ensures { result ≡ cond (eqb left 0) (pc + 1) pc }
{
    if left == 0 { pc + 1 } else { pc }
}
