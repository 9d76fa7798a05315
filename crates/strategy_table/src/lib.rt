// The exponent strategies of a frame, as a table: a row for each block, a column for the coupling
// channel, for each full bandwidth channel and for the LFE channel. A dash stands where there is none.
#![tactic(auto)]

mod found;
mod grid;

ghost use Rattle.std.specs.Prelude.{◌≡◌, ◌<◌, ◌≤◌};
ghost use Rattle.print.specs.Text.{Adds};
ghost use Rattle.strategy_table.specs.Table.{cell_of, row_of, blocks_of, table_of, text_of};

use crate::grid::Strategy;
use answer::{Verdict, count_of};
use columns::{full_channels, heading};
use listing::Records;
use names::numbers;
use print::Text;

#[tactic(auto, unfolding(crate::specs::Table::cell_of, names::specs::Spelling::bytes))]
fn cell(strategy: Option<Strategy>) -> &'static [u8]
    ensures { result.now ≡ cell_of strategy }
{
    match strategy {
        Some(Strategy::Reuse) => b"  reuse",
        Some(Strategy::D15) => b"    D15",
        Some(Strategy::D25) => b"    D25",
        Some(Strategy::D45) => b"    D45",
        None => b"      -",
    }
}

// How many blocks a frame has, by numblkscod.
#[tactic(auto, unfolding(crate::specs::Table::blocks_of))]
fn blocks(numblkscod: u32) -> u8
    ensures { (result ≡ blocks_of numblkscod) × (result ≤ 6) }
{
    match numblkscod {
        0 => 1,
        1 => 2,
        2 => 3,
        _ => 6,
    }
}

fn row<const N: usize>(out: &mut Text<N>, r: &Records, count: usize, block: u8, nfchans: u8)
    requires { block < 6 }
    ensures { Adds N out.old (row_of r.now count nfchans block) out.new }
{
    out.right(block as u64, 5);
    out.put(cell(grid::coupling(r, count, block)));
    for ch in 0..nfchans {
        out.put(cell(grid::channel(r, count, block, ch)));
    }
    out.put(cell(grid::lfe(r, count, block)));
    out.put(b"\n");
}

fn table<const N: usize>(out: &mut Text<N>, r: &Records)
    ensures { Adds N out.old (table_of r.now) out.new }
{
    let count = count_of(r.answer.verdict, r.answer.frame);
    let acmod = grid::element(r, count, numbers::ACMOD);
    let nfchans = full_channels(acmod);
    heading(out, acmod);
    out.put(b"\n");
    for block in 0..blocks(grid::element(r, count, numbers::NUMBLKSCOD)) {
        row(out, r, count, block, nfchans);
    }
}

// The table, or the answer of a frame that is refused. There is room for the longest.
pub fn text_of(r: Records) -> Text<1024>
    ensures { result ≡ text_of r }
{
    let mut out = Text::new();
    match r.answer.verdict {
        Verdict::Accepted => table(&mut out, &r),
        Verdict::Refused(_, _, _) => listing::first_line(&mut out, r.answer),
    }
    out
}
