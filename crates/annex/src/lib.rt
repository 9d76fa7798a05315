// The syntax of Annex E as a table of rows.
#![tactic(auto)]

pub mod table;

ghost use Rattle.annex.specs.Table.{Annexed};

use table::TABLE;

// The rows of the header, of the body and of the tail.
pub fn annex() -> [u64; 510]
    ensures { Annexed result }
{
    TABLE
}
