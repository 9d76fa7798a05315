// The cursor, and the recording leaf (syntax.rs).
#![tactic(auto)]

pub mod room; // the room that records go to

ghost use Rattle.std.specs.Prelude.{◌≡◌, min};

use bits::BitPlace;
use refusals::Refusal;

// Where a reading stands: the next bit, and the number of records.
#[derive(Clone, Copy)]
pub struct Cursor {
    pub at: BitPlace,
    pub count: usize,
}

// A reading that was stopped: the refusal, the place where it is given, and the number of records.
#[derive(Clone, Copy)]
pub struct Stopped {
    pub refusal: Refusal,
    pub at: BitPlace,
    pub count: usize,
}

// What a record is called: the name's number, the block and the index.
#[derive(Clone, Copy)]
pub struct Label {
    pub name: u8,
    pub block: i8,
    pub index: i16,
}

impl Cursor {
    // The reading stops here.
    pub fn stop(self, refusal: Refusal) -> Stopped
        ensures { result ≡ record { refusal = refusal; at = self.at; count = self.count } }
    {
        Stopped {
            refusal,
            at: self.at,
            count: self.count,
        }
    }
}

// The least of six lengths: how many records fit into six slices of those lengths.
pub fn least(a: usize, b: usize, c: usize, d: usize, e: usize, f: usize) -> usize
    ensures { result ≡ min a (min b (min c (min d (min e f)))) }
{
    a.min(b.min(c.min(d.min(e.min(f)))))
}
