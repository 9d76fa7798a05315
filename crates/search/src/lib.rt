// The next frame in a capture: positions are tried in order until one holds a frame.
#![tactic(auto)]

ghost use Rattle.std.specs.Prelude.{◌≡◌};
ghost use Rattle.reading.specs.Room.{room};
ghost use Rattle.refusals.specs.Refusals.{number_of};
ghost use Rattle.search.specs.Find.{ends_by, not_found, Searched};

use answer::{Answer, Verdict, count_of, refusal};
use bits::BitPlace;
use positions::{candidate, furthest, last_count, none_left, positions};
use refusals::Refusal;
use syntax::{Stopped, least};

// What a search gives: the answer of the reading that ended it, its position, and how many positions were tried. Where
// no position is left, or the allowance is used up, the refusal 44 or 45, at the position 0.
#[derive(Drop)]
pub struct Found {
    pub answer: Answer,
    pub position: usize,
    pub tried: usize,
}

// Whether a reading ends the search: it has a frame, or finds no room for a record.
fn ends(v: Verdict) -> bool
    ensures { result ≡ ends_by v }
{
    match v {
        Verdict::Accepted => true,
        Verdict::Refused(number, _, _) => number == 33,
    }
}

// The answer where no position ends the search.
fn none_found(none: Refusal, count: usize, tried: usize) -> Found
    ensures { result ≡ not_found (number_of none) count tried }
{
    Found {
        answer: refusal(Stopped {
            refusal: none,
            at: BitPlace(0),
            count,
        }),
        position: 0,
        tried,
    }
}

// The first position of a capture, from a start on and at most so many, that holds a frame: the frame, the position and
// the number tried. Refusal 33 at a position ends the search, and comes back with that position. 44, no position is left;
// 45, the allowance is used up; both with the number tried and the last reading's record count.
pub fn find(
    capture: &[u8],
    names: &mut [u8],
    blocks: &mut [i8],
    indexes: &mut [i16],
    firsts: &mut [u16],
    widths: &mut [u16],
    values: &mut [u32],
    start: usize,
    most: usize,
) -> Found
    ensures { Searched capture.now (room names.old blocks.old indexes.old firsts.old widths.old values.old) start most
        result (room names.new blocks.new indexes.new firsts.new widths.new values.new) }
{
    let room = least(
        names.len(),
        blocks.len(),
        indexes.len(),
        firsts.len(),
        widths.len(),
        values.len(),
    );
    let tries = positions(start, capture.len(), most);
    // those with six bytes or more from there on; the reader refuses the others without a record
    let whole = positions(start, capture.len().saturating_sub(5), most);
    let mut tried: usize = 0;
    let mut count: usize = 0;
    // Stays: a `while`, since a turn goes on behind the position at which it read, and a range gives each number.
    while tried < whole {
        let from = start + tried;
        let last = start + (whole - 1);
        let at = candidate(capture, from, furthest(room, from, last));
        let read = eac3::parse(
            &capture[at..],
            names,
            blocks,
            indexes,
            firsts,
            widths,
            values,
        );
        tried = at - start + 1;
        let verdict = read.verdict;
        if ends(verdict) {
            return Found {
                answer: read,
                position: at,
                tried,
            };
        }
        count = count_of(verdict, read.frame);
    }
    let none = none_left(capture.len().saturating_sub(start), most);
    none_found(none, last_count(whole, tries, count), tries)
}
