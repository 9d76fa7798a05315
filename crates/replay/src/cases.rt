// Whether a slice is read as a case of the list has it.
ghost use Rattle.std.specs.Prelude.{◌≡◌, ◌+◌, ◌*◌, ◌==◌};
ghost use Rattle.replay.specs.Cases.{kind_of, verdict_of, kept_of, agrees_of, ends_of, same_of, number_of};

use crate::sums::Sum;
use answer::Verdict;
use answer_c::numbers;
use ingest::cases::pair;
use listing::Records;

// What the Rust says of a slice: accepted, or one of its errors; a refusal for want of room it has not.
#[derive(Clone, Copy, PartialEq, Eq)]
enum Kind {
    Accepted,
    Invalid,
    Unsupported,
    Truncated,
    NoRoom,
}

impl Kind {
    // The Rust's error by the number of a refusal.
    fn of_refusal(number: u8) -> Kind
        ensures { number_of result ≡ kind_of number }
    {
        match number {
            5 | 9 => Kind::Unsupported,
            8 => Kind::Truncated,
            33 => Kind::NoRoom,
            _ => Kind::Invalid,
        }
    }

    // The number that a list has for it.
    fn number(self) -> u8
        ensures { result ≡ number_of self }
    {
        match self {
            Kind::Accepted => 0,
            Kind::Invalid => 1,
            Kind::Unsupported => 2,
            Kind::Truncated => 3,
            Kind::NoRoom => 4,
        }
    }
}

impl From<Verdict> for Kind {
    ghost from_gives = { λ v kind. number_of kind ≡ verdict_of v };

    fn from(v: Verdict) -> Kind {
        match v {
            Verdict::Accepted => Kind::Accepted,
            Verdict::Refused(number, _, _) => Kind::of_refusal(number),
        }
    }
}

// Nothing is summed up where a frame is refused.
fn kept(v: Verdict, s: Sum) -> Sum
    ensures { result ≡ kept_of v s }
{
    match v {
        Verdict::Accepted => s,
        Verdict::Refused(_, _, _) => Sum { a: 0, b: 0 },
    }
}

// Whether a number is that of two bytes.
fn is_pair(n: u16, high: u8, low: u8) -> bool
    ensures { result ≡ (n == 256 * high + low) }
{
    usize::from(n) == pair(high, low)
}

// Whether the numbers are those of a case: two bytes each, after that of the verdict.
fn agrees(ours: &[u16; 31], theirs: &[u8; 69]) -> bool
    ensures { result ≡ agrees_of ours.now theirs.now 31 }
{
    let mut all = true;
    for (k, n) in ours.iter().enumerate() {
        all &= is_pair(*n, theirs[2 * k + 1], theirs[2 * k + 2]);
    }
    all
}

// Whether the count of the records and the sum over them are those of a case.
fn ends(count: u16, sum: Sum, theirs: &[u8; 69]) -> bool
    ensures { result ≡ ends_of count sum theirs.now }
{
    is_pair(count, theirs[63], theirs[64])
        && is_pair(sum.b, theirs[65], theirs[66])
        && is_pair(sum.a, theirs[67], theirs[68])
}

// Whether a slice is read as a case has it.
pub fn same(r: &Records, theirs: &[u8; 69]) -> bool
    ensures { result ≡ same_of r.now theirs.now }
{
    let answer = r.answer;
    let frame = answer.frame;
    let verdict = answer.verdict;
    let sum = Sum::of_records(r, frame.fields.min(2048));
    Kind::from(verdict).number() == theirs[0]
        && agrees(&numbers(frame), theirs)
        && ends(frame.fields.min(65535) as u16, kept(verdict, sum), theirs)
}
