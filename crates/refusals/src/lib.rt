// Why a reading, or a call that stands on one, is refused. docs/REFUSALS.md says what each number means to an operator.
#![tactic(auto)]

ghost use Rattle.std.specs.Prelude.{◌≡◌};
ghost use Rattle.refusals.specs.Refusals.{number_of};

use bits::BitPlace;

// The refusals that the code itself gives. All others of a syntax are given by its rows, each by its number there.
#[derive(Clone, Copy, PartialEq, Eq, Debug)]
pub enum Refusal {
    ShortSlice,
    NoSyncWord,
    ShortFrame,
    OtherFormat,
    Truncated,
    GroupedExponent,
    CompositeGain,
    BandwidthNeverSent,
    ExponentOutside,
    ParametersNeverSent,
    NoRoom,
    NoSuchRecord,
    NotAWord,
    ValueTooWide,
    NoPositionLeft,
    AllowanceUsedUp,
    LongFrame,
    ListedTwice,
    TooManyItems,
    ByRow(u8),
}

impl Refusal {
    // The number that the refusal has in docs/REFUSALS.md.
    pub fn number(self) -> u8
        ensures { result ≡ number_of self }
    {
        match self {
            Refusal::ShortSlice => 1,
            Refusal::NoSyncWord => 2,
            Refusal::ShortFrame => 4,
            Refusal::OtherFormat => 6,
            Refusal::Truncated => 8,
            Refusal::GroupedExponent => 11,
            Refusal::CompositeGain => 13,
            Refusal::BandwidthNeverSent => 23,
            Refusal::ExponentOutside => 27,
            Refusal::ParametersNeverSent => 29,
            Refusal::NoRoom => 33,
            Refusal::NoSuchRecord => 41,
            Refusal::NotAWord => 42,
            Refusal::ValueTooWide => 43,
            Refusal::NoPositionLeft => 44,
            Refusal::AllowanceUsedUp => 45,
            Refusal::LongFrame => 46,
            Refusal::ListedTwice => 47,
            Refusal::TooManyItems => 48,
            Refusal::ByRow(number) => number,
        }
    }
}

// A refusal, and the bit place that it is given at.
#[derive(Clone, Copy)]
pub struct Refused {
    pub refusal: Refusal,
    pub place: BitPlace,
}

impl Refused {
    // A refusal at a place.
    pub fn at(refusal: Refusal, place: BitPlace) -> Refused
        ensures refusal { result.refusal ≡ refusal }
        ensures place { result.place ≡ place }
    {
        Refused { refusal, place }
    }
}
