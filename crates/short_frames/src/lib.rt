// Formats that take short frames only: the test of a frame's size.
#![tactic(auto)]

ghost use Rattle.std.specs.Prelude.{◌≡◌};
ghost use Rattle.short_frames.specs.Tested.{unfit_by};

use bits::ByteCount;
use refusals::Refusal;

// The refusal of a frame of so many bytes: it is above the greatest, or the slice does not hold it.
#[tactic(auto, unfolding(crate::specs::Tested::unfit_by))]
pub fn unfit(greatest: ByteCount, bytes: ByteCount, long: usize) -> Option<Refusal>
    ensures { result ≡ unfit_by greatest.0 bytes.0 long }
{
    if greatest < bytes {
        return Some(Refusal::LongFrame);
    }
    if long < bytes.0 as usize {
        return Some(Refusal::ShortFrame);
    }
    None
}
