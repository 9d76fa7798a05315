// Bits inside a span: looked at, not recorded.
#![tactic(auto)]

ghost use Rattle.std.specs.Prelude.{◌≡◌, ◌*◌, ◌≤◌, length};
ghost use Rattle.skim.specs.Outcomes.{look_of};

use bits::{BitPlace, get, past};
use refusals::{Refusal, Refused};

// Bits that were looked at, and the place after them.
#[derive(Clone, Copy)]
pub struct Seen {
    pub value: u32,
    pub next: BitPlace,
}

// The `width` bits at `at`, in a frame that ends at `limit`. Where they pass its end: truncated, at their first bit.
pub fn raw(src: &[u8], at: BitPlace, width: u16, limit: BitPlace) -> Result<Seen, Refused>
    requires { (width ≤ 32) × (limit.0 ≤ 8 * length src.now) }
    ensures { result ≡ look_of src.now at.0 width limit.0 }
{
    if past(at, width, limit) {
        return Err(Refused {
            refusal: Refusal::Truncated,
            place: at,
        });
    }
    Ok(Seen {
        value: get(src, at, width),
        next: BitPlace(at.0 + width),
    })
}
