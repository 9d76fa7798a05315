// The opening of a syncframe: the slice is long enough, it begins with the sync word, and bsid, which is looked at ahead, is one of E-AC-3.
// Nothing else is read or laid before.
#![tactic(auto)]

ghost use Rattle.std.specs.Prelude.{◌≡◌, ◌&&◌, ◌≤◌, eqb, length};
ghost use Rattle.bits.specs.Bits.{bits_at};
ghost use Rattle.syntax.specs.Rooms.{room_of, SameSlices};
ghost use Rattle.annex.specs.Frame.{bsid_ahead};
ghost use Rattle.opening.specs.Opened.{Opened};

use bits::{BitPlace, bits_at};
use names::numbers::SYNCWORD;
use refusals::Refusal;
use syntax::room::RecordRoom;
use syntax::{Cursor, Label, Stopped};

// The word that a frame begins with.
const SYNC: u32 = 0x0B77;

// Whether a slice begins like an E-AC-3 frame: with the sync word, and with a bsid of 11 to 16.
fn begins(src: &[u8], word: u32) -> bool
    requires { 6 ≤ length src.now }
    ensures { result ≡ (eqb word 0x0B77 && bsid_ahead.good (bits_at src.now 40 5)) }
{
    let bsid = bits_at(src, BitPlace(40), 5);
    word == SYNC && (11 <= bsid && bsid <= 16)
}

// Begins a frame. Where the sync word or bsid is refused, the first word is recorded.
pub fn begin(src: &[u8], room: &mut RecordRoom<'_>) -> Result<Cursor, Stopped>
    ensures opened { Opened src.now (room_of room.old) result (room_of room.new) }
    ensures same { SameSlices room.old room.new }
{
    let start = Cursor {
        at: BitPlace(0),
        count: 0,
    };
    if src.len() < 6 {
        return Err(start.stop(Refusal::ShortSlice));
    }
    let word = bits_at(src, BitPlace(0), 16);
    if begins(src, word) {
        return Ok(start);
    }
    let label = Label {
        name: SYNCWORD,
        block: -1,
        index: -1,
    };
    let cur = room.keep(start, label, 16, word, BitPlace(16))?;
    if word == SYNC {
        return Err(Stopped {
            refusal: Refusal::OtherFormat,
            at: BitPlace(45),
            count: cur.count,
        });
    }
    Err(Stopped {
        refusal: Refusal::NoSyncWord,
        at: BitPlace(16),
        count: cur.count,
    })
}
