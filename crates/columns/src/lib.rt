// The columns of a table by channels: the coupling channel, the full bandwidth channels and the LFE channel.
#![tactic(auto)]

ghost use Rattle.std.specs.Prelude.{◌≡◌, ◌≤◌};
ghost use Rattle.print.specs.Text.{Adds};
ghost use Rattle.columns.specs.Columns.{names_of, heading_of, channels_of};

use print::Text;

// The full bandwidth channels by acmod (A/52 table 5.8).
#[tactic(auto, unfolding(crate::specs::Columns::names_of, crate::specs::Columns::modes, names::specs::Spelling::bytes))]
fn channel_names(acmod: u32) -> &'static [u8]
    ensures { result.now ≡ names_of acmod }
{
    match acmod {
        0 => b"    Ch1    Ch2",
        1 => b"      C",
        2 => b"      L      R",
        3 => b"      L      C      R",
        4 => b"      L      R      S",
        5 => b"      L      C      R      S",
        6 => b"      L      R     Ls     Rs",
        _ => b"      L      C      R     Ls     Rs",
    }
}

// How a table begins.
pub fn heading<const N: usize>(out: &mut Text<N>, acmod: u32)
    ensures { Adds N out.old (heading_of acmod) out.new }
{
    out.put(b"block    CPL");
    out.put(channel_names(acmod));
    out.put(b"    LFE");
}

// How many full bandwidth channels there are, by acmod.
pub fn full_channels(acmod: u32) -> u8
    ensures { (result ≡ channels_of acmod) × (result ≤ 5) }
{
    let table = tables::nfchans();
    table[acmod as usize % 8]
}
