// The remainder of a slice, for a driver outside: the comparison with the Rust, and the timing.

#![tactic(auto)]

ghost use Rattle.std.specs.Prelude.{◌≡◌, ◌*◌, length};
ghost use Rattle.crc.specs.Crc.{remainder};

#[unsafe(no_mangle)]
pub extern "C" fn crc_remainder(src: &[u8]) -> u16
    ensures { result ≡ remainder src.now 0 (8 * length src.now) }
{
    crc::remainder(src, 0, src.len())
}
