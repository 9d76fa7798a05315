// Prints each name of a record on a line: its number, its spelling and its role.
#![tactic(auto)]

ghost use Rattle.std.specs.Prelude.{◌≡◌};
ghost use Rattle.names.specs.Spelling.{rows};

use names::Role;
use print::Text;
use std::io::Result;

// A role that belongs to a programme, with the programme's number.
fn of_programme<const N: usize>(out: &mut Text<N>, role: &[u8], programme: u8) {
    out.put(role);
    out.put(b"(");
    out.number(programme as u64, b')');
}

fn role<const N: usize>(out: &mut Text<N>, r: Role) {
    match r {
        Role::Plain => out.put(b"Plain"),
        Role::Sync => out.put(b"Sync"),
        Role::Crc1 => out.put(b"Crc1"),
        Role::Crc2 => out.put(b"Crc2"),
        Role::CrcRsv => out.put(b"CrcRsv"),
        Role::FrameSize => out.put(b"FrameSize"),
        Role::Dialnorm(p) => of_programme(out, b"Dialnorm", p),
        Role::ComprExists(p) => of_programme(out, b"ComprExists", p),
        Role::Compr(p) => of_programme(out, b"Compr", p),
        Role::DynrngExists(p) => of_programme(out, b"DynrngExists", p),
        Role::Dynrng(p) => of_programme(out, b"Dynrng", p),
        Role::Skiple => out.put(b"Skiple"),
        Role::Skipl => out.put(b"Skipl"),
        Role::Skipfld => out.put(b"Skipfld"),
        Role::Addbsi => out.put(b"Addbsi"),
        Role::Mantissas => out.put(b"Mantissas"),
        Role::AuxBits => out.put(b"AuxBits"),
        Role::AuxDataL => out.put(b"AuxDataL"),
        Role::AuxDataE => out.put(b"AuxDataE"),
        Role::BlkStrtInfoE => out.put(b"BlkStrtInfoE"),
        Role::BlkStrtInfo => out.put(b"BlkStrtInfo"),
    }
}

fn line(rt: &HostRuntime, table: &[u8; 3232], name: u8) -> Result<()>
    requires { table.now ≡ rows }
{
    let mut out: Text<64> = Text::new();
    out.number(name as u64, b' ');
    out.name(table, name, b' ');
    role(&mut out, names::role_of(name));
    out.put(b"\n");
    out.write(rt)
}

fn main(rt: HostRuntime) -> Result<()> {
    let table = names::table();
    for name in names::all() {
        line(&rt, &table, name)?;
    }
    Ok(())
}
