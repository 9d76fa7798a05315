// The names of records: numbers, spellings and roles (syntax.rs).
#![tactic(auto)]

ghost use Rattle.std.specs.Prelude.{◌≡◌, List, map, length};
ghost use Rattle.names.specs.Names.{Name, names};
ghost use Rattle.names.specs.Spelling.{spelling_of, padded, rows};
ghost use Rattle.names.specs.Roles.{role_of};

pub mod numbers;
mod spellings;

// What a name means to those who change frames. Where there is a number, it is the programme, 0 or 1.
#[derive(Clone, Copy, PartialEq, Eq, Debug)]
pub enum Role {
    Plain,
    Sync,
    Crc1,
    Crc2,
    CrcRsv,
    FrameSize,
    Dialnorm(u8),
    ComprExists(u8),
    Compr(u8),
    DynrngExists(u8),
    Dynrng(u8),
    Skiple,
    Skipl,
    Skipfld,
    Addbsi,
    Mantissas,
    AuxBits,
    AuxDataL,
    AuxDataE,
    BlkStrtInfoE,
    BlkStrtInfo,
}

// The numbers of all names, in order.
pub fn all() -> [u8; 202]
    ensures { result ≡ map (λ (n : Name). n.number) names }
{
    numbers::ALL
}

// How many letters the spelling of a name has; 0 for a number that is no name.
pub fn letters(name: u8) -> u8
    ensures { result ≡ length (spelling_of name) }
{
    if name < 202 {
        spellings::LETTERS[name as usize]
    } else {
        0
    }
}

// All spellings one after another, each filled up to 16 bytes with blanks.
pub fn table() -> [u8; 3232]
    ensures { result ≡ rows }
{
    spellings::SPELLINGS
}

// The spelling of a name, filled up with blanks; blanks alone for a number that is no name. The table is lent, since
// each use of a constant builds it anew.
pub fn spelling(table: &[u8; 3232], name: u8) -> [u8; 16]
    requires { table.now ≡ rows }
    ensures { result ≡ padded 16 (spelling_of name) }
{
    let mut out = [b' '; 16];
    if name < 202 {
        let from = 16 * name as usize;
        out.copy_from_slice(&table[from..from + 16]);
    }
    out
}

// The role of a name.
#[tactic(auto, unfolding(crate::specs::Roles::roled, crate::specs::Roles::role_in))]
pub fn role_of(name: u8) -> Role
    ensures { result ≡ role_of name }
{
    match name {
        numbers::SYNCWORD => Role::Sync,
        // Stays: an arm each, since arms joined by `|` become a test of a range, and `returns-in_default` then lacks their numbers.
        numbers::STRMTYP => Role::FrameSize,
        numbers::SUBSTREAMID => Role::FrameSize,
        numbers::FRMSIZ => Role::FrameSize,
        numbers::DIALNORM => Role::Dialnorm(0),
        numbers::COMPRE => Role::ComprExists(0),
        numbers::COMPR => Role::Compr(0),
        numbers::DIALNORM2 => Role::Dialnorm(1),
        numbers::COMPR2E => Role::ComprExists(1),
        numbers::COMPR2 => Role::Compr(1),
        numbers::ADDBSI => Role::Addbsi,
        numbers::BLKSTRTINFOE => Role::BlkStrtInfoE,
        numbers::BLKSTRTINFO => Role::BlkStrtInfo,
        numbers::DYNRNGE => Role::DynrngExists(0),
        numbers::DYNRNG => Role::Dynrng(0),
        numbers::DYNRNG2E => Role::DynrngExists(1),
        numbers::DYNRNG2 => Role::Dynrng(1),
        numbers::SKIPLE => Role::Skiple,
        numbers::SKIPL => Role::Skipl,
        numbers::SKIPFLD => Role::Skipfld,
        numbers::MANTISSAS => Role::Mantissas,
        numbers::AUXBITS => Role::AuxBits,
        numbers::AUXDATAL => Role::AuxDataL,
        numbers::AUXDATAE => Role::AuxDataE,
        numbers::ENCINFO => Role::CrcRsv,
        numbers::CRC2 => Role::Crc2,
        _ => Role::Plain,
    }
}
