// Text in a buffer of N bytes, which is written to standard output as a whole, and the one function that reads standard input.
#![tactic(auto)]

ghost use Rattle.std.specs.Prelude.{◌≡◌, ◌≤◌, ℕ, List, [], ◌∷◌, ◌++◌, IfOk, length, take};
ghost use Rattle.names.specs.Spelling.{spelling_of, rows};
ghost use Rattle.print.specs.Text.{decimal_of, signed_of, right_of, Adds};

use std::io::{Read, Result};
use std::marker::Model;

// A text of at most N bytes. What finds no room is left out.
#[derive(Drop)]
pub struct Text<const N: usize> {
    bytes: [u8; N],
    len: usize,
}

// Clauses see the bytes of the text.
impl<const N: usize> Model for Text<N> {
    ghost Value = { List ℕ };

    ghost view = { λ t. take t.len t.bytes };

    ghost invariant = { λ t. t.len ≤ N };
}

impl<const N: usize> Text<N> {
    pub fn new() -> Self
        ensures { result ≡ [] }
    {
        Text {
            bytes: [0; N],
            len: 0,
        }
    }

    pub fn as_bytes(&self) -> &[u8]
        ensures { result.now ≡ self.now }
    {
        &self.bytes[..self.len]
    }

    // Writes the text to standard output. No contract can say what is written.
    pub fn write(&self, rt: &impl Print) -> Result<()> {
        rt.write_all(self.as_bytes())
    }

    // The bytes themselves.
    pub fn put(&mut self, bytes: &[u8])
        ensures { Adds N self.old bytes.now self.new }
    {
        let n = bytes.len().min(N - self.len);
        let end = self.len + n;
        let all = &mut self.bytes[..];
        all[self.len..end].copy_from_slice(&bytes[..n]);
        self.len = end;
    }

    // A number in decimal.
    pub fn decimal(&mut self, n: u64)
        ensures { Adds N self.old (decimal_of n) self.new }
    {
        let mut digits = [0u8; 20];
        let k = io::decimal(n, &mut digits);
        self.put(&digits[..k]);
    }

    // A number in decimal, and the byte that ends it.
    pub fn number(&mut self, n: u64, end: u8)
        ensures { Adds N self.old (decimal_of n ++ (end ∷ [])) self.new }
    {
        self.decimal(n);
        self.put(&[end]);
    }

    // A number in decimal at the right end of so many bytes.
    pub fn right(&mut self, n: u64, width: usize)
        requires { width ≤ 20 }
        ensures { Adds N self.old (right_of width n) self.new }
    {
        let mut digits = [0u8; 20];
        let size = io::decimal(n, &mut digits);
        let blanks = [b' '; 20];
        self.put(&blanks[..width.saturating_sub(size)]);
        self.put(&digits[..size]);
    }

    // A number in decimal, after a minus where it is below 0, and the byte that ends it.
    pub fn signed(&mut self, n: i16, end: u8)
        ensures { Adds N self.old (signed_of n ++ (end ∷ [])) self.new }
    {
        if n < 0 {
            self.put(b"-");
        }
        self.number(n.unsigned_abs() as u64, end);
    }

    // The spelling of a name by its number, and the byte that ends it. The table is names::table().
    pub fn name(&mut self, table: &[u8; 3232], name: u8, end: u8)
        requires { table.now ≡ rows }
        ensures { Adds N self.old (spelling_of name ++ (end ∷ [])) self.new }
    {
        let bytes = names::spelling(table, name);
        let letters = names::letters(name) as usize;
        self.put(&bytes[..letters]);
        self.put(&[end]);
    }
}

// Reads until the buffer is full or the input ends, and says how many bytes it put at the start of the buffer.
pub fn read_full<R: Read>(input: &mut R, bytes: &mut [u8]) -> Result<usize>
    ensures { IfOk result (λ n. n ≤ length bytes.new) }
{
    let mut done = 0;
    // Stays: a read says how many bytes it took, so no range counts the turns; Read has no method that stops at the end of input.
    while done < bytes.len() {
        let n = input.read(&mut bytes[done..])?;
        if n == 0 {
            break;
        }
        done += n;
    }
    Ok(done)
}
