// Sets loudness words in the frame at the beginning of standard input, all or none, and writes what it read, with them and crc2
// set, to standard output. Each argument is an item: a word by its name, with its block in brackets where it stands in more than
// one, or by its place in the list, and its value, decimal or behind 0x hexadecimal: dialnorm=27 dynrng[3]=0x80 17=5. Where the
// words cannot be set a line on standard error says why, and nothing is written.
#![tactic(auto)]

ghost use Rattle.std.specs.Prelude.{◌≤◌, length, IfOk};

use answer::{Answer, Verdict};
use ingest::records_of;
use listing::Records;
use mastering::set_words;
use print::Text;
use std::env::{Env, FillError};
use std::io::Result;
use word_items::{Unplaced, last, name_of, number_of, place_of};

// What an item asks for: a place of the list, and the word that is set there.
#[derive(Clone, Copy)]
struct Item {
    place: usize,
    word: u32,
}

// Why an item asks for nothing: it cannot be understood, the frame has no such word, or it has more than one.
#[derive(Clone, Copy, PartialEq, Eq, Debug)]
enum Fault {
    Unclear,
    Absent,
    Repeated,
}

impl From<Unplaced> for Fault {
    fn from(unplaced: Unplaced) -> Fault {
        match unplaced {
            Unplaced::Nowhere => Fault::Absent,
            Unplaced::Twice => Fault::Repeated,
        }
    }
}

impl Fault {
    fn why(self) -> &'static [u8] {
        match self {
            Fault::Unclear => b"is no WORD=VALUE, WORD[BLOCK]=VALUE or PLACE=VALUE\n",
            Fault::Absent => b"names a word that the frame does not have\n",
            Fault::Repeated => b"names a word that the frame has more than once: say its block\n",
        }
    }
}

// The first fault among some items, and the ordinal of its item.
#[derive(Clone, Copy)]
struct Faulty {
    ordinal: usize,
    fault: Fault,
}

// The items of up to 17 arguments: 17 are too many already.
#[derive(Drop)]
struct Items {
    places: [usize; 17],
    words: [u32; 17],
    size: usize,
}

// A block as a byte; 255 outside the blocks.
fn byte_of(block: i8) -> u8 {
    match block {
        0 => 0,
        1 => 1,
        2 => 2,
        3 => 3,
        4 => 4,
        5 => 5,
        _ => 255,
    }
}

fn as_bytes(blocks: &[i8; 2048]) -> [u8; 2048] {
    let mut bytes = [255u8; 2048];
    for (byte, block) in bytes.iter_mut().zip(blocks) {
        *byte = byte_of(*block);
    }
    bytes
}

// Whether there is an argument, of any length.
fn is_given(rt: &HostRuntime, i: usize) -> bool {
    let mut text = [0u8; 64];
    match rt.arg(i, &mut text) {
        Ok(_) => true,
        Err(FillError::TooLong) => true,
        Err(FillError::NotPresent) => false,
    }
}

// How many arguments there are behind the program's name, up to 17.
fn up_to_17(rt: &HostRuntime) -> usize
    ensures { result ≤ 17 }
{
    for n in 0..17 {
        if !is_given(rt, n + 1) {
            return n;
        }
    }
    17
}

// A block in brackets, from the byte behind the first of them on.
fn block_of(text: &[u8]) -> Option<u8> {
    match text {
        [digits @ .., b']'] => u8::try_from(number_of(digits)?).ok(),
        _ => None,
    }
}

// The place of a word by its name and, in brackets, its block.
fn by_name(text: &[u8], names: &[u8], blocks: &[u8]) -> std::result::Result<usize, Fault> {
    match last(text, b'[') {
        None => {
            let name = name_of(text).ok_or(Fault::Unclear)?;
            Ok(place_of(names, blocks, name, None)?)
        }
        Some(bracket) => {
            let name = name_of(&text[..bracket]).ok_or(Fault::Unclear)?;
            let block = block_of(&text[bracket + 1..]).ok_or(Fault::Unclear)?;
            Ok(place_of(names, blocks, name, Some(block))?)
        }
    }
}

// An item by its text.
fn item_of(text: &[u8], names: &[u8], blocks: &[u8]) -> std::result::Result<Item, Fault> {
    let equal = last(text, b'=').ok_or(Fault::Unclear)?;
    let word = number_of(&text[equal + 1..]).ok_or(Fault::Unclear)?;
    let place = match number_of(&text[..equal]) {
        Some(place) => place as usize,
        None => by_name(&text[..equal], names, blocks)?,
    };
    Ok(Item { place, word })
}

// The bytes of an argument, or none where it has more than there is room for.
fn argument(rt: &HostRuntime, i: usize, text: &mut [u8]) -> usize
    ensures { result ≤ length text.new }
{
    rt.arg(i, text).unwrap_or(0)
}

fn item_at(
    rt: &HostRuntime,
    i: usize,
    names: &[u8],
    blocks: &[u8],
) -> std::result::Result<Item, Fault> {
    let mut text = [0u8; 64];
    let n = argument(rt, i, &mut text);
    item_of(&text[..n], names, blocks)
}

// The items of so many arguments, or the first fault.
fn items_of(
    rt: &HostRuntime,
    size: usize,
    names: &[u8],
    blocks: &[u8],
) -> std::result::Result<Items, Faulty>
    requires { size ≤ 17 }
    ensures { IfOk result (λ items. items.size ≤ 17) }
{
    let mut places = [0; 17];
    let mut words = [0; 17];
    for t in 0..size {
        match item_at(rt, t + 1, names, blocks) {
            Ok(item) => {
                places[t] = item.place;
                words[t] = item.word;
            }
            Err(fault) => {
                return Err(Faulty {
                    ordinal: t + 1,
                    fault,
                });
            }
        }
    }
    Ok(Items {
        places,
        words,
        size,
    })
}

fn tell<const N: usize>(rt: &HostRuntime, text: &Text<N>) -> Result<()> {
    rt.stderr().write_all(text.as_bytes())
}

// Which item is faulty, and why.
fn tell_item(rt: &HostRuntime, faulty: Faulty) -> Result<()> {
    let mut out: Text<128> = Text::new();
    out.put(b"item ");
    out.number(faulty.ordinal as u64, b' ');
    out.put(faulty.fault.why());
    tell(rt, &out)
}

// What a refusal means.
fn why(refusal: u8) -> &'static [u8] {
    match refusal {
        1 => b": fewer than 6 bytes\n",
        2 => b": no sync word 0B77\n",
        3 => b": strmtyp is 3, which is reserved\n",
        4 => b": fewer bytes than the frame announces\n",
        5 => b": fscod is 3, reduced sample rates, which are not read\n",
        6 => b": bsid is not 11 to 16: no E-AC-3 frame\n",
        7 => b": snroffststr is 3, which is reserved\n",
        ..=8 => b": an element passes the frame's end\n",
        9 => b": enhanced coupling, which is not read\n",
        10 => b": chbwcod is above 60\n",
        11 => b": a grouped exponent is above 124\n",
        12 => b": a delta code is 3, which is reserved\n",
        13 => b": a composite GAQ gain is above 26\n",
        20 => b": the mixing data have more bits than mixdeflen says\n",
        ..=21 => b": spectral extension begins at or after its end\n",
        22 => b": coupling has less than one sub-band\n",
        23 => b": a bandwidth was never sent\n",
        24 => b": coupling exponents are reused that are not held\n",
        25 => b": exponents of a channel are reused that are not held\n",
        26 => b": LFE exponents are reused that are not held\n",
        27 => b": an exponent leaves 0 to 24\n",
        28 => b": a delta code 0 in block 0\n",
        29 => b": bit allocation parameters were never sent\n",
        30 => b": fewer than 18 bits are left after the audio\n",
        31 => b": auxdatae is 1 and fewer than 32 bits are left after the audio\n",
        32 => b": auxdatal is more than auxbits\n",
        33 => b": the frame has more than 2,048 records\n",
        41 => b": a place is beyond the list\n",
        42 => b": a record is not dialnorm, compr, dynrng or one of those of a second programme\n",
        43 => b": a value has more bits than its word\n",
        47 => b": a place is listed twice\n",
        _ => b": more than 16 items\n",
    }
}

// A refusal: number, bit place, and what it means.
fn tell_refusal(rt: &HostRuntime, refusal: u8, place: u64) -> Result<()> {
    let mut out: Text<128> = Text::new();
    out.put(b"refused ");
    out.number(refusal as u64, b' ');
    out.put(b"at bit ");
    out.decimal(place);
    out.put(why(refusal));
    tell(rt, &out)
}

fn pass_some(rt: &HostRuntime) -> Result<bool> {
    let mut bytes = [0u8; 4096];
    let n = print::read_full(&mut rt.stdin(), &mut bytes)?;
    rt.write_all(&bytes[..n])?;
    Ok(n == 4096)
}

// Passes on the rest of the input.
fn pass_rest(rt: &HostRuntime) -> Result<()> {
    for _ in 0..u64::MAX {
        if !pass_some(rt)? {
            break;
        }
    }
    Ok(())
}

// Writes the changed bytes and what follows them, or tells the refusal.
fn answered(rt: &HostRuntime, answer: Answer, bytes: &[u8]) -> Result<()> {
    match answer.verdict {
        Verdict::Accepted => {
            rt.write_all(bytes)?;
            pass_rest(rt)
        }
        Verdict::Refused(refusal, place, _) => tell_refusal(rt, refusal, place.0 as u64),
    }
}

fn set(bytes: &mut [u8], places: &[usize], words: &[u32]) -> Answer {
    let mut names: [u8; 2048] = [0; 2048];
    let mut blocks: [i8; 2048] = [0; 2048];
    let mut indexes: [i16; 2048] = [0; 2048];
    let mut firsts: [u16; 2048] = [0; 2048];
    let mut widths: [u16; 2048] = [0; 2048];
    let mut values: [u32; 2048] = [0; 2048];
    set_words(
        bytes,
        &mut names,
        &mut blocks,
        &mut indexes,
        &mut firsts,
        &mut widths,
        &mut values,
        places,
        words,
    )
}

// The items of a list of so many records set in its frame.
fn set_items(rt: &HostRuntime, bytes: &mut [u8], read: Records, count: usize) -> Result<()>
    requires { count ≤ 2048 }
{
    let names = read.names;
    let blocks = as_bytes(&read.blocks);
    match items_of(rt, up_to_17(rt), &names[..count], &blocks[..count]) {
        Ok(items) => {
            let answer = set(
                bytes,
                &items.places[..items.size],
                &items.words[..items.size],
            );
            answered(rt, answer, bytes)
        }
        Err(faulty) => tell_item(rt, faulty),
    }
}

// Of a refused frame no item is looked at.
fn run(rt: &HostRuntime, bytes: &mut [u8]) -> Result<()> {
    let read = records_of(bytes);
    let answer = read.answer;
    match answer.verdict {
        Verdict::Accepted => set_items(rt, bytes, read, answer.frame.fields.min(2048)),
        Verdict::Refused(refusal, place, _) => tell_refusal(rt, refusal, place.0 as u64),
    }
}

fn main(rt: HostRuntime) -> Result<()> {
    let mut bytes = [0u8; 4096];
    let n = print::read_full(&mut rt.stdin(), &mut bytes)?;
    run(&rt, &mut bytes[..n])
}
