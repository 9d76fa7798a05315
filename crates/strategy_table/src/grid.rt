// The exponent strategy of each channel in each block, from the records.
ghost use Rattle.std.specs.Prelude.{◌≡◌, ◌<◌};
ghost use Rattle.strategy_table.specs.Strategies.{sent_of, expanded_of, chosen_of, coded_of, in_use, channel_of, coupled_of, coupling_of, lfe_of, element_of};

use crate::found::{alone, at};
use listing::Records;
use names::numbers as n;

// How the exponents of a block are coded (A/52 table 5.12 and clause 8.2).
#[derive(Clone, Copy, PartialEq, Eq, Debug)]
pub enum Strategy {
    Reuse,
    D15,
    D25,
    D45,
}

// A strategy as it is sent for one block.
#[tactic(auto, unfolding(crate::specs::Strategies::sent_of, crate::specs::Strategies::kinds))]
fn sent(value: u32) -> Option<Strategy>
    ensures { result ≡ sent_of value }
{
    match value {
        0 => Some(Strategy::Reuse),
        1 => Some(Strategy::D15),
        2 => Some(Strategy::D25),
        3 => Some(Strategy::D45),
        _ => None,
    }
}

// The strategy of a block by the code for six blocks.
fn expanded(code: u32, block: u8) -> Option<Strategy>
    ensures { result ≡ expanded_of code block }
{
    if code < 32 && block < 6 {
        let table = tables::frame_expstr();
        return sent(table[6 * code as usize + block as usize] as u32);
    }
    None
}

// What was sent for the block, or else another strategy.
#[tactic(auto, unfolding(crate::specs::Strategies::chosen_of))]
fn chosen(value: Option<u32>, otherwise: Option<Strategy>) -> Option<Strategy>
    ensures { result ≡ chosen_of value otherwise }
{
    match value {
        Some(v) => sent(v),
        None => otherwise,
    }
}

// By the code for six blocks, if there is one.
#[tactic(auto, unfolding(crate::specs::Strategies::coded_of))]
fn coded(code: Option<u32>, block: u8) -> Option<Strategy>
    ensures { result ≡ coded_of code block }
{
    expanded(code?, block)
}

// The strategy of a full bandwidth channel. In each block the channels follow one another, all with the block's index.
pub fn channel(r: &Records, count: usize, block: u8, ch: u8) -> Option<Strategy>
    ensures { result ≡ channel_of r.now count block ch }
{
    let frame = coded(at(r, count, n::FRMCHEXPSTR, ch, 0), block);
    chosen(at(r, count, n::CHEXPSTR, block, ch as usize), frame)
}

// Whether coupling is in use after so many blocks, by what each says of it or else by what held before.
fn coupled(r: &Records, count: usize, blocks: u8) -> bool
    ensures { result ≡ coupled_of r.now count blocks }
{
    let mut used = false;
    for b in 0..blocks {
        if let Some(v) = at(r, count, n::CPLINU, b, 0) {
            used = v == 1;
        }
    }
    used
}

// The strategy of the coupling channel, where it is in use.
pub fn coupling(r: &Records, count: usize, block: u8) -> Option<Strategy>
    requires { block < 6 }
    ensures { result ≡ coupling_of r.now count block }
{
    if coupled(r, count, block + 1) {
        let frame = coded(alone(r, count, n::FRMCPLEXPSTR), block);
        return chosen(at(r, count, n::CPLEXPSTR, block, 0), frame);
    }
    None
}

// The strategy of the LFE channel.
pub fn lfe(r: &Records, count: usize, block: u8) -> Option<Strategy>
    ensures { result ≡ lfe_of r.now count block }
{
    chosen(at(r, count, n::LFEEXPSTR, block, 0), None)
}

// An element that has no index, 0 where it was not sent.
pub fn element(r: &Records, count: usize, name: u8) -> u32
    ensures { result ≡ element_of r.now count name }
{
    alone(r, count, name).unwrap_or(0)
}
