// What follows from the side information of a frame and of a block (A/52 Annex E, TS 102 366 Annex E): numbers of blocks, channels, regions
// and bands, ranges and ends.
#![tactic(auto)]

pub mod blocks;
pub mod flags;
pub mod frames;
pub mod shapes;
