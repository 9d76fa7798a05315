// The rows of a bitstream syntax: the parts of their numbers, and what each of them comes to.
#![tactic(auto)]

pub mod fields; // the parts of a row's number
pub mod kinds; // what a row is
pub mod steps; // rows that read nothing
