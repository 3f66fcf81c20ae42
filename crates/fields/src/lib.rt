// The fields of a bank by their place: the control word with its rules, and the bits of the code in order.
#![tactic(auto)]

pub mod bitreader;
pub mod control;
