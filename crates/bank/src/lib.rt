// The bank of a tag: read to the record of its tag, written from it; and the raw line of any bank.
#![tactic(auto)]

mod eights;
pub mod raw;
pub mod reading;
pub mod writing;
