// The text of a tag to its record, and the record to the text.
#![tactic(auto)]

mod control;
pub mod reading;
pub mod writing;
