// The schemes in code: their types and their table, the rows of the partition tables, the two counts of bits, the
// record of a tag, the numbers of refusals.
#![tactic(auto)]

pub mod counts;
pub mod outlines;
pub mod record;
pub mod refusal;
pub mod rows;
pub mod types;
