// The record of a tag: what its text and its bank both say, by value.
use super::refusal::Refusal;
use rules::{ControlFields, MOST_CHARACTERS, Scheme};

// `digits` are those of the prefix. What a scheme has no part for is 0, so that a tag has one record: gid-96's three integers are
// prefix, reference and serial, and giai-96's reference, its last part, is the serial. `count` says how many characters a string has, or
// how many digits a numeric string, whose value is the serial.
#[derive(Clone, Copy)]
pub struct Record {
    pub scheme: Scheme,
    pub control: ControlFields,
    pub filter: u64,
    pub prefix: u64,
    pub digits: usize,
    pub reference: u64,
    pub serial: u64,
    pub characters: [u8; MOST_CHARACTERS],
    pub count: usize,
}

// What reading a text or a bank gives: the record of its tag, or its refusal.
pub type Reading = Result<Record, Refusal>;
