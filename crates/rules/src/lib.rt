// The written rules: document 01 as definitions in specs/, and the theorems about them in proofs/. No code: what stands here are the
// names that the rules and the code share.
#![tactic(auto)]

// The sixteen schemes (document 01, and C-11 of document 02).
#[derive(Clone, Copy)]
pub enum Scheme {
    Sgtin96,
    Sgtin198,
    Sscc96,
    Sgln96,
    Sgln195,
    Grai96,
    Grai170,
    Giai96,
    Gsrn96,
    Gsrnp96,
    Gdti96,
    Gdti174,
    Gid96,
    Gdti113,
    Sgcn96,
    Cpi96,
}

// The control fields of a text by name (document 02, C-13): bit 15h of the bank, the user memory bit, and bits 18h to 1Fh, the attribute bits.
#[derive(Clone, Copy)]
pub enum ControlName {
    Umi,
    Att,
}

// Their values.
#[derive(Clone, Copy)]
pub struct ControlFields {
    pub umi: u8,
    pub att: u8,
}

// The most characters that a string has: 140 bits, seven each.
pub const MOST_CHARACTERS: usize = 20;

// The partition tables whose references have digits: as many as the row has in A to D, at most so many in cpi-96's own table.
#[derive(Clone, Copy)]
pub enum Table {
    A,
    B,
    C,
    D,
    Cpi,
}

// What follows the reference of one of these tables: an integer or a string of so many bits, or a numeric string of so many bits and at
// most so many digits.
#[derive(Clone, Copy)]
pub enum Last {
    Integer(usize),
    String(usize),
    Numeric(usize, usize),
}

// A partition table and what follows its reference: the last part, or so many zero bits. The reference of table E is itself the last
// part.
#[derive(Clone, Copy)]
pub enum Body {
    Then(Table, Last),
    Zeros(Table, usize),
    E,
}

// The parts after the header: F, the filter, and a partition table with what follows it; or three integers of so many bits, and no filter.
#[derive(Clone, Copy)]
pub enum Parts {
    F(Body),
    Integers(usize, usize, usize),
}
