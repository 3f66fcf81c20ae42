// The numbers that documents 01 ("Numbers given, and when") and 02 give to refusals, by name. Their tables and words say when each is given.
ghost use Rattle.std.specs.Prelude.{◌≡◌, ◌≤◌};

use super::counts::CodeBit;

// The rules, each with its number.
#[derive(Clone, Copy, PartialEq, Eq)]
pub enum Rule {
    OutputTooShort = 1,

    // Text to bank. 20 is looked at between 2 and 3 (document 02, C-13); 21, more words than five bits count, right after 1, and 22, fewer than the
    // scheme needs, after 8 (C-15).
    Start = 2,
    Name = 3,
    Filter = 4,
    Prefix = 5,
    Reference = 6,
    LastPartForm = 7,
    LastPartSize = 8,
    ControlFields = 20,
    TooManyWords = 21,
    TooFewWords = 22,

    // Bank to text.
    BankTooShort = 9,
    NoWords = 10,
    Toggle = 11,
    ControlBits = 12,
    Header = 13,
    WordCount = 14,
    FillBits = 15,
    Partition = 16,
    PrefixTooLarge = 17,
    ReferenceTooLarge = 18,
    String = 19,

    // An identity to a tag text (document 02, C-16).
    NotAnIdentity = 23,
    FilterTooLarge = 24,
    NoScheme = 25,
}

// A refusal: the first rule that was broken, and its place (document 02, C-12).
#[derive(Clone, Copy)]
pub struct Refusal {
    pub rule: Rule,
    pub place: usize,
}

impl Rule {
    ghost use Rattle.scheme.specs.Refusals.{number, by};
    ghost use Rattle.scheme.specs.Counts.{address_of};

    // The number of the rule.
    pub fn number(self) -> u8
        ensures { result ≡ number self }
    {
        self as u8
    }

    // A refusal by this rule.
    pub fn at(self, place: usize) -> Refusal
        ensures { result ≡ by self place }
    {
        Refusal { rule: self, place }
    }

    // A refusal of a field of the code, at the address of its first bit.
    pub fn at_bit(self, first: CodeBit) -> Refusal
        requires { first.0 ≤ 0x1000 }
        ensures { result ≡ by self (address_of first).0 }
    {
        let address = first.address();
        self.at(address.0)
    }
}
