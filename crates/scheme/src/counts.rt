// The two counts of bits, kept apart: bank addresses count from 10h, code bits from 0 (document 01, "The bank").
ghost use Rattle.std.specs.Prelude.{◌≡◌, ◌+◌, ◌-◌, ◌/◌, ◌≤◌};
ghost use Rattle.scheme.specs.Counts.{address_of, behind_of};

// An address in the bank. The lent bank starts at 10h.
#[derive(Clone, Copy)]
pub struct BankAddress(pub usize);

// A bit of the code. The header begins at 0.
#[derive(Clone, Copy)]
pub struct CodeBit(pub usize);

impl BankAddress {
    // The index of this address among the bits of the lent bank.
    pub fn index(self) -> usize
        requires { 0x10 ≤ self.0 }
        ensures { result ≡ self.0 - 0x10 }
    {
        self.0 - 0x10
    }

    // The byte of the lent bank that this address stands in.
    pub fn byte(self) -> usize
        requires { 0x10 ≤ self.0 }
        ensures { result ≡ (self.0 - 0x10) / 8 }
    {
        self.index() / 8
    }
}

impl CodeBit {
    // The only conversion between the two counts: code bit 0 is address 20h. Not `From`, which may require nothing: the sum has to fit.
    pub fn address(self) -> BankAddress
        requires { self.0 ≤ 0x1000 }
        ensures { result.0 ≡ (address_of self).0 }
    {
        BankAddress(self.0 + 0x20)
    }

    // The code bit behind a field of so many bits that begins here.
    pub fn behind(self, width: usize) -> CodeBit
        requires { self.0 + width ≤ 0x1000 }
        ensures { result ≡ behind_of self width }
    {
        CodeBit(self.0 + width)
    }
}
