// Bits are taken from the bank in order, most significant first (document 01, "The bank"). The decoder reads the control word by its
// addresses, with `field_at`, and takes the code field by field, with `take`.
ghost use Rattle.std.specs.Prelude.{◌≡◌, ◌^◌, ◌≤◌, ◌<◌, length};
ghost use Rattle.rules.specs.Bytes.{upto};
ghost use Rattle.rules.specs.Coding.{binary, at};
ghost use Rattle.fields.specs.BitReaders.{Lies, LiesInCode, AllLie, code_field, first_one, reader_of};
ghost use Rattle.scheme.specs.Counts.{behind_of};

use scheme::counts::{BankAddress, CodeBit};

// The number in the `width` bits from a bank address on.
pub fn field_at(bank: &[u8], a: BankAddress, width: usize) -> u64
    requires { Lies a.0 width (length bank.now) }
    ensures { result ≡ at bank.now a.0 width }
{
    bits::field(bank, a.index(), width)
}

// The number in the `width` bits from a code bit on: the function on slice and number that document 01 asks for under the bit reader.
pub fn number_at(bank: &[u8], c: CodeBit, width: usize) -> u64
    requires { LiesInCode c.0 width (length bank.now) }
    ensures { result ≡ code_field bank.now c.0 width }
{
    field_at(bank, c.address(), width)
}

// How many of the `width` bits of a number stand before its first one bit; for 0, all of them.
fn zeros_before(v: u64, width: usize) -> usize
    requires { (v < 2 ^ width) × (width ≤ 64) }
    ensures { result ≡ length (upto 1 (binary width v)) }
{
    u64::leading_zeros(v) as usize + width - 64
}

// The first of the code bits from `from` on, and before `end`, that is 1; where none is, `end`. Up to the end of a byte they are read at once, and a
// code's words end with a byte.
// The loop stays: `position` over the whole bytes would leave the first, partial byte to be read, asked and counted apart, all of it twice.
pub fn first_one(bank: &[u8], from: CodeBit, end: usize) -> CodeBit
    requires { AllLie from.0 end (length bank.now) }
    ensures { result.0 ≡ first_one bank.now from.0 end }
{
    let mut at = from;
    let mut width = 8 - from.0 % 8;
    while at.0 < end {
        let value = bits::rest_of_byte(bank, at.address().index());
        if value != 0 {
            return at.behind(zeros_before(value, width));
        }
        at = at.behind(width);
        // whole bytes from here on
        width = 8;
    }
    at
}

// The bit reader: the bank's slice, and the code bit where it stands.
#[derive(Drop)]
pub struct BitReader<'a> {
    pub bank: &'a [u8],
    pub at: CodeBit,
}

impl<'a> BitReader<'a> {
    // A reader of the bank that stands at a code bit.
    pub fn new(bank: &'a [u8], at: CodeBit) -> BitReader<'a>
        ensures { result ≡ reader_of bank.entry at }
    {
        BitReader { bank, at }
    }

    // Takes the next `width` bits of the code: the number in them. The reader goes on behind them.
    pub fn take(&mut self, width: usize) -> u64
        requires { LiesInCode self.old.at.0 width (length self.old.bank.now) }
        ensures number { result ≡ code_field self.old.bank.now self.old.at.0 width }
        ensures rest { self.new ≡ reader_of self.old.bank (behind_of self.old.at width) }
    {
        let number = number_at(self.bank, self.at, width);
        self.at = self.at.behind(width);
        number
    }
}
