// The control word, addresses 10h to 1Fh: the word count and the rules 9 to 12 (document 01, "The bank" and "Numbers given, and when"), with
// their places (document 02, C-12), and the control fields (C-13).
ghost use Rattle.std.specs.Prelude.{◌≡◌, ◌≤◌, ◌<◌, length};
ghost use Rattle.rules.specs.Coding.{bank_size, word_count};
ghost use Rattle.rules.specs.BankNumbers.{words_in, control_in, control_fields};
ghost use Rattle.scheme.specs.Refusals.{in_code};

use super::bitreader::field_at;
use rules::ControlFields;
use scheme::counts::BankAddress;
use scheme::refusal::{Refusal, Rule};

// The fields of the control word: where the word count, the user memory bit, the XPC bit, the toggle, and the attribute bits or the AFI begin.
pub const WORD_COUNT: BankAddress = BankAddress(0x10);

const USER_MEMORY: BankAddress = BankAddress(0x15);

const XPC: BankAddress = BankAddress(0x16);

const TOGGLE: BankAddress = BankAddress(0x17);

const ATTRIBUTES: BankAddress = BankAddress(0x18);

// The bytes of a bank of so many words: the control word and the code.
pub fn size(words: usize) -> usize
    requires { words < 32 }
    ensures { result ≡ bank_size words }
{
    2 + 2 * words
}

// The word count W of a bank.
pub fn word_count(bank: &[u8]) -> usize
    requires { 2 ≤ length bank.now }
    ensures { result ≡ word_count bank.now }
{
    field_at(bank, WORD_COUNT, 5) as usize
}

// Rules 9 and 10: the bank has all its words, and not none; how many they are. The raw line is refused by these alone.
pub fn words(bank: &[u8]) -> Result<usize, Refusal>
    ensures { result ≡ in_code (words_in bank.now) }
{
    if bank.len() < 2 {
        return Err(Rule::BankTooShort.at(bank.len()));
    }
    let words = word_count(bank);
    if bank.len() < size(words) {
        return Err(Rule::BankTooShort.at(bank.len()));
    }
    if words == 0 {
        return Err(Rule::NoWords.at(WORD_COUNT.0));
    }
    Ok(words)
}

// Rules 9 to 12: the toggle and the XPC bit are 0 too.
pub fn clean(bank: &[u8]) -> Result<usize, Refusal>
    ensures { result ≡ in_code (control_in bank.now) }
{
    let count = words(bank)?;
    if field_at(bank, TOGGLE, 1) != 0 {
        return Err(Rule::Toggle.at(TOGGLE.0));
    }
    if field_at(bank, XPC, 1) != 0 {
        return Err(Rule::ControlBits.at(XPC.0));
    }
    Ok(count)
}

// The control fields of a bank: the user memory bit, and the attribute bits.
pub fn fields(bank: &[u8]) -> ControlFields
    requires { 2 ≤ length bank.now }
    ensures { result ≡ control_fields bank.now }
{
    ControlFields {
        umi: field_at(bank, USER_MEMORY, 1) as u8,
        att: field_at(bank, ATTRIBUTES, 8) as u8,
    }
}
