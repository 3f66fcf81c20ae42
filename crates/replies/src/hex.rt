// A bank in hex: an even number, at most 128, of upper-case hex digits (document 01).
ghost use Rattle.std.specs.Prelude.{◌≡◌, ◌*◌, ◌%◌, ◌≤◌, T, length};
ghost use Rattle.numeral.specs.Numeral.{splice};
ghost use Rattle.rules.specs.Bytes.{all};
ghost use Rattle.digits.specs.Digits.{hex_place};
ghost use Rattle.replies.specs.Hex.{is_hex, bytes_in, is_bank};

// A line has at most so many digits.
const MOST_DIGITS: usize = 128;

// Whether c is an upper-case hex digit.
#[tactic(auto, using(crate::proofs::Hexes::hex_is))]
fn is_hex(c: u8) -> bool
    ensures { result ≡ is_hex c }
{
    digits::hex_value(c).is_some()
}

// Whether a line is a bank in hex.
pub fn is_bank(line: &[u8]) -> bool
    ensures { result ≡ is_bank line.now }
{
    if MOST_DIGITS < line.len() {
        return false;
    }
    if line.len() % 2 != 0 {
        return false;
    }
    digits::all(line, is_hex)
}

// The value of a hex digit, which is_bank has found to be one. A digit's lower four bits are its value; a letter's are 9 less, and only
// letters are 64 or more.
fn value(c: u8) -> u8
    requires { T (is_hex c) }
    ensures { result ≡ hex_place c }
{
    c % 16 + 9 * (c / 64)
}

// Writes the bank of a line at the lent bank's start.
pub fn read(line: &[u8], bank: &mut [u8])
    requires { T (all is_hex line.now) × (length line.now ≤ 2 * length bank.old) }
    ensures { bank.new ≡ splice bank.old 0 (bytes_in line.now) }
{
    let n = line.len() / 2;
    // by index: behind `iter_mut().zip(..)` a proof knows nothing of the elements
    for i in 0..n {
        bank[i] = 16 * value(line[2 * i]) + value(line[2 * i + 1]);
    }
}
