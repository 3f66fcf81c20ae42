// The raw line of a bank (document 01, "The bank"). Each `put_` function adds a piece of it to what the output
// holds.
ghost use Rattle.std.specs.Prelude.{◌++◌, ◌≡◌, ◌+◌, ◌*◌, ◌≤◌, length};
ghost use Rattle.digits.specs.Pieces.{Puts, Room, Adds};
ghost use Rattle.rules.specs.Bytes.{bytes, hex_text};
ghost use Rattle.rules.specs.Answers.{taken};
ghost use Rattle.rules.specs.BankNumbers.{words_in};
ghost use Rattle.rules.specs.Raw.{afi, raw_text};
ghost use Rattle.rules.specs.Calls.{text_room};

use digits::Output;
use fields::bitreader::field_at;
use fields::control::size;
use scheme::counts::{BankAddress, CodeBit};

// `.x`, and src in hexadecimal.
fn put_field(w: &mut Output<'_>, src: &[u8])
    requires { Room w.old (2 + 2 * length src.now) }
    ensures { Adds w.old (bytes ".x" ++ hex_text src.now) w.new }
{
    w.put(b".x");
    w.hex(src)
}

// The AFI, if the toggle is 1.
fn put_afi(w: &mut Output<'_>, bank: &[u8])
    requires { (2 ≤ length bank.now) × Room w.old 4 }
    ensures { Adds w.old (afi bank.now) w.new }
{
    if field_at(bank, BankAddress(0x17), 1) == 0 {
        return;
    }
    let afi = [field_at(bank, BankAddress(0x18), 8) as u8];
    put_field(w, &afi)
}

// Writes the raw line of a bank of so many words from the output's start on, and returns its length.
pub fn write(bank: &[u8], words: usize, out: &mut [u8]) -> usize
    requires { (words_in bank.now ≡ taken words) × (text_room ≤ length out.old) }
    ensures { Puts (raw_text bank.now) 0 out.old result out.new }
{
    let mut w = Output::new(out);
    w.put(b"urn:epc:raw:");
    w.decimal((16 * words) as u64);
    put_afi(&mut w, bank);
    let code = CodeBit(0).address().byte();
    let behind = size(words);
    put_field(&mut w, &bank[code..behind]);
    w.at
}
