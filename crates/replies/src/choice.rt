// tagline's reply to one line (document 01): to a tag text, to a bank in hex, or to neither. Each function writes it at the output's start and
// answers its length.
ghost use Rattle.std.specs.Prelude.{◌≤◌, length};
ghost use Rattle.rules.specs.BankNumbers.{tag_of_bank};
ghost use Rattle.replies.specs.Hex.{bank_in};
ghost use Rattle.replies.specs.Replies.{RefusedWith, of_bank, text_reply, bank_reply, tagline_reply};
ghost use Rattle.replies.specs.Writing.{Wrote, reply_room};

use super::hex;
use super::letters::{AFTER_LETTER, put_bank, put_letter, put_neither, put_number};
use codec::{BANK_ROOM, TEXT_ROOM};

// A line that begins `urn:` has at most so many characters.
pub const MOST_CHARACTERS: usize = 200;

// So many bytes stand before a raw line: a letter, a number of two digits, and a space behind each.
const AFTER_NUMBER: usize = 5;

// The room for any reply, with its line feed.
pub const REPLY_ROOM: usize = AFTER_NUMBER + TEXT_ROOM;

// The reply to a line that begins `urn:`.
fn text_reply(line: &[u8], out: &mut [u8]) -> usize
    requires { reply_room ≤ length out.old }
    ensures { Wrote (text_reply line.now) out.old result out.new }
{
    if MOST_CHARACTERS < line.len() {
        return put_neither(out);
    }
    let mut bank = [0u8; BANK_ROOM];
    // 0: in as few words as the scheme needs (document 02, C-15)
    match codec::text_to_bank(line, 0, &mut bank) {
        Ok(written) => put_bank(&bank[..written.length], out),
        Err(refusal) => put_number(b'N', refusal.rule.number(), out),
    }
}

// The reply to a bank that is refused with `number`. If its raw line is refused too, there is nothing to show; if not, the number has two digits.
fn refused_reply(bank: &[u8], number: u8, out: &mut [u8]) -> usize
    requires { RefusedWith bank.now number × (reply_room ≤ length out.old) }
    ensures { Wrote (of_bank bank.now (tag_of_bank bank.now)) out.old result out.new }
{
    match codec::raw_line(bank, &mut out[AFTER_NUMBER..]) {
        Ok(written) => {
            let end = put_number(b'R', number, out);
            out[end] = b' ';
            written.length + AFTER_NUMBER
        }
        Err(_) => put_number(b'N', number, out),
    }
}

// The reply to a bank.
fn bank_reply(bank: &[u8], out: &mut [u8]) -> usize
    requires { reply_room ≤ length out.old }
    ensures { Wrote (of_bank bank.now (tag_of_bank bank.now)) out.old result out.new }
{
    match codec::bank_to_text(bank, &mut out[AFTER_LETTER..]) {
        Ok(written) => put_letter(b'T', written.length, out),
        Err(refusal) => refused_reply(bank, refusal.rule.number(), out),
    }
}

// The reply to a line that does not begin `urn:`.
fn hex_reply(line: &[u8], out: &mut [u8]) -> usize
    requires { reply_room ≤ length out.old }
    ensures { Wrote (bank_reply (bank_in line.now)) out.old result out.new }
{
    if !hex::is_bank(line) {
        return put_neither(out);
    }
    let mut bank = [0u8; BANK_ROOM];
    hex::read(line, &mut bank);
    let n = line.len() / 2;
    bank_reply(&bank[..n], out)
}

// The reply to any line, without a line feed.
pub fn write(line: &[u8], out: &mut [u8]) -> usize
    requires { reply_room ≤ length out.old }
    ensures { Wrote (tagline_reply line.now) out.old result out.new }
{
    if digits::begins(line, b"urn:") {
        return text_reply(line, out);
    }
    hex_reply(line, out)
}
