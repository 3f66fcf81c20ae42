// The four public calls of document 01. Any text and any bank may come in: none has a condition, and each fixes its answer and every
// byte of the lent output. All is read before anything is written.
#![tactic(auto)]

pub mod ties;

ghost use Rattle.std.specs.Prelude.{◌≡◌};
ghost use Rattle.rules.specs.Calls.{words_to_write, text_to_bank, bank_to_text, raw_line};
ghost use Rattle.rules.specs.Screen.{screen as screenOf};
ghost use Rattle.scheme.specs.Refusals.{in_code};
ghost use Rattle.codec.specs.Answers.{answered, chosen};

use fields::control::word_count;
use rules::Scheme;
use scheme::outlines::about;
use scheme::refusal::{Refusal, Rule};

// The bytes that an output must have: for a bank, and for a text or a raw line.
pub const BANK_ROOM: usize = 64;

pub const TEXT_ROOM: usize = 160;

// The most words that a bank can have: five bits count them.
pub const MOST_WORDS: usize = 31;

// The first and the last of the numbers for which the screen shows the raw line.
const FIRST_SHOWN_RAW: u8 = Rule::Toggle as u8;

const LAST_SHOWN_RAW: u8 = Rule::String as u8;

// What an accepted call has written: so many bytes; and the W of the bank (document 02, C-15), the one that is written or the one that was read.
#[derive(Clone, Copy)]
pub struct Written {
    pub length: usize,
    pub words: usize,
}

// What a call gives: what it has written, or the rule that refuses ("Numbers given, and when") and its place (C-12): an offset in the text, an
// address in the bank, or for 9 the number of bytes lent.
pub type Answer = Result<Written, Refusal>;

// The W to write where so many words are asked for: the scheme's count for 0, and number 22 where they are too few.
fn words_for(asked: usize, s: Scheme) -> Result<usize, Refusal>
    ensures { result ≡ in_code (words_to_write asked s) }
{
    let least = about(s).words;
    if asked == 0 {
        return Ok(least);
    }
    if asked < least {
        return Err(Rule::TooFewWords.at(0));
    }
    Ok(asked)
}

// Text to bank in so many words, 0 for as few as the scheme needs: numbers 1, 21, 2 to 8 with 20, and 22. The bank is written from the output's
// start on.
pub fn text_to_bank(text: &[u8], words: usize, out: &mut [u8]) -> Answer
    ensures { answered result out.new ≡ text_to_bank words text.now out.old }
{
    if out.len() < BANK_ROOM {
        return Err(Rule::OutputTooShort.at(0));
    }
    if MOST_WORDS < words {
        return Err(Rule::TooManyWords.at(0));
    }
    let tag = text::reading::read(text)?;
    let words = words_for(words, tag.scheme)?;
    let length = bank::writing::write(tag, words, out);
    Ok(Written { length, words })
}

// Bank to text: numbers 1 and 9 to 19. The text is written from the output's start on; what stands behind word W is never looked at.
pub fn bank_to_text(bank: &[u8], out: &mut [u8]) -> Answer
    ensures { answered result out.new ≡ bank_to_text bank.now out.old }
{
    if out.len() < TEXT_ROOM {
        return Err(Rule::OutputTooShort.at(0));
    }
    let tag = bank::reading::read(bank)?;
    let length = text::writing::write(tag, out);
    Ok(Written {
        length,
        words: word_count(bank),
    })
}

// The raw line of a bank: numbers 1, 9 and 10.
pub fn raw_line(bank: &[u8], out: &mut [u8]) -> Answer
    ensures { answered result out.new ≡ raw_line bank.now out.old }
{
    if out.len() < TEXT_ROOM {
        return Err(Rule::OutputTooShort.at(0));
    }
    let words = fields::control::words(bank)?;
    let length = bank::raw::write(bank, words, out);
    Ok(Written { length, words })
}

// The line on the screen ("Screen"): all of the tag text for 0, all of the raw text for 11 to 19, the raw text's empty start for every
// other number. It is a part of that text, not a copy. The number is no `Rule`: a screen hands over any, and 0 is none.
pub fn screen<'a>(tag: &'a [u8], raw: &'a [u8], number: u8) -> &'a [u8]
    ensures shown { result.now ≡ screenOf tag.now raw.now number }
    ensures part { result.ref_ptr ≡ chosen number tag.entry.ref_ptr raw.entry.ref_ptr }
{
    match number {
        0 => tag,
        FIRST_SHOWN_RAW..=LAST_SHOWN_RAW => raw,
        _ => &raw[..0],
    }
}
