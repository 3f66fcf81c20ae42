// The public calls for other languages (include/tagcodec.h): the codec's four, and the two of pure identity. A lent slice is a pointer and a
// length, an answer four numbers. No call has a condition; what C itself owes of a pointer stands in the header.
#![tactic(auto)]

ghost use Rattle.std.specs.Prelude.{◌≡◌};
ghost use Rattle.rules.specs.Calls.{text_to_bank, bank_to_text, raw_line};
ghost use Rattle.identities.specs.Calls.{tag_to_identity, identity_to_tag};
ghost use Rattle.codec.specs.Answers.{number_of, place_of, words_of, length_of};
ghost use Rattle.capi.specs.Replies.{Narrow, replied, Shows};

use codec::Answer;

// What a call gives: document 01's number, its place, the W of the bank, and the length written. Number, place and W share a word, so that a
// reply is returned in two registers.
#[repr(C)]
#[derive(Drop)]
pub struct Reply {
    pub number: u32,
    pub place: u16,
    pub words: u16,
    pub length: usize,
}

// The two texts that a line on the screen can be a part of: numbers, as C reads them.
const TAG_TEXT: u32 = 0;

const RAW_TEXT: u32 = 1;

// The line on the screen: the first `length` bytes of the text that `text` names.
#[repr(C)]
#[derive(Drop)]
pub struct Shown {
    pub text: u32,
    pub length: usize,
}

// An answer in numbers. `From` has no `requires`, and 16 bits hold a place and a W of the calls alone.
fn in_numbers(answer: Answer) -> Reply
    requires { Narrow (place_of answer) (words_of answer) }
    ensures number { result.number ≡ number_of answer }
    ensures place { result.place ≡ place_of answer }
    ensures words { result.words ≡ words_of answer }
    ensures length { result.length ≡ length_of answer }
{
    match answer {
        Ok(written) => Reply {
            number: 0,
            place: 0,
            words: written.words as u16,
            length: written.length,
        },
        Err(refusal) => Reply {
            number: refusal.rule.number() as u32,
            place: refusal.place as u16,
            words: 0,
            length: 0,
        },
    }
}

// Text to bank in so many words, 0 for as few as the scheme needs: numbers 1, 21, 2 to 8 with 20, and 22.
#[unsafe(no_mangle)]
pub extern "C" fn tagcodec_text_to_bank(text: &[u8], words: u32, out: &mut [u8]) -> Reply
    ensures { replied result out.new ≡ text_to_bank words text.now out.old }
{
    in_numbers(codec::text_to_bank(text, words as usize, out))
}

// Bank to text: numbers 1 and 9 to 19.
#[unsafe(no_mangle)]
pub extern "C" fn tagcodec_bank_to_text(bank: &[u8], out: &mut [u8]) -> Reply
    ensures { replied result out.new ≡ bank_to_text bank.now out.old }
{
    in_numbers(codec::bank_to_text(bank, out))
}

// The raw line of a bank: numbers 1, 9 and 10.
#[unsafe(no_mangle)]
pub extern "C" fn tagcodec_raw_line(bank: &[u8], out: &mut [u8]) -> Reply
    ensures { replied result out.new ≡ raw_line bank.now out.old }
{
    in_numbers(codec::raw_line(bank, out))
}

// A tag text to the text of its pure identity: numbers 1, 2 to 8 and 20. W is 0.
#[unsafe(no_mangle)]
pub extern "C" fn tagcodec_tag_to_identity(text: &[u8], out: &mut [u8]) -> Reply
    ensures { replied result out.new ≡ tag_to_identity text.now out.old }
{
    in_numbers(identify::tag_to_identity(text, out))
}

// The text of a pure identity and a filter to a tag text: numbers 1 and 23 to 25. W is 0.
#[unsafe(no_mangle)]
pub extern "C" fn tagcodec_identity_to_tag(text: &[u8], filter: u32, out: &mut [u8]) -> Reply
    ensures { replied result out.new ≡ identity_to_tag filter text.now out.old }
{
    in_numbers(identify::identity_to_tag(text, filter, out))
}

// The line on the screen. An exported function returns no pointer, so the answer names the text. Any number may come in: above 255 it
// shows nothing, as every number above 19 does.
#[unsafe(no_mangle)]
pub extern "C" fn tagcodec_screen<'a>(tag: &'a [u8], raw: &'a [u8], number: u32) -> Shown
    ensures { Shows tag.now raw.now number result }
{
    if 255 < number {
        return Shown {
            text: RAW_TEXT,
            length: 0,
        };
    }
    let line = codec::screen(tag, raw, number as u8);
    if number == 0 {
        return Shown {
            text: TAG_TEXT,
            length: line.len(),
        };
    }
    Shown {
        text: RAW_TEXT,
        length: line.len(),
    }
}
