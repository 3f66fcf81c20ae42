// identity's reply to one line (document 02, C-16): to a tag text, to a filter and an identity text, or to neither. Each function writes it at
// the output's start and answers its length.
ghost use Rattle.std.specs.Prelude.{◌≡◌, ◌+◌, ◌≤◌, length};
ghost use Rattle.rules.specs.TextNumbers.{tag_of_text};
ghost use Rattle.identities.specs.Numbers.{tag_of_identity};
ghost use Rattle.codec.specs.Answers.{length_of};
ghost use Rattle.replies.specs.Identities.{with_letter, of_tag, of_identity, has_filter, filter_reply, identity_reply};
ghost use Rattle.replies.specs.Writing.{Wrote, reply_room};

use super::choice::MOST_CHARACTERS;
use super::letters::{AFTER_LETTER, put_letter, put_neither, put_number};
use codec::Answer;

// So many bytes stand before an identity text: the filter's digit and a space.
const AFTER_FILTER: usize = 2;

// A letter and the text that a call has written behind its place, or `N` and the number that refused it.
fn shown(letter: u8, answer: Answer, out: &mut [u8]) -> usize
    requires { (5 ≤ length out.old) × (2 + length_of answer ≤ length out.old) }
    ensures { Wrote (with_letter letter answer out.old) out.old result out.new }
{
    match answer {
        Ok(written) => put_letter(letter, written.length, out),
        Err(refusal) => put_number(b'N', refusal.rule.number(), out),
    }
}

// The reply to a line that begins `urn:epc:tag:`.
fn tag_reply(line: &[u8], out: &mut [u8]) -> usize
    requires { reply_room ≤ length out.old }
    ensures { Wrote (of_tag (tag_of_text line.now)) out.old result out.new }
{
    let answer = identify::tag_to_identity(line, &mut out[AFTER_LETTER..]);
    shown(b'I', answer, out)
}

// The reply to a filter and an identity text.
fn identity_reply(text: &[u8], filter: u32, out: &mut [u8]) -> usize
    requires { reply_room ≤ length out.old }
    ensures { Wrote (of_identity (tag_of_identity filter text.now)) out.old result out.new }
{
    let answer = identify::identity_to_tag(text, filter, &mut out[AFTER_LETTER..]);
    shown(b'T', answer, out)
}

// Whether a line is one digit, a space, and a text that begins `urn:epc:id:`.
fn has_filter(line: &[u8]) -> bool
    ensures { result ≡ has_filter line.now }
{
    if line.len() < AFTER_FILTER {
        return false;
    }
    if !digits::is_digit(line[0]) {
        return false;
    }
    if line[1] != b' ' {
        return false;
    }
    digits::begins(&line[AFTER_FILTER..], b"urn:epc:id:")
}

// The reply to a line that does not begin `urn:epc:tag:`.
fn filter_reply(line: &[u8], out: &mut [u8]) -> usize
    requires { reply_room ≤ length out.old }
    ensures { Wrote (filter_reply line.now) out.old result out.new }
{
    if !has_filter(line) {
        return put_neither(out);
    }
    let filter = (line[0] - b'0') as u32;
    identity_reply(&line[AFTER_FILTER..], filter, out)
}

// The reply to any line, without a line feed.
pub fn write(line: &[u8], out: &mut [u8]) -> usize
    requires { reply_room ≤ length out.old }
    ensures { Wrote (identity_reply line.now) out.old result out.new }
{
    if MOST_CHARACTERS < line.len() {
        return put_neither(out);
    }
    if digits::begins(line, b"urn:epc:tag:") {
        return tag_reply(line, out);
    }
    filter_reply(line, out)
}
