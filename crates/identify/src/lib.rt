// The two calls of document 02, C-16: a tag text to the text of its pure identity, and an identity with a filter to a tag text. Any text and any
// filter may come in: none has a condition, and each fixes its answer and every byte of the lent output. All is read before anything is
// written. W plays no part, and is 0 in every answer.
#![tactic(auto)]

mod counted;
mod direct;
mod families;
mod fits;
mod form;
mod judge;
mod tags;

ghost use Rattle.std.specs.Prelude.{◌≡◌, ◌≤◌, ◌++◌, length, drop};
ghost use Rattle.digits.specs.Pieces.{Puts};
ghost use Rattle.rules.specs.Calls.{text_room};
ghost use Rattle.codec.specs.Answers.{answered};
ghost use Rattle.identities.specs.Calls.{tag_to_identity, identity_to_tag};
ghost use Rattle.identify.specs.Words.{of_family, start_of};

use codec::{Answer, TEXT_ROOM, Written};
use counted::Fault;
use digits::Output;
use direct::direct;
use identities::Family;
use rules::Scheme;
use scheme::refusal::Rule;

// Writes the identity of a scheme's tag whose text has these parts behind its filter, and returns its length.
fn put_identity(out: &mut [u8], parts: &[u8], s: Scheme) -> usize
    requires { (length parts.now ≤ 116) × (text_room ≤ length out.old) }
    ensures { Puts (start_of s ++ parts.now) 0 out.old result out.new }
{
    let mut w = Output::new(out);
    families::put_start(&mut w, families::family_of(s));
    w.put(parts);
    w.at
}

// Any tag text, by its record: the numbers of the text, 2 to 8 with 20.
fn by_record(text: &[u8], out: &mut [u8]) -> Answer
    requires { text_room ≤ length out.old }
    ensures { answered result out.new ≡ tag_to_identity text.now out.old }
{
    let tag = text::reading::read(text)?;
    let at = tags::body_at(tag.control, tag.scheme);
    let length = put_identity(out, &text[at..], tag.scheme);
    Ok(Written { length, words: 0 })
}

// A tag text to the text of its identity: number 1, then those of the text. Control fields and filter are dropped; what stands behind them is
// copied.
pub fn tag_to_identity(text: &[u8], out: &mut [u8]) -> Answer
    ensures { answered result out.new ≡ tag_to_identity text.now out.old }
{
    if out.len() < TEXT_ROOM {
        return Err(Rule::OutputTooShort.at(0));
    }
    let Some((s, at)) = direct(text) else {
        return by_record(text, out);
    };
    let length = put_identity(out, &text[at..], s);
    Ok(Written { length, words: 0 })
}

// What follows a family's name, and a filter, to a tag text: 23 by the verdict, 24, then 25 or the text.
fn of_family(body: &[u8], family: Family, filter: u32, out: &mut [u8]) -> Answer
    requires { text_room ≤ length out.old }
    ensures { answered result out.new ≡ of_family family filter body.now out.old }
{
    let refused = match judge::judge(body, family) {
        Err(Fault::WrongText) => Rule::NotAnIdentity,
        _ if families::most_filter(family) < filter => Rule::FilterTooLarge,
        Err(Fault::Unheld) => Rule::NoScheme,
        Ok(s) => {
            let length = tags::put_text(out, body, s, filter);
            return Ok(Written { length, words: 0 });
        }
    };
    Err(refused.at(0))
}

// An identity and a filter to a tag text: numbers 1, 23, 24 and 25. The scheme is the 96-bit one if it holds the identity, else the long one.
pub fn identity_to_tag(text: &[u8], filter: u32, out: &mut [u8]) -> Answer
    ensures { answered result out.new ≡ identity_to_tag filter text.now out.old }
{
    if out.len() < TEXT_ROOM {
        return Err(Rule::OutputTooShort.at(0));
    }
    let Some((family, at)) = families::family_in(text) else {
        return Err(Rule::NotAnIdentity.at(0));
    };
    of_family(&text[at..], family, filter, out)
}
