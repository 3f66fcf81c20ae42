// Tag texts that are turned to their identity without a record: those without control fields whose scheme has a string. A record keeps the
// characters of a string, and no identity needs them.
ghost use Rattle.std.specs.Prelude.{◌≡◌, true};
ghost use Rattle.rules.specs.Schemes.{about as aboutOf};
ghost use Rattle.identify.specs.Words.{string_in, may_have_string, is_filter, opened_in, way_in, direct_in};

use super::fits::spelled;
use digits::begins;
use parts::{Rest, name};
use rules::{Body, Last, Parts, Scheme, Table};
use scheme::outlines::about;

// How many characters `urn:epc:tag:` has, and a filter with its dot.
const START: usize = 12;

const FILTER: usize = 2;

// The table and the bits of a scheme whose last part is a string.
fn string_of(s: Scheme) -> Option<(Table, usize)>
    ensures { result ≡ string_in (aboutOf s).parts }
{
    match about(s).parts {
        Parts::F(Body::Then(t, Last::String(bits))) => Some((t, bits)),
        _ => None,
    }
}

// A look at the bytes where the name of a scheme with a string has the first of its bits' digits, as in `sgtin-198` and `sgln-195`. A text that
// is passed over goes by its record, so that most texts have their name read once.
fn may_have_string(text: &[u8]) -> bool
    ensures { result ≡ may_have_string text.now }
{
    if text.len() < 19 {
        return false;
    }
    let second = text[18];
    if text[17] == b'-' {
        return second == b'1';
    }
    text[17] == b'1' && second != b'1'
}

// Whether a text begins with a filter and its dot.
fn is_filter(text: &[u8]) -> bool
    ensures { result ≡ is_filter text.now }
{
    if text.len() < FILTER {
        return false;
    }
    if text[1] != b'.' {
        return false;
    }
    let filter = text[0];
    b'0' <= filter && filter <= b'7'
}

// The scheme of a tag text without control fields, and where the text goes on behind its filter. An index, as `body_at` gives one for a record:
// with the slice in the Option the contract would have to take its bytes out first.
fn opened(text: &[u8]) -> Option<(Scheme, usize)>
    ensures { result ≡ opened_in text.now }
{
    if !begins(text, b"urn:epc:tag:") {
        return None;
    }
    let named = name(Rest::start(text).behind(START))?;
    if is_filter(&text[named.next..]) {
        return Some((named.scheme, named.next + FILTER));
    }
    None
}

// The same, if its scheme has a string and what stands behind the filter is what that scheme holds.
fn held(text: &[u8]) -> Option<(Scheme, usize)>
    ensures { result ≡ way_in text.now }
{
    let (s, at) = opened(text)?;
    let (t, bits) = string_of(s)?;
    if spelled(&text[at..], t, Last::String(bits)) {
        return Some((s, at));
    }
    None
}

// The scheme of a tag text, and the index where its identity's parts begin; None for a text that goes by its record.
pub fn direct(text: &[u8]) -> Option<(Scheme, usize)>
    ensures { result ≡ direct_in text.now }
{
    if may_have_string(text) {
        return held(text);
    }
    None
}
