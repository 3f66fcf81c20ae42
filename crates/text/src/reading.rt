// A text to the record of its tag, read left to right (document 01, "Numbers given, and when": 2 to 8; document 02, C-13: 20), with the
// place of a refusal: each reader says where it began (C-12).
ghost use Rattle.std.specs.Prelude.{◌≡◌, ◌≤◌};
ghost use Rattle.rules.specs.Schemes.{digits, integer, string, numeric, row_of, cell, about as aboutOf};
ghost use Rattle.rules.specs.Grammar.{reference as referenceRole, last, end, body_layout, layout, start};
ghost use Rattle.rules.specs.TextNumbers.{after, parts_in, named_tag, tag_of_text};
ghost use Rattle.scheme.specs.Outlines.{Narrow};
ghost use Rattle.scheme.specs.Records.{reading_of};
ghost use Rattle.digits.specs.Starts.{begun};
ghost use Rattle.parts.specs.Parts.{form_of, Short};
ghost use Rattle.text.specs.Reading.{referred, with_last, reference_alone, asset_alone, behind_prefix, read_as, controlled, parts_of};

use parts::{
    Form, Rest, control_at, digits_to_end, integer_to_end, name, numeric_to_end, part_at,
    reference_form,
};
use rules::{Body, ControlFields, Last, MOST_CHARACTERS, Parts, Scheme, Table};
use scheme::outlines::about;
use scheme::record::{Reading, Record};
use scheme::refusal::Rule;
use scheme::rows;

// How many characters `urn:epc:tag:` has.
const START: usize = 12;

// Whether a text begins with `urn:epc:tag:`.
fn begins(text: &[u8]) -> bool
    ensures { result ≡ begun (after start text.now) }
{
    digits::begins(text, b"urn:epc:tag:")
}

// What stands before the reference. For gid-96 `prefix` is its first integer, and `filter` and `digits` are 0.
#[derive(Clone, Copy)]
struct Head {
    scheme: Scheme,
    control: ControlFields,
    filter: u64,
    prefix: u64,
    digits: usize,
}

impl Head {
    ghost use Rattle.text.specs.Reading.{tagged_with};

    // The record of a head, a reference and a last part: its number, or its characters; `count` says how many of these, or how many digits of a
    // numeric string.
    fn tagged(
        self,
        reference: u64,
        serial: u64,
        characters: [u8; MOST_CHARACTERS],
        count: usize,
    ) -> Record
        ensures { result ≡ tagged_with self reference serial characters count }
    {
        Record {
            scheme: self.scheme,
            control: self.control,
            filter: self.filter,
            prefix: self.prefix,
            digits: self.digits,
            reference,
            serial,
            characters,
            count,
        }
    }
}

// The characters of a last part that is no string.
const NO_CHARACTERS: [u8; MOST_CHARACTERS] = [0; MOST_CHARACTERS];

// A reference, then an integer.
fn with_integer(rest: Rest<'_>, head: Head, reference: Form, bits: usize) -> Reading
    requires { Short reference × (bits ≤ 63) }
    ensures { result ≡ with_last head (Last.Integer bits) (parts_of rest.entry (referred (form_of reference) (integer bits))) }
{
    let part = part_at(rest, reference, Rule::Reference)?;
    let serial = integer_to_end(rest.behind(part.next), bits)?;
    Ok(head.tagged(part.value, serial, NO_CHARACTERS, 0))
}

// A reference, then a string.
fn with_string(rest: Rest<'_>, head: Head, reference: Form, bits: usize) -> Reading
    requires { Short reference }
    ensures { result ≡ with_last head (Last.String bits) (parts_of rest.entry (referred (form_of reference) (string bits))) }
{
    let part = part_at(rest, reference, Rule::Reference)?;
    let Some(s) = alphabet::read(&rest.text[part.next..]) else {
        return Err(Rule::LastPartForm.at(part.next));
    };
    if bits / 7 < s.count {
        return Err(Rule::LastPartSize.at(part.next));
    }
    Ok(head.tagged(part.value, 0, s.characters, s.count))
}

// A reference, then a numeric string of at most so many digits. It has as many as the rest of the text has bytes.
fn with_numeric(rest: Rest<'_>, head: Head, reference: Form, most: usize) -> Reading
    requires { Short reference × (most ≤ 19) }
    ensures { result ≡ with_last head (Last.Numeric 0 most) (parts_of rest.entry (referred (form_of reference) (numeric 0 most))) }
{
    let part = part_at(rest, reference, Rule::Reference)?;
    let serial = numeric_to_end(rest.behind(part.next), most)?;
    Ok(head.tagged(
        part.value,
        serial,
        NO_CHARACTERS,
        rest.text.len() - part.next,
    ))
}

// A reference of so many digits, to the end of the text.
fn reference_alone(rest: Rest<'_>, head: Head, reference: usize) -> Reading
    requires { reference ≤ 19 }
    ensures { result ≡ reference_alone head (parts_of rest.entry (end referenceRole (digits 0 reference))) }
{
    let value = digits_to_end(rest, reference)?;
    Ok(head.tagged(value, 0, NO_CHARACTERS, 0))
}

// The reference of table E, an integer, to the end of the text.
fn asset_alone(rest: Rest<'_>, head: Head, bits: usize) -> Reading
    requires { bits ≤ 63 }
    ensures { result ≡ asset_alone head (parts_of rest.entry (end last (integer bits))) }
{
    let serial = integer_to_end(rest, bits)?;
    Ok(head.tagged(0, serial, NO_CHARACTERS, 0))
}

// The digits of the reference in the row that the prefix picks.
fn reference_digits(t: Table, prefix: usize) -> usize
    requires { (6 ≤ prefix) × (prefix ≤ 12) }
    ensures value { result ≡ (cell t (row_of prefix)).1 }
    ensures upper_bound { result ≤ 19 }
{
    rows::reference(t, rows::by_digits(prefix)).digits
}

// What follows the company prefix.
fn behind_prefix(rest: Rest<'_>, head: Head, body: Body) -> Reading
    requires { Narrow (Parts.F body) × (6 ≤ head.digits) × (head.digits ≤ 12) }
    ensures { result ≡ behind_prefix head body (parts_of rest.entry (body_layout body head.digits)) }
{
    let digits = head.digits;
    match body {
        Body::Then(t, l) => {
            let reference = reference_form(t, reference_digits(t, digits));
            match l {
                Last::Integer(bits) => with_integer(rest, head, reference, bits),
                Last::String(bits) => with_string(rest, head, reference, bits),
                Last::Numeric(_, most) => with_numeric(rest, head, reference, most),
            }
        }
        Body::Zeros(t, _) => reference_alone(rest, head, reference_digits(t, digits)),
        Body::E => asset_alone(rest, head, rows::asset(rows::by_digits(digits))),
    }
}

// gid-96: three integers.
fn general(
    rest: Rest<'_>,
    control: ControlFields,
    s: Scheme,
    a: usize,
    b: usize,
    c: usize,
) -> Reading
    requires { (aboutOf s).parts ≡ Parts.Integers a b c }
    ensures { result ≡ read_as control s (parts_of rest.entry (layout s)) }
{
    let part = part_at(rest, Form::Integer(a), Rule::Prefix)?;
    let head = Head {
        scheme: s,
        control,
        filter: 0,
        prefix: part.value,
        digits: 0,
    };
    with_integer(rest.behind(part.next), head, Form::Integer(b), c)
}

// The other schemes: the filter, the company prefix, and what follows it.
fn partitioned(rest: Rest<'_>, control: ControlFields, s: Scheme, body: Body) -> Reading
    requires { (aboutOf s).parts ≡ Parts.F body }
    ensures { result ≡ read_as control s (parts_of rest.entry (layout s)) }
{
    let filter = part_at(rest, Form::Integer(3), Rule::Filter)?;
    let prefix = part_at(rest.behind(filter.next), Form::Prefix, Rule::Prefix)?;
    let head = Head {
        scheme: s,
        control,
        filter: filter.value,
        prefix: prefix.value,
        digits: prefix.digits,
    };
    behind_prefix(rest.behind(prefix.next), head, body)
}

// The parts of a scheme.
fn parts_at(rest: Rest<'_>, control: ControlFields, s: Scheme) -> Reading
    ensures { result ≡ read_as control s (parts_of rest.entry (layout s)) }
{
    match about(s).parts {
        Parts::Integers(a, b, c) => general(rest, control, s, a, b, c),
        Parts::F(body) => partitioned(rest, control, s, body),
    }
}

// What follows the control fields: a scheme's name, and its parts.
fn named_at(rest: Rest<'_>, control: ControlFields) -> Reading
    ensures { result ≡ reading_of (named_tag (controlled control rest.entry)) }
{
    let Some(named) = name(rest) else {
        return Err(Rule::Name.at(rest.at));
    };
    parts_at(rest.behind(named.next), control, named.scheme)
}

// A text: its start, its control fields, its scheme's name, and its parts.
pub fn read(text: &[u8]) -> Reading
    ensures { result ≡ reading_of (tag_of_text text.now) }
{
    if !begins(text) {
        return Err(Rule::Start.at(0));
    }
    let rest = Rest::start(text).behind(START);
    // a `match`, not `?`: the rule is named here, where `twenty_after_three` (must-fail) takes another
    match control_at(rest) {
        Ok(fields) => named_at(rest.behind(fields.next), fields.control),
        Err(wrong) => Err(Rule::ControlFields.at(wrong.place)),
    }
}
