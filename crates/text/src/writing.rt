// The record of a tag to its text (document 01, "The text of a tag"; document 02, C-13). Each `put_` function adds a piece of it to what
// the output holds.
ghost use Rattle.std.specs.Prelude.{◌≡◌, ◌++◌, ◌+◌, ◌≤◌, length};
ghost use Rattle.rules.specs.Schemes.{cell, row_of, about as aboutOf};
ghost use Rattle.rules.specs.ControlFields.{control_text, ControlFits};
ghost use Rattle.rules.specs.Grammar.{start, label, text_of};
ghost use Rattle.scheme.specs.Records.{HasTag, Writes};
ghost use Rattle.digits.specs.Pieces.{Room, Adds};
ghost use Rattle.rules.specs.Calls.{text_room};
ghost use Rattle.text.specs.Writing.{Company, Held, HeldBehind, integer_text, number_text, company_text, reference_text, last_text, body_text, integers_text, parts_text};

use super::control::put_control;
use digits::Output;
use rules::{Body, ControlFields, Last, Parts, Scheme, Table};
use scheme::outlines::about;
use scheme::record::Record;
use scheme::rows;

// A scheme's name and the colon: 10 bytes at most.
pub fn label(s: Scheme) -> &'static [u8]
    ensures { result.now ≡ label s }
{
    match s {
        Scheme::Sgtin96 => b"sgtin-96:",
        Scheme::Sgtin198 => b"sgtin-198:",
        Scheme::Sscc96 => b"sscc-96:",
        Scheme::Sgln96 => b"sgln-96:",
        Scheme::Sgln195 => b"sgln-195:",
        Scheme::Grai96 => b"grai-96:",
        Scheme::Grai170 => b"grai-170:",
        Scheme::Giai96 => b"giai-96:",
        Scheme::Gsrn96 => b"gsrn-96:",
        Scheme::Gsrnp96 => b"gsrnp-96:",
        Scheme::Gdti96 => b"gdti-96:",
        Scheme::Gdti174 => b"gdti-174:",
        Scheme::Gid96 => b"gid-96:",
        Scheme::Gdti113 => b"gdti-113:",
        Scheme::Sgcn96 => b"sgcn-96:",
        Scheme::Cpi96 => b"cpi-96:",
    }
}

// What stands before the parts: `urn:epc:tag:`, at most 17 bytes of control fields, and the 10 of the longest name.
fn put_start(w: &mut Output<'_>, control: ControlFields, s: Scheme)
    requires { ControlFits control × Room w.old 39 }
    ensures adds { Adds w.old (start ++ (control_text control ++ label s)) w.new }
    ensures upper_bound { w.new.at ≤ w.old.at + 39 }
{
    w.put(b"urn:epc:tag:");
    put_control(w, control);
    w.put(label(s))
}

// The filter and the company prefix, each with its dot: one digit, 12 at most, and two dots.
fn put_company(w: &mut Output<'_>, tag: Record)
    requires { Company tag × Room w.old 15 }
    ensures adds { Adds w.old (company_text tag) w.new }
    ensures upper_bound { w.new.at ≤ w.old.at + 15 }
{
    w.byte(b'0' + tag.filter as u8);
    w.byte(b'.');
    w.digits(tag.digits, tag.prefix);
    w.byte(b'.')
}

// An integer: a word has at most 20 digits.
fn put_integer(w: &mut Output<'_>, v: u64)
    requires { Room w.old 20 }
    ensures adds { Adds w.old (integer_text v) w.new }
    ensures upper_bound { w.new.at ≤ w.old.at + 20 }
{
    w.decimal(v)
}

// The reference with exactly the digits of the row that the company prefix picks: 11 at most.
fn put_row(w: &mut Output<'_>, table: Table, tag: Record)
    requires { Company tag × Room w.old 11 }
    ensures adds { Adds w.old (number_text (cell table (row_of tag.digits)).1 tag.reference) w.new }
    ensures upper_bound { w.new.at ≤ w.old.at + 11 }
{
    let cell = rows::reference(table, rows::by_digits(tag.digits));
    w.digits(cell.digits, tag.reference)
}

// The reference of a table: the row's digits, or an integer in cpi-96's table.
fn put_reference(w: &mut Output<'_>, table: Table, tag: Record)
    requires { Company tag × Room w.old 20 }
    ensures adds { Adds w.old (reference_text table tag) w.new }
    ensures upper_bound { w.new.at ≤ w.old.at + 20 }
{
    if rows::exact(table) {
        return put_row(w, table, tag);
    }
    put_integer(w, tag.reference)
}

// gid-96's three integers and the two dots between them.
fn put_integers(w: &mut Output<'_>, tag: Record)
    requires { Room w.old 62 }
    ensures { Adds w.old (integers_text tag) w.new }
{
    put_integer(w, tag.prefix);
    w.byte(b'.');
    put_integer(w, tag.reference);
    w.byte(b'.');
    put_integer(w, tag.serial)
}

// The last part behind a reference: an integer, the characters of a string, of which 20 escapes are the longest, 60 bytes, or the digits
// of a numeric string, as many as the record says.
fn put_last(w: &mut Output<'_>, last: Last, tag: Record)
    requires { Held last tag × Room w.old 60 }
    ensures { Adds w.old (last_text last tag) w.new }
{
    match last {
        Last::Integer(_) => put_integer(w, tag.serial),
        Last::String(_) => alphabet::write(&tag.characters[..tag.count], w),
        Last::Numeric(_, _) => w.digits(tag.count, tag.serial),
    }
}

// The filter, the company prefix, and what follows it: 15 bytes, 20, a dot and 60 at most.
fn put_body(w: &mut Output<'_>, body: Body, tag: Record)
    requires { Company tag × HeldBehind body tag × Room w.old 96 }
    ensures { Adds w.old (body_text body tag) w.new }
{
    put_company(w, tag);
    match body {
        Body::Then(table, last) => {
            put_reference(w, table, tag);
            w.byte(b'.');
            put_last(w, last, tag)
        }
        Body::Zeros(table, _) => put_reference(w, table, tag),
        Body::E => put_integer(w, tag.serial),
    }
}

// The parts of the tag's scheme.
fn put_parts(w: &mut Output<'_>, tag: Record)
    requires { HasTag tag × Room w.old 96 }
    ensures { Adds w.old (parts_text (aboutOf tag.scheme).parts tag) w.new }
{
    match about(tag.scheme).parts {
        Parts::F(body) => put_body(w, body, tag),
        Parts::Integers(_, _, _) => put_integers(w, tag),
    }
}

// Writes the text of the tag from the output's start on, and returns its length.
pub fn write(tag: Record, out: &mut [u8]) -> usize
    requires text_room_in_bounds { text_room ≤ length out.old }
    requires has_tag { HasTag tag }
    ensures { Writes text_of tag out.old result out.new }
{
    let mut w = Output::new(out);
    put_start(&mut w, tag.control, tag.scheme);
    put_parts(&mut w, tag);
    w.at
}
