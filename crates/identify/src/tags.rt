// The tag text of an identity: where the identity's parts stand in it, and how it is made of them.
ghost use Rattle.std.specs.Prelude.{◌≡◌, ◌+◌, ◌≤◌, length};
ghost use Rattle.rules.specs.Schemes.{about as aboutOf};
ghost use Rattle.rules.specs.ControlFields.{control_text, ControlFits};
ghost use Rattle.digits.specs.Pieces.{Puts, Room, Adds};
ghost use Rattle.identities.specs.Numbers.{filter_text, tag_text};
ghost use Rattle.identify.specs.Words.{body_at};

use digits::Output;
use rules::{ControlFields, Parts, Scheme};
use scheme::outlines::about;
use text::writing::label;

// How many characters `urn:epc:tag:` has.
const START: usize = 12;

// How many characters control fields have, with the colon behind the last.
fn control_length(control: ControlFields) -> usize
    requires { ControlFits control }
    ensures { result ≡ length (control_text control) }
{
    match (control.umi, control.att) {
        (0, 0) => 0,
        (0, _) => 10,
        (_, 0) => 8,
        (_, _) => 17,
    }
}

// How many characters the filter and its dot have.
fn filter_length(s: Scheme) -> usize
    ensures { result ≡ length (filter_text (aboutOf s).parts 0) }
{
    match about(s).parts {
        Parts::F(_) => 2,
        Parts::Integers(..) => 0,
    }
}

// Where the identity's parts begin in a tag text: behind the control fields, the scheme's name and the filter.
pub fn body_at(control: ControlFields, s: Scheme) -> usize
    requires { ControlFits control }
    ensures { result ≡ body_at control s }
{
    START + control_length(control) + label(s).len() + filter_length(s)
}

// The filter and its dot, if the scheme has one.
#[tactic(auto, using(digits::proofs::Joins::nothing))]
fn put_filter(w: &mut Output<'_>, s: Scheme, filter: u32)
    requires { (filter ≤ 7) × Room w.old 2 }
    ensures { Adds w.old (filter_text (aboutOf s).parts filter) w.new }
{
    match about(s).parts {
        Parts::F(_) => w.put(&[b'0' + filter as u8, b'.']),
        Parts::Integers(..) => {}
    }
}

// Writes the text of a scheme's tag with a filter and the parts of an identity from the output's start on, and returns its length.
pub fn put_text(out: &mut [u8], body: &[u8], s: Scheme, filter: u32) -> usize
    requires { (filter ≤ 7) × (24 + length body.now ≤ length out.old) }
    ensures { Puts (tag_text filter body.now s) 0 out.old result out.new }
{
    let mut w = Output::new(out);
    w.put(b"urn:epc:tag:");
    w.put(label(s));
    put_filter(&mut w, s, filter);
    w.put(body);
    w.at
}
