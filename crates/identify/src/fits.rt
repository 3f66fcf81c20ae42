// Whether what stands behind a filter, or behind a family's name, has the parts that a scheme's tags have, read from left to right.
ghost use Rattle.std.specs.Prelude.{◌≡◌, ◌≤◌};
ghost use Rattle.rules.specs.Schemes.{integer, string, last_form};
ghost use Rattle.rules.specs.Grammar.{part, end, reference, last};
ghost use Rattle.parts.specs.Parts.{form_of, Short};
ghost use Rattle.identify.specs.Words.{fitting, fits_in, behind_filter, Readable};

use parts::{Form, Rest, integer_to_end, numeric_to_end, part_at, reference_form};
use rules::{Body, Last, Table};
use scheme::refusal::Rule;
use scheme::rows;

// Whether a text is an integer of so many bits.
#[tactic(auto, using(crate::proofs::Pieces::end_fits))]
pub fn is_integer(x: &[u8], bits: usize) -> bool
    requires { bits ≤ 63 }
    ensures { result ≡ fitting (integer bits) x.now }
{
    integer_to_end(Rest::start(x), bits).is_ok()
}

// Whether it is a string of so many bits.
fn is_string(x: &[u8], bits: usize) -> bool
    ensures { result ≡ fitting (string bits) x.now }
{
    let Some(count) = alphabet::characters_in(x) else {
        return false;
    };
    count <= bits / 7
}

// Whether it is such a last part.
#[tactic(auto, using(crate::proofs::Pieces::end_fits))]
fn is_last(x: &[u8], l: Last) -> bool
    requires { Readable l }
    ensures { result ≡ fitting (last_form l) x.now }
{
    match l {
        Last::Integer(bits) => is_integer(x, bits),
        Last::String(bits) => is_string(x, bits),
        Last::Numeric(_, most) => numeric_to_end(Rest::start(x), most).is_ok(),
    }
}

// Whether a part stands before a dot, and such a last part behind it.
pub fn then(x: &[u8], form: Form, l: Last) -> bool
    requires { Short form × Readable l }
    ensures { result ≡ fits_in (part reference (form_of form) λ _. end last (last_form l)) x.now }
{
    let Ok(part) = part_at(Rest::start(x), form, Rule::Reference) else {
        return false;
    };
    is_last(&x[part.next..], l)
}

// Whether there are a prefix, a reference of its row's digits, and such a last part.
pub fn spelled(x: &[u8], t: Table, l: Last) -> bool
    requires { Readable l }
    ensures { result ≡ fits_in (behind_filter (Body.Then t l)) x.now }
{
    let Ok(prefix) = part_at(Rest::start(x), Form::Prefix, Rule::Prefix) else {
        return false;
    };
    let row = rows::by_digits(prefix.digits);
    let reference = reference_form(t, rows::reference(t, row).digits);
    then(&x[prefix.next..], reference, l)
}
