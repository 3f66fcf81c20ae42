// The numeric parts of a text: up to the next dot, or to the end (document 01, "Numbers given, and when": 4 to 8; document 02, C-11).
ghost use Rattle.std.specs.Prelude.{◌≡◌, ◌≤◌};
ghost use Rattle.rules.specs.Bytes.{all};
ghost use Rattle.rules.specs.Schemes.{counted, digits, integer, numeric};
ghost use Rattle.rules.specs.TextNumbers.{is_digit, part_in, last_in};
ghost use Rattle.scheme.specs.Refusals.{number};
ghost use Rattle.parts.specs.Parts.{form_of, Short, plainly, fitting, found_of, end_of, longer_of, shorter_of};
ghost use Rattle.parts.specs.Rests.{left};

use crate::rest::Rest;
use digits::{all_digits, leading_digits};
use rules::Table;
use scheme::refusal::{Refusal, Rule};

// How a part is written: as a company prefix, with exactly so many digits, as an integer of so many bits, or as an integer of at most so
// many digits.
#[derive(Clone, Copy)]
pub enum Form {
    Prefix,
    Digits(usize),
    Integer(usize),
    AtMost(usize),
}

// How a reference of n digits is written: with exactly so many, or as an integer of at most so many in cpi-96's table.
pub fn reference_form(t: Table, n: usize) -> Form
    requires { n ≤ 19 }
    ensures result_value { form_of result ≡ counted t 0 n }
    ensures short { Short result }
{
    if scheme::rows::exact(t) {
        Form::Digits(n)
    } else {
        Form::AtMost(n)
    }
}

// A part that stands before a dot: its value, how many digits it has, and where the text goes on behind the dot.
#[derive(Clone, Copy)]
pub struct Part {
    pub value: u64,
    pub digits: usize,
    pub next: usize,
}

// Whether n digits are an integer as it is written: `0`, or no leading zero. `zero` says whether the first digit is 0.
fn is_plain(n: usize, zero: bool) -> bool
    ensures { result ≡ plainly n zero }
{
    n == 1 || 1 < n && !zero
}

// Whether n digits are such an integer, with a value below 2 to the power of its bits.
fn is_integer(n: usize, zero: bool, value: u64, bits: usize) -> bool
    requires { bits ≤ 63 }
    ensures { result ≡ fitting (integer bits) n zero value }
{
    is_plain(n, zero) && value >> bits == 0
}

// Whether n digits are a part of this form: the right number of digits, no leading zero, not too large.
fn fits(form: Form, n: usize, zero: bool, value: u64) -> bool
    requires { Short form }
    ensures { result ≡ fitting (form_of form) n zero value }
{
    match form {
        Form::Prefix => 6 <= n && n <= 12,
        Form::Digits(k) => n == k,
        Form::Integer(bits) => is_integer(n, zero, value, bits),
        Form::AtMost(k) => n <= k && is_plain(n, zero),
    }
}

// The part up to the next dot, or its refusal by this rule.
pub fn part_at(rest: Rest<'_>, form: Form, rule: Rule) -> Result<Part, Refusal>
    requires { Short form }
    ensures { result ≡ found_of rest.entry.at (part_in (number rule) rest.entry.at (form_of form) (left rest.entry)) }
{
    let run = leading_digits(&rest.text[rest.at..]);
    let end = rest.at + run.length;
    if rest.text.len() <= end || rest.text[end] != b'.' {
        return Err(rule.at(rest.at));
    }
    if fits(form, run.length, rest.text[rest.at] == b'0', run.value) {
        return Ok(Part {
            value: run.value,
            digits: run.length,
            next: end + 1,
        });
    }
    Err(rule.at(rest.at))
}

// The rest of the text, as exactly n digits: table B's reference.
pub fn digits_to_end(rest: Rest<'_>, n: usize) -> Result<u64, Refusal>
    requires { n ≤ 19 }
    ensures { result ≡ end_of (last_in 6 rest.entry.at (digits 0 n) (left rest.entry)) }
{
    let run = leading_digits(&rest.text[rest.at..]);
    let end = rest.at + run.length;
    if end < rest.text.len() || run.length != n {
        return Err(Rule::Reference.at(rest.at));
    }
    Ok(run.value)
}

// The rule that a part of more than nineteen digits breaks, of which the rest is still to be read; `zero` says whether a zero stands where
// none may. The part is too large, unless its form is wrong.
fn longer(rest: Rest<'_>, zero: bool) -> Rule
    ensures { result ≡ longer_of (all is_digit (left rest.entry)) zero }
{
    if all_digits(&rest.text[rest.at..]) && !zero {
        Rule::LastPartSize
    } else {
        Rule::LastPartForm
    }
}

// An integer of n digits, at most nineteen, which begins at `at`. `zero` says whether its first digit is 0.
fn shorter(at: usize, n: usize, zero: bool, value: u64, bits: usize) -> Result<u64, Refusal>
    requires { bits ≤ 63 }
    ensures { result ≡ shorter_of at bits n zero value }
{
    if !is_plain(n, zero) {
        return Err(Rule::LastPartForm.at(at));
    }
    if value >> bits != 0 {
        return Err(Rule::LastPartSize.at(at));
    }
    Ok(value)
}

// The rest of the text, as an integer. Its whole form is judged before its size.
pub fn integer_to_end(rest: Rest<'_>, bits: usize) -> Result<u64, Refusal>
    requires { bits ≤ 63 }
    ensures { result ≡ end_of (last_in 7 rest.entry.at (integer bits) (left rest.entry)) }
{
    let run = leading_digits(&rest.text[rest.at..]);
    let end = rest.at + run.length;
    if run.length == 0 {
        return Err(Rule::LastPartForm.at(rest.at));
    }
    let zero = rest.text[rest.at] == b'0';
    if end < rest.text.len() {
        return Err(longer(rest.behind(end), zero).at(rest.at));
    }
    shorter(rest.at, run.length, zero, run.value, bits)
}

// The rest of the text, as a numeric string of at most `most` digits; zeros may lead. Its whole form is judged before
// its size.
pub fn numeric_to_end(rest: Rest<'_>, most: usize) -> Result<u64, Refusal>
    requires { most ≤ 19 }
    ensures { result ≡ end_of (last_in 7 rest.entry.at (numeric 0 most) (left rest.entry)) }
{
    let run = leading_digits(&rest.text[rest.at..]);
    let end = rest.at + run.length;
    if end < rest.text.len() {
        return Err(longer(rest.behind(end), false).at(rest.at));
    }
    if run.length == 0 {
        return Err(Rule::LastPartForm.at(rest.at));
    }
    if most < run.length {
        return Err(Rule::LastPartSize.at(rest.at));
    }
    Ok(run.value)
}
