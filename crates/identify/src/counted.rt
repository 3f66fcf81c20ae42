// The families whose prefix and reference have so many digits together (001, section 6.3). Every row of their partition tables has that sum, so
// the reference has its row's digits if the prefix has 6 to 12, and what follows the family's name is judged in one pass.
ghost use Rattle.std.specs.Prelude.{◌≡◌, ◌≤◌};
ghost use Rattle.rules.specs.Schemes.{about as aboutOf};
ghost use Rattle.identities.specs.Families.{short as short_of, long as longSchemeOf};
ghost use Rattle.identify.specs.Words.{judged, by_row, last_bits, is_there, by_serial, by_last, Serialised, Bare};

use super::families::{long, short};
use super::fits::is_integer;
use super::form::{digits_before, is};
use identities::{Component, Family};
use rules::{Body, Last, Parts, Scheme};

// Why no scheme is chosen for what follows a family's name: it is not of the grammar, or no scheme holds it.
#[derive(Clone, Copy, PartialEq, Eq)]
pub enum Fault {
    WrongText,
    Unheld,
}

// A scheme holds what it is asked for if the prefix, of n digits, picks a row. Two tests, since `prefix_of_5_digits` and `prefix_of_13_digits`
// (must-fail) change one each.
fn by_row(n: usize, s: Scheme) -> Result<Scheme, Fault>
    ensures { result ≡ by_row n s }
{
    if n < 6 {
        return Err(Fault::Unheld);
    }
    if 12 < n {
        return Err(Fault::Unheld);
    }
    Ok(s)
}

// The bits of a scheme's last part; 0 where it has none behind its reference: a number, and no Option, since widths are compared with it.
fn last_bits(s: Scheme) -> usize
    ensures { result ≡ last_bits (aboutOf s).parts }
{
    match scheme::outlines::about(s).parts {
        Parts::F(
            Body::Then(_, Last::Integer(bits) | Last::String(bits) | Last::Numeric(bits, _)),
        ) => bits,
        _ => 0,
    }
}

// A serial behind a prefix of n digits: an integer for the 96-bit scheme, or the characters of the long one's string.
fn by_serial(x: &[u8], n: usize, s: Scheme, l: Scheme) -> Result<Scheme, Fault>
    requires { last_bits (aboutOf s).parts ≤ 63 }
    ensures { result ≡ by_serial n s l x.now }
{
    if is_integer(x, last_bits(s)) {
        return by_row(n, s);
    }
    let count = alphabet::characters_in(x).ok_or(Fault::WrongText)?;
    if last_bits(l) / 7 < count {
        return Err(Fault::Unheld);
    }
    by_row(n, l)
}

// The last part: a serial of one of two schemes, or what the one scheme has.
fn by_last(x: &[u8], n: usize, f: Family, c: Component) -> Result<Scheme, Fault>
    requires { last_bits (aboutOf (short_of f)).parts ≤ 63 }
    ensures { result ≡ by_last n (short_of f) (longSchemeOf f) c x.now }
{
    match long(f) {
        Some(l) => by_serial(x, n, short(f), l),
        None => {
            if is(x, c) {
                return by_row(n, short(f));
            }
            Err(Fault::WrongText)
        }
    }
}

// Whether a reference of n digits is there where it may not be empty.
fn is_there(b: Component, n: usize) -> bool
    ensures { result ≡ is_there b n }
{
    match b {
        Component::Padded => 0 < n,
        _ => true,
    }
}

// Prefix, reference and last part.
pub fn three(x: &[u8], f: Family, b: Component, c: Component, total: usize) -> Result<Scheme, Fault>
    requires { Serialised f b c total }
    ensures { result ≡ judged f x.now }
{
    let n = digits_before(x).ok_or(Fault::WrongText)?;
    if n == 0 {
        return Err(Fault::WrongText);
    }
    let second = n + 1;
    let m = digits_before(&x[second..]).ok_or(Fault::WrongText)?;
    if !is_there(b, m) {
        return Err(Fault::WrongText);
    }
    if n + m != total {
        return Err(Fault::WrongText);
    }
    let last = second + m + 1;
    by_last(&x[last..], n, f, c)
}

// Prefix and reference alone.
pub fn two(x: &[u8], f: Family, a: Component, b: Component, total: usize) -> Result<Scheme, Fault>
    requires { Bare f a b total }
    ensures { result ≡ judged f x.now }
{
    let n = digits_before(x).ok_or(Fault::WrongText)?;
    if n == 0 {
        return Err(Fault::WrongText);
    }
    let second = n + 1;
    if !is(&x[second..], b) {
        return Err(Fault::WrongText);
    }
    if x.len() - 1 != total {
        return Err(Fault::WrongText);
    }
    by_row(n, short(f))
}
