// The verdict on what follows a family's name. The families without a total, giai, cpi and gid, are first asked whether their one scheme holds it:
// what a scheme holds is of the grammar, so the grammar is looked at only where it does not.
ghost use Rattle.std.specs.Prelude.{◌≡◌};
ghost use Rattle.rules.specs.declared.Scheme.TheVariants.{Giai96, Cpi96, Gid96};
ghost use Rattle.identities.specs.Families.{short as short_of};
ghost use Rattle.identities.specs.Families.{about as aboutFamily};
ghost use Rattle.identify.specs.Words.{held, judged};

use super::counted::{Fault, three, two};
use super::families::short;
use super::fits::{is_integer, spelled, then};
use super::form::{Shape, about, is_body};
use identities::Family;
use parts::{Form, Rest, part_at};
use rules::{Last, Scheme, Table};
use scheme::refusal::Rule;
use scheme::rows;

// The bits of cpi-96's serial, and of gid-96's three integers (document 02, C-11; document 01).
const CPI_SERIAL: usize = 31;

const GID_MANAGER: usize = 28;

const GID_CLASS: usize = 24;

const GID_SERIAL: usize = 36;

// giai: a prefix, and an integer of as many bits as its row has.
fn asset(x: &[u8]) -> bool
    ensures { result ≡ held x.now Giai96 }
{
    let Ok(prefix) = part_at(Rest::start(x), Form::Prefix, Rule::Prefix) else {
        return false;
    };
    let row = rows::by_digits(prefix.digits);
    is_integer(&x[prefix.next..], rows::asset(row))
}

// cpi: a prefix, a reference of at most its row's digits, and a serial.
fn component(x: &[u8]) -> bool
    ensures { result ≡ held x.now Cpi96 }
{
    spelled(x, Table::Cpi, Last::Integer(CPI_SERIAL))
}

// gid: three integers.
fn general(x: &[u8]) -> bool
    ensures { result ≡ held x.now Gid96 }
{
    let Ok(manager) = part_at(Rest::start(x), Form::Integer(GID_MANAGER), Rule::Prefix) else {
        return false;
    };
    then(
        &x[manager.next..],
        Form::Integer(GID_CLASS),
        Last::Integer(GID_SERIAL),
    )
}

// Whether the one scheme of a family without a total holds what follows its name.
fn is_held(x: &[u8], f: Family) -> bool
    requires { (aboutFamily f).total ≡ None }
    ensures { result ≡ held x.now (short_of f) }
{
    match f {
        Family::Giai => asset(x),
        Family::Cpi => component(x),
        Family::Gid => general(x),
        _ => false,
    }
}

// The verdict on such a family.
fn uncounted(x: &[u8], f: Family) -> Result<Scheme, Fault>
    requires { (aboutFamily f).total ≡ None }
    ensures { result ≡ judged f x.now }
{
    if is_held(x, f) {
        return Ok(short(f));
    }
    if is_body(x, f) {
        return Err(Fault::Unheld);
    }
    Err(Fault::WrongText)
}

// The verdict on any family.
pub fn judge(x: &[u8], f: Family) -> Result<Scheme, Fault>
    ensures { result ≡ judged f x.now }
{
    match about(f) {
        Shape::Two(a, b, Some(n)) => two(x, f, a, b, n),
        Shape::Three(_, b, c, Some(n)) => three(x, f, b, c, n),
        _ => uncounted(x, f),
    }
}
