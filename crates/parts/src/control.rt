// The control fields of a text (document 02, C-13): `[umi=1]`, then `[att=xNN]`, each only if it is not zero, and a colon behind the last.
ghost use Rattle.std.specs.Prelude.{◌≡◌};
ghost use Rattle.rules.specs.TextNumbers.{bracketed, control_fields_in};
ghost use Rattle.parts.specs.Controls.{two_digits, valued_at, standing_at, controlled_by};
ghost use Rattle.parts.specs.Rests.{left};

use crate::rest::Rest;
use digits::{begins, hex_value};
use rules::{ControlFields, ControlName};
use scheme::refusal::{Refusal, Rule};

// Control fields, and where the text goes on behind their colon.
#[derive(Clone, Copy)]
pub struct Controlled {
    pub control: ControlFields,
    pub next: usize,
}

// The characters of each field.
const UMI_LENGTH: usize = 7;

const ATT_LENGTH: usize = 9;

// A field's value, and where the text goes on behind it.
#[derive(Clone, Copy)]
struct Valued {
    value: u8,
    next: usize,
}

// The field `umi`, if it stands next.
fn umi_at(rest: Rest<'_>) -> Option<Valued>
    ensures { result ≡ standing_at ControlName.Umi rest.entry.at (left rest.entry) }
{
    if !begins(&rest.text[rest.at..], b"[umi=1]") {
        return None;
    }
    Some(Valued {
        value: 1,
        next: rest.at + UMI_LENGTH,
    })
}

// The value of two upper-case hexadecimal digits.
fn two_digits(first: u8, second: u8) -> Option<u8>
    ensures { result ≡ two_digits first second }
{
    let high = hex_value(first)?;
    let low = hex_value(second)?;
    Some(16 * high + low)
}

// The field `att`, if it stands next: its digits stand behind six characters, and a bracket behind them.
fn att_at(rest: Rest<'_>) -> Option<Valued>
    ensures { result ≡ standing_at ControlName.Att rest.entry.at (left rest.entry) }
{
    if rest.text.len() - rest.at < ATT_LENGTH
        || !begins(&rest.text[rest.at..], b"[att=x")
        || rest.text[rest.at + 8] != b']'
    {
        return None;
    }
    let value = two_digits(rest.text[rest.at + 6], rest.text[rest.at + 7])?;
    if value == 0 {
        return None;
    }
    Some(Valued {
        value,
        next: rest.at + ATT_LENGTH,
    })
}

// The next field, by this name: its value is 0 where it does not stand. One function for both, since `att_before_umi` and `field_repeated` (must-fail)
// hand over the other name.
fn field_at(rest: Rest<'_>, name: ControlName) -> Valued
    ensures { result ≡ valued_at name rest.entry.at (left rest.entry) }
{
    let field = match name {
        ControlName::Umi => umi_at(rest),
        ControlName::Att => att_at(rest),
    };
    field.unwrap_or(Valued {
        value: 0,
        next: rest.at,
    })
}

// The control fields of a text whose next byte is a bracket.
fn bracketed_at(rest: Rest<'_>) -> Result<Controlled, Refusal>
    ensures { result ≡ controlled_by (bracketed rest.entry.at (left rest.entry)) }
{
    let umi = field_at(rest, ControlName::Umi);
    let att = field_at(rest.behind(umi.next), ControlName::Att);
    let end = att.next;
    if rest.text.len() <= end || rest.text[end] != b':' {
        return Err(Rule::ControlFields.at(end));
    }
    let control = ControlFields {
        umi: umi.value,
        att: att.value,
    };
    Ok(Controlled {
        control,
        next: end + 1,
    })
}

// The control fields that stand next, if a bracket does. They are refused where the first wrong one begins, or where their colon is missing.
pub fn control_at(rest: Rest<'_>) -> Result<Controlled, Refusal>
    ensures { result ≡ controlled_by (control_fields_in rest.entry.at (left rest.entry)) }
{
    if rest.text.len() <= rest.at || rest.text[rest.at] != b'[' {
        return Ok(Controlled {
            control: ControlFields { umi: 0, att: 0 },
            next: rest.at,
        });
    }
    bracketed_at(rest)
}
