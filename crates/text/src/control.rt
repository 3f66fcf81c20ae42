// The control fields of a tag in its text (document 02, C-13). Each `put_` function adds a piece of them to what the output holds.
ghost use Rattle.std.specs.Prelude.{◌+◌, ◌≤◌};
ghost use Rattle.rules.specs.ControlFields.{most, standing, control_text, ControlFits};
ghost use Rattle.digits.specs.Pieces.{Room, Adds};

use digits::Output;
use rules::{ControlFields, ControlName};

// `[umi=1]`, unless it is zero.
fn put_umi(w: &mut Output<'_>, umi: u8)
    requires { (umi ≤ 1) × Room w.old 7 }
    ensures { Adds w.old (standing ControlName.Umi umi) w.new }
{
    if umi == 0 {
        return;
    }
    w.put(b"[umi=1]")
}

// `[att=xNN]`, unless it is zero.
fn put_att(w: &mut Output<'_>, att: u8)
    requires { Room w.old 9 }
    ensures { Adds w.old (standing ControlName.Att att) w.new }
{
    if att == 0 {
        return;
    }
    w.put(b"[att=x");
    w.hex(&[att]);
    w.byte(b']')
}

// The field of this name, 9 bytes at most, unless it is zero. One function for both, since `att_written_first` (must-fail) hands over the other name.
fn put_field(w: &mut Output<'_>, name: ControlName, value: u8)
    requires { (value ≤ most name) × Room w.old 9 }
    ensures { Adds w.old (standing name value) w.new }
{
    match name {
        ControlName::Umi => put_umi(w, value),
        ControlName::Att => put_att(w, value),
    }
}

// The fields that stand, and a colon behind the last: 7 bytes, 9 and one.
pub fn put_control(w: &mut Output<'_>, control: ControlFields)
    requires { ControlFits control × Room w.old 17 }
    ensures adds { Adds w.old (control_text control) w.new }
    ensures upper_bound { w.new.at ≤ w.old.at + 17 }
{
    if control.umi == 0 && control.att == 0 {
        return;
    }
    put_field(w, ControlName::Umi, control.umi);
    put_field(w, ControlName::Att, control.att);
    w.byte(b':')
}
