// What a text is made of, each read at its place: the control fields, the name of a scheme, and the parts by their form.
#![tactic(auto)]

mod control;
mod names;
mod parts;
mod rest;

pub use control::{Controlled, control_at};
pub use names::{Named, name};
pub use parts::{
    Form, Part, digits_to_end, integer_to_end, numeric_to_end, part_at, reference_form,
};
pub use rest::Rest;
