// Whether the text behind a family's name is of the grammar of 001, section 6.3 (document 02, C-16: number 23). Each function looks at a whole
// text: the parts are cut out of it.
ghost use Rattle.std.specs.Prelude.{◌≡◌, [], ◌∷◌, position, ◌==◌};
ghost use Rattle.rules.specs.Bytes.{among, dot};
ghost use Rattle.identities.specs.Grammar.{part_characters};
ghost use Rattle.identities.specs.declared.Component.TheVariants.{Padded, PaddedOrEmpty, UpTo, Number, Characters, PartReference};
ghost use Rattle.identities.specs.Numbers.{parts_only};
ghost use Rattle.identities.specs.Numbers.{is as is_of};
ghost use Rattle.identify.specs.Words.{width_in, split_by, ShapeOf, counts, is_divided, is_body};

use digits::all_digits;
use identities::{Component, Family};

// One or more digits.
#[tactic(auto, using(crate::proofs::Components::padded_some))]
fn is_padded(x: &[u8]) -> bool
    ensures { result ≡ is_of Padded x.now }
{
    !x.is_empty() && all_digits(x)
}

// One to n digits.
fn is_up_to(x: &[u8], n: usize) -> bool
    ensures { result ≡ is_of (UpTo n) x.now }
{
    x.len() <= n && is_padded(x)
}

// `0`, or digits with no leading zero. The test stands alone, since `leading_zero_of_a_number` (must-fail) changes it.
fn is_number(x: &[u8]) -> bool
    ensures { result ≡ is_of Number x.now }
{
    if x.len() < 2 {
        return is_padded(x);
    }
    if x[0] == b'0' {
        return false;
    }
    all_digits(x)
}

// One or more characters, each as itself or as one of our escapes.
#[tactic(auto, using(crate::proofs::Components::some_characters))]
fn is_characters(x: &[u8]) -> bool
    ensures { result ≡ is_of Characters x.now }
{
    alphabet::characters_in(x).is_some()
}

// Whether a byte is a character of a part reference that stands for itself: a digit, a capital letter, or a dash.
#[tactic(auto, using(crate::proofs::PartTexts::part_ranges))]
fn is_part_character(c: u8) -> bool
    ensures { result ≡ among c part_characters }
{
    matches!(c, b'0'..=b'9' | b'A'..=b'Z' | b'-')
}

// How many bytes the character of a part reference takes that a text begins with: one, or three for the escapes of `/` and `#`.
fn width(x: &[u8]) -> Option<usize>
    ensures { result ≡ width_in x.now }
{
    if is_part_character(*x.first()?) {
        return Some(1);
    }
    if digits::begins(x, b"%2F") {
        return Some(3);
    }
    if digits::begins(x, b"%23") {
        return Some(3);
    }
    None
}

// Whether a text has nothing but characters of a part reference and these escapes. The step is one byte or three, so it is no `for`.
fn parts_only(x: &[u8]) -> bool
    ensures { result ≡ parts_only x.now }
{
    let mut i = 0;
    while i < x.len() {
        let Some(w) = width(&x[i..]) else {
            return false;
        };
        i += w;
    }
    true
}

// One or more of them.
fn is_part_reference(x: &[u8]) -> bool
    ensures { result ≡ is_of PartReference x.now }
{
    !x.is_empty() && parts_only(x)
}

// Whether a text is such a component.
pub fn is(x: &[u8], c: Component) -> bool
    ensures { result ≡ is_of c x.now }
{
    match c {
        Component::Padded => is_padded(x),
        Component::PaddedOrEmpty => all_digits(x),
        Component::UpTo(n) => is_up_to(x, n),
        Component::Number => is_number(x),
        Component::Characters => is_characters(x),
        Component::PartReference => is_part_reference(x),
    }
}

// The index of the first dot.
fn dot_in(x: &[u8]) -> Option<usize>
    ensures { result ≡ position (dot ==◌) x.now }
{
    x.iter().position(|c| *c == b'.')
}

// Zero or more digits before a dot: the index of that dot.
pub fn digits_before(x: &[u8]) -> Option<usize>
    ensures { result ≡ split_by PaddedOrEmpty x.now }
{
    for (i, c) in x.iter().enumerate() {
        if *c == b'.' {
            return Some(i);
        }
        if !digits::is_digit(*c) {
            return None;
        }
    }
    None
}

// Any component before a dot: the index of that dot.
fn split(x: &[u8], c: Component) -> Option<usize>
    ensures { result ≡ split_by c x.now }
{
    let n = dot_in(x)?;
    if is(&x[..n], c) {
        return Some(n);
    }
    None
}

// Whether so many digits are right for the first two parts together.
fn is_total(total: Option<usize>, n: usize) -> bool
    ensures { result ≡ counts total n }
{
    match total {
        Some(m) => n == m,
        None => true,
    }
}

// Two components with a dot between them.
fn is_pair(x: &[u8], a: Component, b: Component, total: Option<usize>) -> bool
    ensures { result ≡ is_divided total (a ∷ b ∷ []) x.now }
{
    let Some(n) = split(x, a) else {
        return false;
    };
    let behind = n + 1;
    if !is(&x[behind..], b) {
        return false;
    }
    is_total(total, x.len() - 1)
}

// Three components with dots between them.
fn is_triple(x: &[u8], a: Component, b: Component, c: Component, total: Option<usize>) -> bool
    ensures { result ≡ is_divided total (a ∷ b ∷ c ∷ []) x.now }
{
    let Some(n) = split(x, a) else {
        return false;
    };
    let second = n + 1;
    let Some(m) = split(&x[second..], b) else {
        return false;
    };
    let third = second + m + 1;
    if !is(&x[third..], c) {
        return false;
    }
    is_total(total, n + m)
}

// A family's components, and the digits that the first two have together, where they are counted.
#[derive(Drop)]
pub enum Shape {
    Two(Component, Component, Option<usize>),
    Three(Component, Component, Component, Option<usize>),
}

pub fn about(f: Family) -> Shape
    ensures { ShapeOf f result }
{
    match f {
        Family::Sgtin => Shape::Three(
            Component::Padded,
            Component::Padded,
            Component::Characters,
            Some(13),
        ),
        Family::Sscc => Shape::Two(Component::Padded, Component::Padded, Some(17)),
        Family::Sgln => Shape::Three(
            Component::Padded,
            Component::PaddedOrEmpty,
            Component::Characters,
            Some(12),
        ),
        Family::Grai => Shape::Three(
            Component::Padded,
            Component::PaddedOrEmpty,
            Component::Characters,
            Some(12),
        ),
        Family::Giai => Shape::Two(Component::Padded, Component::Characters, None),
        Family::Gsrn => Shape::Two(Component::Padded, Component::Padded, Some(17)),
        Family::Gsrnp => Shape::Two(Component::Padded, Component::Padded, Some(17)),
        Family::Gdti => Shape::Three(
            Component::Padded,
            Component::PaddedOrEmpty,
            Component::Characters,
            Some(12),
        ),
        Family::Gid => Shape::Three(
            Component::Number,
            Component::Number,
            Component::Number,
            None,
        ),
        Family::Sgcn => Shape::Three(
            Component::Padded,
            Component::PaddedOrEmpty,
            Component::UpTo(12),
            Some(12),
        ),
        Family::Cpi => Shape::Three(
            Component::Padded,
            Component::PartReference,
            Component::Number,
            None,
        ),
    }
}

// Whether a text is what follows a family's name in an identity.
pub fn is_body(x: &[u8], f: Family) -> bool
    ensures { result ≡ is_body f x.now }
{
    match about(f) {
        Shape::Two(a, b, total) => is_pair(x, a, b, total),
        Shape::Three(a, b, c, total) => is_triple(x, a, b, c, total),
    }
}
