// String parts, whose characters are the 82 of the standard's table A-1: read from a text, written to a text, and counted in the groups
// of seven bits that a bank holds.
#![tactic(auto)]

mod table;

ghost use Rattle.std.specs.Prelude.{◌≡◌, ◌∷◌, ◌+◌, ◌*◌, ◌^◌, ◌<◌, ◌≤◌, length, take, drop, set, option_map};
ghost use Rattle.rules.specs.Bytes.{percent};
ghost use Rattle.rules.specs.Characters.{escaped, plain, spelling, string_text};
ghost use Rattle.rules.specs.TextNumbers.{escape, characters_in};
ghost use Rattle.rules.specs.BankNumbers.{string_in};
ghost use Rattle.digits.specs.Pieces.{Room, Adds};
ghost use Rattle.alphabet.specs.Strings.{class_of, string_part, spelled_of};
ghost use Rattle.alphabet.specs.Readers.{counted, Kept, escape_in, width_in};

use digits::Output;
use rules::MOST_CHARACTERS;
use table::{CLASSES, Class};

// The class of a byte.
fn class(c: u8) -> Class
    ensures { result ≡ class_of c }
{
    CLASSES[c as usize]
}

// What a text spells: the number of its characters, and the first twenty of them, with zeros behind: fixed memory, no heap. Characters past the twentieth are
// counted too: a wrong form (number 7) comes before too many characters (number 8), so the whole text is read.
#[derive(Drop)]
pub struct Spelled {
    pub count: usize,
    pub characters: [u8; MOST_CHARACTERS],
}

// The character whose escape has the digits h and l.
#[tactic(auto, using(std::proofs::lemmas::Bool::Decides::nat_tests), unfolding(rules::specs::Characters::escaped))]
fn character(h: u8, l: u8) -> Option<u8>
    ensures { result ≡ escape escaped h l }
{
    match (h, l) {
        (b'2', b'2') => Some(b'"'),
        (b'2', b'5') => Some(b'%'),
        (b'2', b'6') => Some(b'&'),
        (b'2', b'F') => Some(b'/'),
        (b'3', b'C') => Some(b'<'),
        (b'3', b'E') => Some(b'>'),
        (b'3', b'F') => Some(b'?'),
        _ => None,
    }
}

// The character whose escape has the two digits that a text begins with.
fn character_at(text: &[u8]) -> Option<u8>
    ensures { result ≡ escape_in text.now }
{
    let &[h, l, ..] = text else {
        return None;
    };
    character(h, l)
}

// How many bytes the character takes that a text begins with: one, or three for an escape.
fn width(text: &[u8]) -> Option<usize>
    ensures { result ≡ width_in text.now }
{
    let &[b, ref digits @ ..] = text else {
        return None;
    };
    if class(b) == Class::Plain {
        return Some(1);
    }
    if b != b'%' {
        return None;
    }
    character_at(digits).map(|_| 3)
}

// Counts the characters of a text, after n that are counted already, and keeps none of them. `escape` goes on here once the room is full.
// This is a loop, so the two readers below call each other no more often than there is room, however long the text is.
fn rest(text: &[u8], n: usize) -> Option<usize>
    requires { n + length text.now < 2 ^ 64 }
    ensures { result ≡ counted n (characters_in text.now) }
{
    let mut left = text;
    let mut m = n;
    // `while`: a step is one byte or three.
    while !left.is_empty() {
        left = &left[width(left)?..];
        m += 1;
    }
    Some(m)
}

// How many characters a string part has.
pub fn characters_in(text: &[u8]) -> Option<usize>
    ensures { result ≡ option_map length (string_part text.now) }
{
    match rest(text, 0)? {
        0 => None,
        n => Some(n),
    }
}

// Stores c as the character at place n, if there is room.
fn keep(kept: &mut [u8], n: usize, c: u8)
    ensures { kept.new ≡ set kept.old n c }
{
    // no `get_mut`: its contract doesn't say that nothing changes where there is no room
    if n < kept.len() {
        kept[n] = c;
    }
}

// "A plain character and an escape may follow each other freely" (document 01): so two readers call each other.
// This one reads characters that stand for themselves, and goes on with `escape` at a percent sign. Both return the number of
// characters, counting the n before, or nothing where the form is wrong; and both store the characters from place n on.
#[cycle(escape_plain_run)]
fn plain_run(text: &[u8], n: usize, kept: &mut [u8]) -> Option<usize>
    requires { n + length text.now < 2 ^ 64 }
    ensures value { result ≡ counted n (characters_in text.now) }
    ensures kept { Kept (characters_in text.now) n kept.old kept.new }
{
    for (i, &b) in text.iter().enumerate() {
        if class(b) == Class::Plain {
            keep(kept, n + i, b);
        } else if b == b'%' {
            return escape(&text[i + 1..], n + i, kept);
        } else {
            return None;
        }
    }
    Some(n + text.len())
}

// Reads an escape, from behind its percent sign on, and goes on with `plain_run`.
#[cycle(escape_plain_run)]
fn escape(text: &[u8], n: usize, kept: &mut [u8]) -> Option<usize>
    requires { n + length text.now < 2 ^ 64 }
    ensures value { result ≡ counted n (characters_in (percent ∷ text.now)) }
    ensures kept { Kept (characters_in (percent ∷ text.now)) n kept.old kept.new }
{
    let c = character_at(text)?;
    if n < kept.len() {
        kept[n] = c;
        return plain_run(&text[2..], n + 1, kept);
    }
    rest(&text[2..], n + 1)
}

// Reads a string part.
pub fn read(text: &[u8]) -> Option<Spelled>
    ensures { result ≡ option_map spelled_of (string_part text.now) }
{
    let mut characters = [0u8; MOST_CHARACTERS];
    let count = plain_run(text, 0, &mut characters)?;
    if count == 0 {
        return None;
    }
    Some(Spelled { count, characters })
}

// Writes one character, as itself or as its escape.
fn put(w: &mut Output<'_>, c: u8)
    requires { Room w.old 3 }
    ensures { Adds w.old (spelling (plain c) c) w.new }
{
    if class(c) == Class::Plain {
        return w.byte(c);
    }
    w.put(&[b'%', digits::hex(c / 16), digits::hex(c % 16)])
}

// Writes the text of some characters.
pub fn write(characters: &[u8], w: &mut Output<'_>)
    requires { Room w.old (3 * length characters.now) }
    ensures { Adds w.old (string_text characters.now) w.new }
{
    for &c in characters {
        put(w, c);
    }
}

// The number of characters in the groups of a string, each a byte here. There is none where number 19 refuses them: the first group is
// zero, a group after a zero is not, or a group is no character.
pub fn count(groups: &[u8]) -> Option<usize>
    ensures { result ≡ option_map length (string_in groups.now) }
{
    let mut n = 0;
    for (i, &g) in groups.iter().enumerate() {
        if g != 0 {
            if n < i || class(g) == Class::Outside {
                return None;
            }
            n = i + 1;
        }
    }
    if n == 0 {
        return None;
    }
    Some(n)
}
