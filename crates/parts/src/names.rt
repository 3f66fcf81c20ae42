// The name of a scheme in a text, and the colon behind it (document 01, "The text of a tag"). The bytes between the name's first letter
// and the colon are read as one number, the key, which is looked up in a table.
ghost use Rattle.std.specs.Prelude.{◌≡◌};
ghost use Rattle.numeral.specs.Numeral.{Digits};
ghost use Rattle.parts.specs.Names.{named_at, tail_of, keyed_by};
ghost use Rattle.parts.specs.Rests.{left};

use crate::rest::Rest;
use rules::Scheme;
use scheme::types::{
    Columns, Cpi96, Gdti96, Gdti113, Gdti174, Giai96, Gid96, Grai96, Grai170, Gsrn96, Gsrnp96,
    Sgcn96, Sgln96, Sgln195, Sgtin96, Sgtin198, Sscc96,
};

// A scheme, and where the text goes on behind its colon.
#[derive(Clone, Copy)]
pub struct Named {
    pub scheme: Scheme,
    pub next: usize,
}

// A number of 64 bits holds so many bytes.
const MOST_BYTES: usize = 8;

// The bytes of a text up to its first colon as one number, most significant first, and how many they are.
#[derive(Clone, Copy)]
struct Tail {
    value: u64,
    length: usize,
}

// A text's tail, unless it has no colon, or more bytes before it than the number holds. That its bytes are bytes is what the type says here,
// but not of a text that stands in a Rest.
fn tail_of(text: &[u8]) -> Option<Tail>
    ensures tail { result ≡ tail_of text.now }
    ensures bytes { Digits 256 text.now }
{
    let mut value: u64 = 0;
    for (n, &b) in text.iter().enumerate() {
        if b == b':' {
            return Some(Tail { value, length: n });
        }
        if n == MOST_BYTES {
            return None;
        }
        value = value * 256 + b as u64;
    }
    None
}

// The scheme whose name ends in a key, its name's first letter, and how many bytes the key has.
#[derive(Clone, Copy)]
struct Keyed(Scheme, u8, usize);

// The keys are the names without their first letters, in ASCII: 67 74 69 6E 2D 39 36 is `gtin-96`.
fn by_key(rest: u64) -> Option<Keyed>
    ensures { result ≡ keyed_by rest }
{
    match rest {
        0x6774696E2D3936 => Some(Keyed(Sgtin96::new(), b's', 7)), // sgtin-96
        0x6774696E2D313938 => Some(Keyed(Sgtin198::new(), b's', 8)), // sgtin-198
        0x7363632D3936 => Some(Keyed(Sscc96::new(), b's', 6)), // sscc-96
        0x676C6E2D3936 => Some(Keyed(Sgln96::new(), b's', 6)), // sgln-96
        0x676C6E2D313935 => Some(Keyed(Sgln195::new(), b's', 7)), // sgln-195
        0x7261692D3936 => Some(Keyed(Grai96::new(), b'g', 6)), // grai-96
        0x7261692D313730 => Some(Keyed(Grai170::new(), b'g', 7)), // grai-170
        0x6961692D3936 => Some(Keyed(Giai96::new(), b'g', 6)), // giai-96
        0x73726E2D3936 => Some(Keyed(Gsrn96::new(), b'g', 6)), // gsrn-96
        0x73726E702D3936 => Some(Keyed(Gsrnp96::new(), b'g', 7)), // gsrnp-96
        0x6474692D3936 => Some(Keyed(Gdti96::new(), b'g', 6)), // gdti-96
        0x6474692D313734 => Some(Keyed(Gdti174::new(), b'g', 7)), // gdti-174
        0x69642D3936 => Some(Keyed(Gid96::new(), b'g', 5)), // gid-96
        0x6474692D313133 => Some(Keyed(Gdti113::new(), b'g', 7)), // gdti-113
        0x67636E2D3936 => Some(Keyed(Sgcn96::new(), b's', 6)), // sgcn-96
        0x70692D3936 => Some(Keyed(Cpi96::new(), b'c', 5)), // cpi-96
        _ => None,
    }
}

// The scheme that a text names next, with its colon.
pub fn name(rest: Rest<'_>) -> Option<Named>
    ensures { result ≡ named_at rest.entry.at (left rest.entry) }
{
    if rest.text.len() <= rest.at {
        return None;
    }
    let tail = tail_of(&rest.text[rest.at + 1..])?;
    let Keyed(scheme, first, length) = by_key(tail.value)?;
    if first != rest.text[rest.at] || length != tail.length {
        return None;
    }
    Some(Named {
        scheme,
        next: rest.at + (length + 2),
    })
}
