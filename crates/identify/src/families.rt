// The families by their names, their schemes and their limits (001, section 6.3; document 02, C-16).
ghost use Rattle.std.specs.Prelude.{◌≡◌, ◌++◌, ◌+◌, ◌<◌, option_map};
ghost use Rattle.rules.specs.TextNumbers.{after};
ghost use Rattle.digits.specs.Pieces.{Room, Adds};
ghost use Rattle.digits.specs.Starts.{begun};
ghost use Rattle.identities.specs.Families.{families, family_of, most_filter};
ghost use Rattle.identities.specs.Families.{short as short_of, long as long_of};
ghost use Rattle.identities.specs.Grammar.{start, label};
ghost use Rattle.identities.specs.Numbers.{named as named_of};
ghost use Rattle.identify.specs.Words.{found_in};

use digits::{Output, begins};
use identities::Family;
use rules::Scheme;

// The families in their order.
static FAMILIES: [Family; 11] = [
    Family::Sgtin,
    Family::Sscc,
    Family::Sgln,
    Family::Grai,
    Family::Giai,
    Family::Gsrn,
    Family::Gsrnp,
    Family::Gdti,
    Family::Gid,
    Family::Sgcn,
    Family::Cpi,
];

// How many characters `urn:epc:id:` has.
const START: usize = 11;

// The family of a scheme. It is no `From`, which would have to stand in a crate below: both types are of those.
pub fn family_of(s: Scheme) -> Family
    ensures { result ≡ family_of s }
{
    match s {
        Scheme::Sgtin96 | Scheme::Sgtin198 => Family::Sgtin,
        Scheme::Sscc96 => Family::Sscc,
        Scheme::Sgln96 | Scheme::Sgln195 => Family::Sgln,
        Scheme::Grai96 | Scheme::Grai170 => Family::Grai,
        Scheme::Giai96 => Family::Giai,
        Scheme::Gsrn96 => Family::Gsrn,
        Scheme::Gsrnp96 => Family::Gsrnp,
        Scheme::Gdti96 | Scheme::Gdti174 | Scheme::Gdti113 => Family::Gdti,
        Scheme::Gid96 => Family::Gid,
        Scheme::Sgcn96 => Family::Sgcn,
        Scheme::Cpi96 => Family::Cpi,
    }
}

// The 96-bit scheme of a family.
pub fn short(f: Family) -> Scheme
    ensures { result ≡ short_of f }
{
    match f {
        Family::Sgtin => Scheme::Sgtin96,
        Family::Sscc => Scheme::Sscc96,
        Family::Sgln => Scheme::Sgln96,
        Family::Grai => Scheme::Grai96,
        Family::Giai => Scheme::Giai96,
        Family::Gsrn => Scheme::Gsrn96,
        Family::Gsrnp => Scheme::Gsrnp96,
        Family::Gdti => Scheme::Gdti96,
        Family::Gid => Scheme::Gid96,
        Family::Sgcn => Scheme::Sgcn96,
        Family::Cpi => Scheme::Cpi96,
    }
}

// The long scheme of a family, where it has one; gdti-113 is never chosen.
pub fn long(f: Family) -> Option<Scheme>
    ensures { result ≡ long_of f }
{
    match f {
        Family::Sgtin => Some(Scheme::Sgtin198),
        Family::Sgln => Some(Scheme::Sgln195),
        Family::Grai => Some(Scheme::Grai170),
        Family::Gdti => Some(Scheme::Gdti174),
        _ => None,
    }
}

// The largest filter of a family's tags: gid's have none, and count as 0.
pub fn most_filter(f: Family) -> u32
    ensures { result ≡ most_filter f }
{
    match f {
        Family::Gid => 0,
        _ => 7,
    }
}

// A family's name and the colon.
fn label(f: Family) -> &'static [u8]
    ensures { result.now ≡ label f }
{
    match f {
        Family::Sgtin => b"sgtin:",
        Family::Sscc => b"sscc:",
        Family::Sgln => b"sgln:",
        Family::Grai => b"grai:",
        Family::Giai => b"giai:",
        Family::Gsrn => b"gsrn:",
        Family::Gsrnp => b"gsrnp:",
        Family::Gdti => b"gdti:",
        Family::Gid => b"gid:",
        Family::Sgcn => b"sgcn:",
        Family::Cpi => b"cpi:",
    }
}

// What stands before the parts of an identity: `urn:epc:id:`, the family's name and the colon.
pub fn put_start(w: &mut Output<'_>, f: Family)
    requires { Room w.old 17 }
    ensures { Adds w.old (start ++ label f) w.new }
{
    w.put(b"urn:epc:id:");
    w.put(label(f))
}

// The family whose name and colon a text begins with. A `for`, since the goal of `find` with this closure was not closed.
fn name(text: &[u8]) -> Option<Family>
    ensures { result ≡ option_map (λ c. c.family) (named_of families text.now) }
{
    for f in &FAMILIES {
        if begins(text, label(*f)) {
            return Some(*f);
        }
    }
    None
}

// The family of an identity text, which begins with `urn:epc:id:`, the family's name and the colon; and where the text goes on behind these: an
// index, since with the slice in the Option the contract would have to take its bytes out first.
pub fn family_in(text: &[u8]) -> Option<(Family, usize)>
    ensures { result ≡ found_in text.now }
{
    if !begins(text, b"urn:epc:id:") {
        return None;
    }
    let f = name(&text[START..])?;
    Some((f, START + label(f).len()))
}
