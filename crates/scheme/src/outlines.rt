// The table of schemes, by scheme and by header (document 01, "The thirteen schemes", and document 02, C-11).
ghost use Rattle.std.specs.Prelude.{◌≡◌};
ghost use Rattle.rules.specs.BankNumbers.{headed};
ghost use Rattle.rules.specs.Schemes.{schemes};
ghost use Rattle.scheme.specs.Outlines.{outline_of};

use super::types::{
    Columns, Cpi96, Gdti96, Gdti113, Gdti174, Giai96, Gid96, Grai96, Grai170, Gsrn96, Gsrnp96,
    Sgcn96, Sgln96, Sgln195, Sgtin96, Sgtin198, Sscc96, Words,
};
use rules::{Parts, Scheme};

// The columns of a scheme in the table.
#[derive(Clone, Copy)]
pub struct Outline {
    pub header: u8,
    pub bits: usize,
    pub words: usize,
    pub parts: Parts,
}

// The columns of one scheme, from its type.
fn columns<C: Columns>() -> Outline
    ensures { result ≡ outline_of C.scheme }
{
    Outline {
        header: C::HEADER,
        bits: C::BITS,
        words: C::WORDS,
        parts: C::PARTS,
    }
}

// The columns of one scheme, by its name.
pub fn about(s: Scheme) -> Outline
    ensures { result ≡ outline_of s }
{
    match s {
        Scheme::Sgtin96 => columns::<Sgtin96>(),
        Scheme::Sgtin198 => columns::<Sgtin198>(),
        Scheme::Sscc96 => columns::<Sscc96>(),
        Scheme::Sgln96 => columns::<Sgln96>(),
        Scheme::Sgln195 => columns::<Sgln195>(),
        Scheme::Grai96 => columns::<Grai96>(),
        Scheme::Grai170 => columns::<Grai170>(),
        Scheme::Giai96 => columns::<Giai96>(),
        Scheme::Gsrn96 => columns::<Gsrn96>(),
        Scheme::Gsrnp96 => columns::<Gsrnp96>(),
        Scheme::Gdti96 => columns::<Gdti96>(),
        Scheme::Gdti174 => columns::<Gdti174>(),
        Scheme::Gid96 => columns::<Gid96>(),
        Scheme::Gdti113 => columns::<Gdti113>(),
        Scheme::Sgcn96 => columns::<Sgcn96>(),
        Scheme::Cpi96 => columns::<Cpi96>(),
    }
}

// The scheme of a header, or none (rule 13).
#[tactic(auto, unfolding(rules::specs::Schemes::schemes))]
pub fn by_header(h: u8) -> Option<Scheme>
    ensures { result ≡ headed h schemes }
{
    match h {
        Sgtin96::HEADER => Some(Sgtin96::new()),
        Sgtin198::HEADER => Some(Sgtin198::new()),
        Sscc96::HEADER => Some(Sscc96::new()),
        Sgln96::HEADER => Some(Sgln96::new()),
        Sgln195::HEADER => Some(Sgln195::new()),
        Grai96::HEADER => Some(Grai96::new()),
        Grai170::HEADER => Some(Grai170::new()),
        Giai96::HEADER => Some(Giai96::new()),
        Gsrn96::HEADER => Some(Gsrn96::new()),
        Gsrnp96::HEADER => Some(Gsrnp96::new()),
        Gdti96::HEADER => Some(Gdti96::new()),
        Gdti174::HEADER => Some(Gdti174::new()),
        Gid96::HEADER => Some(Gid96::new()),
        Gdti113::HEADER => Some(Gdti113::new()),
        Sgcn96::HEADER => Some(Sgcn96::new()),
        Cpi96::HEADER => Some(Cpi96::new()),
        _ => None,
    }
}
