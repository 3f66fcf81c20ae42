// A type for each scheme, with its header, its bit total and its word count as associated constants, and its constructor
// (document 01, "The thirteen schemes", and document 02, C-11). The code has these numbers from here.
ghost use Rattle.std.specs.Prelude.{◌≡◌, ℕ, refl};
ghost use Rattle.rules.specs.declared.Parts.{Parts};
ghost use Rattle.rules.specs.declared.Scheme.{Scheme};
ghost use Rattle.rules.specs.Schemes.{about, words_for};
ghost use Rattle.scheme.specs.Outlines.{outline, outline_of};

use rules::{Body, Last, Parts, Scheme, Table};

// What each scheme carries. The ghost members are what the documents' table says of `scheme`: the check proves the constants equal to them.
pub trait Columns {
    const HEADER: u8;

    const BITS: usize;

    const PARTS: Parts;

    ghost HEADER: { ℕ };

    ghost BITS: { ℕ };

    ghost PARTS: { Parts };

    ghost scheme: { Scheme };

    fn new() -> Scheme
        ensures { result ≡ scheme };

    // The constants are this scheme's row, and no other's.
    ghost listed: { outline HEADER BITS PARTS ≡ outline_of scheme };
}

// The word count, once for all schemes. It is no constant with a value in `Columns`, since no contract can cite such a value.
pub trait Words {
    const WORDS: usize;

    ghost WORDS: { ℕ };
}

// Words of 16 bits: the bit total divided by 16, rounded up.
impl<C: Columns> Words for C {
    const WORDS: usize = (C::BITS + 15) / 16;

    ghost WORDS = { words_for C.BITS };
}

#[derive(Clone, Copy)]
pub struct Sgtin96;

impl Columns for Sgtin96 {
    const HEADER: u8 = 0x30;

    const BITS: usize = 96;

    const PARTS: Parts = Parts::F(Body::Then(Table::A, Last::Integer(38)));

    ghost HEADER = { (about Scheme.Sgtin96).header };

    ghost BITS = { (about Scheme.Sgtin96).bits };

    ghost PARTS = { (about Scheme.Sgtin96).parts };

    ghost scheme = { Scheme.Sgtin96 };

    ghost listed = { refl };

    fn new() -> Scheme {
        Scheme::Sgtin96
    }
}

#[derive(Clone, Copy)]
pub struct Sgtin198;

impl Columns for Sgtin198 {
    const HEADER: u8 = 0x36;

    const BITS: usize = 198;

    const PARTS: Parts = Parts::F(Body::Then(Table::A, Last::String(140)));

    ghost HEADER = { (about Scheme.Sgtin198).header };

    ghost BITS = { (about Scheme.Sgtin198).bits };

    ghost PARTS = { (about Scheme.Sgtin198).parts };

    ghost scheme = { Scheme.Sgtin198 };

    ghost listed = { refl };

    fn new() -> Scheme {
        Scheme::Sgtin198
    }
}

#[derive(Clone, Copy)]
pub struct Sscc96;

impl Columns for Sscc96 {
    const HEADER: u8 = 0x31;

    const BITS: usize = 96;

    const PARTS: Parts = Parts::F(Body::Zeros(Table::B, 24));

    ghost HEADER = { (about Scheme.Sscc96).header };

    ghost BITS = { (about Scheme.Sscc96).bits };

    ghost PARTS = { (about Scheme.Sscc96).parts };

    ghost scheme = { Scheme.Sscc96 };

    ghost listed = { refl };

    fn new() -> Scheme {
        Scheme::Sscc96
    }
}

#[derive(Clone, Copy)]
pub struct Sgln96;

impl Columns for Sgln96 {
    const HEADER: u8 = 0x32;

    const BITS: usize = 96;

    const PARTS: Parts = Parts::F(Body::Then(Table::D, Last::Integer(41)));

    ghost HEADER = { (about Scheme.Sgln96).header };

    ghost BITS = { (about Scheme.Sgln96).bits };

    ghost PARTS = { (about Scheme.Sgln96).parts };

    ghost scheme = { Scheme.Sgln96 };

    ghost listed = { refl };

    fn new() -> Scheme {
        Scheme::Sgln96
    }
}

#[derive(Clone, Copy)]
pub struct Sgln195;

impl Columns for Sgln195 {
    const HEADER: u8 = 0x39;

    const BITS: usize = 195;

    const PARTS: Parts = Parts::F(Body::Then(Table::D, Last::String(140)));

    ghost HEADER = { (about Scheme.Sgln195).header };

    ghost BITS = { (about Scheme.Sgln195).bits };

    ghost PARTS = { (about Scheme.Sgln195).parts };

    ghost scheme = { Scheme.Sgln195 };

    ghost listed = { refl };

    fn new() -> Scheme {
        Scheme::Sgln195
    }
}

#[derive(Clone, Copy)]
pub struct Grai96;

impl Columns for Grai96 {
    const HEADER: u8 = 0x33;

    const BITS: usize = 96;

    const PARTS: Parts = Parts::F(Body::Then(Table::C, Last::Integer(38)));

    ghost HEADER = { (about Scheme.Grai96).header };

    ghost BITS = { (about Scheme.Grai96).bits };

    ghost PARTS = { (about Scheme.Grai96).parts };

    ghost scheme = { Scheme.Grai96 };

    ghost listed = { refl };

    fn new() -> Scheme {
        Scheme::Grai96
    }
}

#[derive(Clone, Copy)]
pub struct Grai170;

impl Columns for Grai170 {
    const HEADER: u8 = 0x37;

    const BITS: usize = 170;

    const PARTS: Parts = Parts::F(Body::Then(Table::C, Last::String(112)));

    ghost HEADER = { (about Scheme.Grai170).header };

    ghost BITS = { (about Scheme.Grai170).bits };

    ghost PARTS = { (about Scheme.Grai170).parts };

    ghost scheme = { Scheme.Grai170 };

    ghost listed = { refl };

    fn new() -> Scheme {
        Scheme::Grai170
    }
}

#[derive(Clone, Copy)]
pub struct Giai96;

impl Columns for Giai96 {
    const HEADER: u8 = 0x34;

    const BITS: usize = 96;

    const PARTS: Parts = Parts::F(Body::E);

    ghost HEADER = { (about Scheme.Giai96).header };

    ghost BITS = { (about Scheme.Giai96).bits };

    ghost PARTS = { (about Scheme.Giai96).parts };

    ghost scheme = { Scheme.Giai96 };

    ghost listed = { refl };

    fn new() -> Scheme {
        Scheme::Giai96
    }
}

#[derive(Clone, Copy)]
pub struct Gsrn96;

impl Columns for Gsrn96 {
    const HEADER: u8 = 0x2D;

    const BITS: usize = 96;

    const PARTS: Parts = Parts::F(Body::Zeros(Table::B, 24));

    ghost HEADER = { (about Scheme.Gsrn96).header };

    ghost BITS = { (about Scheme.Gsrn96).bits };

    ghost PARTS = { (about Scheme.Gsrn96).parts };

    ghost scheme = { Scheme.Gsrn96 };

    ghost listed = { refl };

    fn new() -> Scheme {
        Scheme::Gsrn96
    }
}

#[derive(Clone, Copy)]
pub struct Gsrnp96;

impl Columns for Gsrnp96 {
    const HEADER: u8 = 0x2E;

    const BITS: usize = 96;

    const PARTS: Parts = Parts::F(Body::Zeros(Table::B, 24));

    ghost HEADER = { (about Scheme.Gsrnp96).header };

    ghost BITS = { (about Scheme.Gsrnp96).bits };

    ghost PARTS = { (about Scheme.Gsrnp96).parts };

    ghost scheme = { Scheme.Gsrnp96 };

    ghost listed = { refl };

    fn new() -> Scheme {
        Scheme::Gsrnp96
    }
}

#[derive(Clone, Copy)]
pub struct Gdti96;

impl Columns for Gdti96 {
    const HEADER: u8 = 0x2C;

    const BITS: usize = 96;

    const PARTS: Parts = Parts::F(Body::Then(Table::D, Last::Integer(41)));

    ghost HEADER = { (about Scheme.Gdti96).header };

    ghost BITS = { (about Scheme.Gdti96).bits };

    ghost PARTS = { (about Scheme.Gdti96).parts };

    ghost scheme = { Scheme.Gdti96 };

    ghost listed = { refl };

    fn new() -> Scheme {
        Scheme::Gdti96
    }
}

#[derive(Clone, Copy)]
pub struct Gdti174;

impl Columns for Gdti174 {
    const HEADER: u8 = 0x3E;

    const BITS: usize = 174;

    const PARTS: Parts = Parts::F(Body::Then(Table::D, Last::String(119)));

    ghost HEADER = { (about Scheme.Gdti174).header };

    ghost BITS = { (about Scheme.Gdti174).bits };

    ghost PARTS = { (about Scheme.Gdti174).parts };

    ghost scheme = { Scheme.Gdti174 };

    ghost listed = { refl };

    fn new() -> Scheme {
        Scheme::Gdti174
    }
}

#[derive(Clone, Copy)]
pub struct Gid96;

impl Columns for Gid96 {
    const HEADER: u8 = 0x35;

    const BITS: usize = 96;

    const PARTS: Parts = Parts::Integers(28, 24, 36);

    ghost HEADER = { (about Scheme.Gid96).header };

    ghost BITS = { (about Scheme.Gid96).bits };

    ghost PARTS = { (about Scheme.Gid96).parts };

    ghost scheme = { Scheme.Gid96 };

    ghost listed = { refl };

    fn new() -> Scheme {
        Scheme::Gid96
    }
}

#[derive(Clone, Copy)]
pub struct Gdti113;

impl Columns for Gdti113 {
    const HEADER: u8 = 0x3A;

    const BITS: usize = 113;

    const PARTS: Parts = Parts::F(Body::Then(Table::D, Last::Numeric(58, 17)));

    ghost HEADER = { (about Scheme.Gdti113).header };

    ghost BITS = { (about Scheme.Gdti113).bits };

    ghost PARTS = { (about Scheme.Gdti113).parts };

    ghost scheme = { Scheme.Gdti113 };

    ghost listed = { refl };

    fn new() -> Scheme {
        Scheme::Gdti113
    }
}

#[derive(Clone, Copy)]
pub struct Sgcn96;

impl Columns for Sgcn96 {
    const HEADER: u8 = 0x3F;

    const BITS: usize = 96;

    const PARTS: Parts = Parts::F(Body::Then(Table::D, Last::Numeric(41, 12)));

    ghost HEADER = { (about Scheme.Sgcn96).header };

    ghost BITS = { (about Scheme.Sgcn96).bits };

    ghost PARTS = { (about Scheme.Sgcn96).parts };

    ghost scheme = { Scheme.Sgcn96 };

    ghost listed = { refl };

    fn new() -> Scheme {
        Scheme::Sgcn96
    }
}

#[derive(Clone, Copy)]
pub struct Cpi96;

impl Columns for Cpi96 {
    const HEADER: u8 = 0x3C;

    const BITS: usize = 96;

    const PARTS: Parts = Parts::F(Body::Then(Table::Cpi, Last::Integer(31)));

    ghost HEADER = { (about Scheme.Cpi96).header };

    ghost BITS = { (about Scheme.Cpi96).bits };

    ghost PARTS = { (about Scheme.Cpi96).parts };

    ghost scheme = { Scheme.Cpi96 };

    ghost listed = { refl };

    fn new() -> Scheme {
        Scheme::Cpi96
    }
}
