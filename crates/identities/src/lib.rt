// Pure identities (document 02, C-16): the grammar of 001, section 6.3, the way from a tag to its identity and back, and the theorems about
// them. No code: what stands here are the names that the definitions and the code share.
#![tactic(auto)]

// The families.
#[derive(Clone, Copy)]
pub enum Family {
    Sgtin,
    Sscc,
    Sgln,
    Grai,
    Giai,
    Gsrn,
    Gsrnp,
    Gdti,
    Gid,
    Sgcn,
    Cpi,
}

// The components of 001, section 5, that an identity is made of: one or more digits; zero or more; one to so many; a number with no leading
// zero; characters; the characters of a component or part reference.
#[derive(Clone, Copy)]
pub enum Component {
    Padded,
    PaddedOrEmpty,
    UpTo(usize),
    Number,
    Characters,
    PartReference,
}
