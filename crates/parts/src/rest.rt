// What is left of a text that is read from left to right.
ghost use Rattle.std.specs.Prelude.{◌≤◌, length};

// The text, and where it goes on.
#[derive(Clone, Copy)]
pub struct Rest<'a> {
    pub text: &'a [u8],
    pub at: usize,
    ghost inside: { at ≤ length text.now },
}

impl<'a> Rest<'a> {
    ghost use Rattle.std.specs.Prelude.{◌≡◌};

    // The whole text.
    pub fn start(text: &'a [u8]) -> Rest<'a>
        ensures text { result.text ≡ text.entry }
        ensures at { result.at ≡ 0 }
    {
        Rest { text, at: 0 }
    }

    // What is left from a later place on.
    pub fn behind(self, next: usize) -> Rest<'a>
        requires { next ≤ length self.text.now }
        ensures text { result.text ≡ self.entry.text }
        ensures at { result.at ≡ next }
    {
        Rest {
            text: self.text,
            at: next,
        }
    }
}
