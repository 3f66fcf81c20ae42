// The characters of a string eight at a time: their 56 bits are one number, written at once.
ghost use Rattle.std.specs.Prelude.{◌≡◌, ◌≤◌, length};
ghost use Rattle.numeral.specs.Numeral.{value, Digits};

// The number of up to eight characters.
pub fn joined(characters: &[u8]) -> u64
    requires { (length characters.now ≤ 8) × Digits 128 characters.now }
    ensures { result ≡ value 128 characters.now }
{
    let mut v = 0;
    for &c in characters {
        v = v * 128 + u64::from(c);
    }
    v
}
