// Pieces of texts. Written: bytes, numbers in decimal, bytes in hexadecimal. Read: how a text begins, runs of decimal digits, hexadecimal
// digits.
#![tactic(auto)]

ghost use Rattle.std.specs.Prelude.{ℕ, Bool, ◌≡◌, ◌+◌, ◌*◌, ◌/◌, ◌%◌, ◌≤◌, ◌<◌, length, [], ◌∷◌};
ghost use Rattle.numeral.specs.Numeral.{value, numeral, size, shortest, splice};
ghost use Rattle.rules.specs.Bytes.{all, digits_text, hex_digit, hex_text};
ghost use Rattle.rules.specs.TextNumbers.{after, is_digit};
ghost use Rattle.digits.specs.Digits.{leading_digits, hex_value, TestsAs};
ghost use Rattle.digits.specs.Pieces.{Puts, Begins, Room, Adds};
ghost use Rattle.digits.specs.Starts.{begun};

// `put_bytes`, `put_decimal`, `put_digits` and `put_hex` are the functions on slice and index under `Output`.

// Writes all of src from index `at` on, and returns the index after it.
#[tactic(auto, using(crate::proofs::Copies::copy_more, numeral::proofs::Splices::splice_nil))]
pub fn put_bytes(out: &mut [u8], at: usize, src: &[u8]) -> usize
    requires { at + length src.now ≤ length out.old }
    ensures { Puts src.now at out.old result out.new }
{
    // no `copy_from_slice`, which calls memmove: the library for C needs memset of others alone (tests/link)
    for (i, &b) in src.iter().enumerate() {
        out[at + i] = b;
    }
    at + src.len()
}

// Writes v in decimal, most significant digit first, from index `at` on with no leading zero, and returns the index after it. This and the two
// functions below are no formatter's work: each byte is fixed, and nothing can fail.
#[tactic(auto, using(crate::proofs::Texts::put_small, crate::proofs::Texts::put_large, numeral::proofs::Shortest::size_pos, numeral::proofs::Shortest::size_small, numeral::proofs::Shortest::size_large))]
pub fn put_decimal(out: &mut [u8], at: usize, v: u64) -> usize
    requires { at + size 10 v ≤ length out.old }
    ensures value { result ≡ at + size 10 v }
    ensures out_after { out.new ≡ splice out.old at (digits_text (shortest 10 v)) }
{
    if v < 10 {
        out[at] = b'0' + v as u8;
        at + 1
    } else {
        let end = put_decimal(out, at, v / 10);
        out[end] = b'0' + (v % 10) as u8;
        end + 1
    }
}

// Writes the n lowest decimal digits of v from index `at` on, zeros in front included. The last digit is stored first.
#[tactic(auto, using(crate::proofs::Texts::digit_more, crate::proofs::Texts::none_left))]
pub fn put_digits(out: &mut [u8], at: usize, n: usize, v: u64)
    requires { at + n ≤ length out.old }
    ensures { out.new ≡ splice out.old at (digits_text (numeral 10 n v)) }
{
    let mut rest = v;
    // by index: behind `iter_mut().rev()` a proof knows nothing of the elements
    for i in (0..n).rev() {
        out[at + i] = b'0' + (rest % 10) as u8;
        rest = rest / 10;
    }
}

// The upper-case hexadecimal digit of d.
#[tactic(auto, using(crate::proofs::Texts::hex_digit_lem, crate::proofs::Texts::hex_letter))]
pub fn hex(d: u8) -> u8
    requires { d < 16 }
    ensures { result ≡ hex_digit d }
{
    if d < 10 { b'0' + d } else { b'A' + (d - 10) }
}

// The two hexadecimal digits of a byte as one number, the first digit in its low byte. Both are worked out at once, without a branch.
// t has the upper half of x in its low byte, and the lower half in its high byte. m has a 1 in each byte of t that is 10 or more: with 6
// added, such a byte reaches 16. 0x3030 is the character `0` twice. Letters are 7 further on, since `A` is not the character after `9`.
#[tactic(auto, using(crate::proofs::Pairs::pair_is, crate::proofs::Pairs::few_letters))]
fn hex_pair(x: u8) -> u16
    ensures { result ≡ hex_digit (x / 16) + 256 * hex_digit (x % 16) }
{
    let y = x as u16;
    let t = y / 16 + (y % 16) * 256;
    let m = ((t + 0x606) / 16) & 0x101;
    t + 0x3030 + m * 7
}

// Writes all of src from index `at` on, two upper-case hexadecimal digits a byte.
#[tactic(auto, using(crate::proofs::Pairs::put_pair, numeral::proofs::Splices::splice_nil))]
pub fn put_hex(out: &mut [u8], at: usize, src: &[u8])
    requires { at + 2 * length src.now ≤ length out.old }
    ensures { out.new ≡ splice out.old at (hex_text src.now) }
{
    // `chunks_exact_mut` takes 1.2 times as long
    for (i, &x) in src.iter().enumerate() {
        let pair = hex_pair(x);
        out[at + 2 * i] = (pair % 256) as u8;
        out[at + 2 * i + 1] = (pair / 256) as u8;
    }
}

// An output that is lent, and the place in it that is written next.
#[derive(Drop)]
pub struct Output<'a> {
    pub out: &'a mut [u8],
    pub at: usize,
}

impl<'a> Output<'a> {
    // Nothing is written yet.
    pub fn new(out: &'a mut [u8]) -> Output<'a>
        ensures { Begins out.entry result }
    {
        Output { out, at: 0 }
    }

    // Writes one byte.
    pub fn byte(&mut self, b: u8)
        requires { Room self.old 1 }
        ensures { Adds self.old (b ∷ []) self.new }
    {
        let at = self.at;
        self.out[at] = b;
        self.at = at + 1;
    }

    // Writes all of src.
    pub fn put(&mut self, src: &[u8])
        requires { Room self.old (length src.now) }
        ensures { Adds self.old src.now self.new }
    {
        self.at = put_bytes(self.out, self.at, src);
    }

    // Writes v in decimal, with no leading zero.
    pub fn decimal(&mut self, v: u64)
        requires { Room self.old (size 10 v) }
        ensures { Adds self.old (digits_text (shortest 10 v)) self.new }
    {
        self.at = put_decimal(self.out, self.at, v);
    }

    // Writes the n lowest decimal digits of v, zeros in front included.
    pub fn digits(&mut self, n: usize, v: u64)
        requires { Room self.old n }
        ensures { Adds self.old (digits_text (numeral 10 n v)) self.new }
    {
        put_digits(self.out, self.at, n, v);
        self.at += n;
    }

    // Writes all of src, two upper-case hexadecimal digits a byte.
    pub fn hex(&mut self, src: &[u8])
        requires { Room self.old (2 * length src.now) }
        ensures { Adds self.old (hex_text src.now) self.new }
    {
        put_hex(self.out, self.at, src);
        self.at += 2 * src.len();
    }
}

// Whether a text begins with `start`. The loop does not end early, so that many bytes are compared at once: with `urn:epc:tag:` it takes
// 2.3 ns, the library's `starts_with` 5.8.
#[tactic(auto, using(crate::proofs::Starts::too_short, crate::proofs::Starts::begun_more, crate::proofs::Starts::begun_end))]
pub fn begins(text: &[u8], start: &[u8]) -> bool
    ensures { result ≡ begun (after start.now text.now) }
{
    if text.len() < start.len() {
        return false;
    }
    let mut same = true;
    for (x, y) in start.iter().zip(text) {
        same &= x == y;
    }
    same
}

// Whether c is a decimal digit.
pub fn is_digit(c: u8) -> bool
    ensures { result ≡ is_digit c }
{
    c.is_ascii_digit()
}

// The value of an upper-case hexadecimal digit.
#[tactic(auto, using(crate::proofs::Hexes::digit_value, crate::proofs::Hexes::letter_value, crate::proofs::Hexes::none_below, crate::proofs::Hexes::none_between, crate::proofs::Hexes::none_above))]
pub fn hex_value(c: u8) -> Option<u8>
    ensures { result ≡ hex_value c }
{
    match c {
        b'0'..=b'9' => Some(c - b'0'),
        b'A'..=b'F' => Some(c - b'A' + 10),
        _ => None,
    }
}

// A run of digits: how many they are, and its value.
#[derive(Drop)]
pub struct Run {
    pub length: usize,
    pub value: u64,
}

// The most digits that are read as a number: any 19 of them fit 64 bits. More are too many for every part of a tag: a prefix or a
// reference has 12 at most, and an integer of 20 digits is too large for its bits, 62 at most.
pub const MOST_DIGITS: usize = 19;

// The run of digits that a text begins with, but no more than `MOST_DIGITS` of them.
pub fn leading_digits(text: &[u8]) -> Run
    ensures length_value { result.length ≡ length (leading_digits 19 text.now) }
    ensures value_value { result.value ≡ value 10 (leading_digits 19 text.now) }
    ensures length_in_bounds { (result.length ≤ length text.now) × (result.length ≤ 19) }
{
    let most = text.len().min(MOST_DIGITS);
    let mut value: u64 = 0;
    for (n, &c) in text[..most].iter().enumerate() {
        if !is_digit(c) {
            return Run { length: n, value };
        }
        value = value * 10 + (c - b'0') as u64;
    }
    Run {
        length: most,
        value,
    }
}

// Whether all bytes of a text pass a test. The loop does not end early, so that a processor looks at many bytes at once.
pub fn all<F: Fn(u8) -> bool>(text: &[u8], test: F) -> bool
    requires { F.IsAlwaysCallable test }
    ensures { (p : ℕ → Bool) → TestsAs (F.post test) p → result ≡ all p text.now }
{
    let mut right = true;
    for &c in text {
        right &= test(c);
    }
    right
}

// Whether all bytes of a text are digits. Callers ask it of what follows a run of digits, so that no byte is looked at twice.
pub fn all_digits(text: &[u8]) -> bool
    ensures { result ≡ all is_digit text.now }
{
    all(text, is_digit)
}
