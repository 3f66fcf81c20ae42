// The replies, by their letters. Each function writes one at the output's start and answers its length.
ghost use Rattle.std.specs.Prelude.{◌∷◌, ◌+◌, ◌*◌, ◌≤◌, length, take, drop};
ghost use Rattle.replies.specs.Replies.{space, decimal, reply_b, reply_x};
ghost use Rattle.replies.specs.Writing.{Wrote};

// So many bytes stand before what a reply shows: a letter and a space.
pub const AFTER_LETTER: usize = 2;

// `X`: a line of neither kind.
pub fn put_neither(out: &mut [u8]) -> usize
    requires { 1 ≤ length out.old }
    ensures { Wrote reply_x out.old result out.new }
{
    out[0] = b'X';
    1
}

// A letter and a space, before the n bytes that stand behind their place already.
pub fn put_letter(letter: u8, n: usize, out: &mut [u8]) -> usize
    requires { 2 + n ≤ length out.old }
    ensures { Wrote (letter ∷ space ∷ take n (drop 2 out.old)) out.old result out.new }
{
    out[0] = letter;
    out[1] = b' ';
    AFTER_LETTER + n
}

// `B` and the bank in hex.
pub fn put_bank(bank: &[u8], out: &mut [u8]) -> usize
    requires { 2 + 2 * length bank.now ≤ length out.old }
    ensures { Wrote (reply_b bank.now) out.old result out.new }
{
    out[0] = b'B';
    out[1] = b' ';
    digits::put_hex(out, AFTER_LETTER, bank);
    AFTER_LETTER + 2 * bank.len()
}

// A letter and a number, which has at most three digits.
pub fn put_number(letter: u8, number: u8, out: &mut [u8]) -> usize
    requires { 5 ≤ length out.old }
    ensures { Wrote (letter ∷ space ∷ decimal number) out.old result out.new }
{
    out[0] = letter;
    out[1] = b' ';
    digits::put_decimal(out, AFTER_LETTER, number as u64)
}
