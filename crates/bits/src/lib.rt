// Fields of bits in a slice of bytes, most significant bit first: read at any place, and written one after the other. A number's digits in any
// base, stored one to a byte.
#![tactic(auto)]

ghost use Rattle.std.specs.Prelude.{◌≡◌, ◌+◌, ◌-◌, ◌*◌, ◌/◌, ◌%◌, ◌^◌, min, ◌≤◌, ◌<◌, length};
ghost use Rattle.numeral.specs.Numeral.{numeral, splice};
ghost use Rattle.bits.specs.Bits.{field_at, Within};
ghost use Rattle.bits.specs.Streams.{Takes, Begins, Adds};

// Where a stream of bits stands. The bytes before index `at` are stored. Bits that do not fill a byte yet wait: they are the `count` low
// bits of `bits`, fewer than eight.
#[derive(Clone, Copy)]
pub struct Stream {
    pub at: usize,
    pub bits: u64,
    pub count: usize,
}

// The number whose bits are those of u and then the n bits of v.
fn joined(u: u64, n: usize, v: u64) -> u64
    requires { (n < 64) × (u * 2 ^ n + v < 2 ^ 64) }
    ensures { result ≡ u * 2 ^ n + v }
{
    (u << n) + v
}

// The n low bits of v.
fn low(v: u64, n: usize) -> u64
    requires { n < 64 }
    ensures { result ≡ v % 2 ^ n }
{
    v & ((1 << n) - 1)
}

// The number in the n bits from bit `at` on, where they lie in one byte.
fn piece(bank: &[u8], at: usize, n: usize) -> u64
    requires { (at % 8 + n ≤ 8) × (at + n ≤ 8 * length bank.now) }
    ensures { result ≡ field_at bank.now at n }
{
    if n == 0 {
        return 0;
    }
    let x = bank[at / 8] as u64;
    low(x >> (8 - at % 8 - n), n)
}

// The number in the bits from bit `at` to the end of its byte.
pub fn rest_of_byte(bank: &[u8], at: usize) -> u64
    requires { at / 8 < length bank.now }
    ensures { result ≡ field_at bank.now at (8 - at % 8) }
{
    bank[at / 8] as u64 & (255 >> (at % 8))
}

// The number in the `width` bits from bit `at` on: a piece of one byte, or the bits up to the end of the first byte, whole bytes, and the
// first bits of the last byte.
pub fn field(bank: &[u8], at: usize, width: usize) -> u64
    requires { Within at width (length bank.now) }
    ensures { result ≡ field_at bank.now at width }
{
    let first = 8 - at % 8;
    if width <= first {
        return piece(bank, at, width);
    }
    let from = at / 8 + 1;
    let whole = (width - first) / 8;
    let mut v = rest_of_byte(bank, at);
    for &b in &bank[from..from + whole] {
        v = joined(v, 8, b as u64);
    }
    let done = first + 8 * whole;
    joined(v, width - done, piece(bank, at + done, width - done))
}

// Splits the number v into n digits of the base, and stores them from index `from` on, the last one first.
pub fn split(out: &mut [u8], from: usize, n: usize, v: u64, base: u64)
    requires { (from + n ≤ length out.old) × (0 < base) × (base ≤ 256) }
    ensures { out.new ≡ splice out.old from (numeral base n v) }
{
    let mut rest = v;
    // by index: behind `iter_mut().rev()` a proof knows nothing of the elements
    for i in (from..from + n).rev() {
        out[i] = (rest % base) as u8;
        rest /= base;
    }
}

// An output that is lent, and the stream that is written into it.
#[derive(Drop)]
pub struct Writer<'a> {
    pub out: &'a mut [u8],
    pub stream: Stream,
}

impl<'a> Writer<'a> {
    // Nothing is written yet, and no bits wait.
    pub fn new(out: &'a mut [u8]) -> Writer<'a>
        ensures { Begins out.entry result }
    {
        let stream = Stream {
            at: 0,
            bits: 0,
            count: 0,
        };
        Writer { out, stream }
    }

    // Writes the `width` bits of v behind the stream. Each byte that is full is stored, once, and the bits left over wait.
    pub fn push(&mut self, width: usize, v: u64)
        requires { Takes self.old.stream width v (length self.old.out.now) }
        ensures { Adds self.old (numeral 2 width v) self.new }
    {
        let s = self.stream;
        let all = joined(s.bits, width, v);
        let count = (s.count + width) % 8;
        let whole = (s.count + width) / 8;
        split(self.out, s.at, whole, all >> count, 256);
        self.stream = Stream {
            at: s.at + whole,
            bits: low(all, count),
            count,
        };
    }
}
