// Powers of ten, and with them the integer of a numeric string: a 1 is put before its digits, so that leading zeros survive (document 02,
// C-11).
#![tactic(auto)]

ghost use Rattle.std.specs.Prelude.{◌≡◌, ◌^◌, ◌≤◌, ◌<◌};
ghost use Rattle.numeral.specs.Numeral.{shortest};
ghost use Rattle.rules.specs.BankNumbers.{numeric_in};
ghost use Rattle.tens.specs.Numerics.{numeric_of, one_before};

// The powers of ten up to the 17th.
static POWERS: [u64; 18] = [
    1,
    10,
    100,
    1000,
    10000,
    100000,
    1000000,
    10000000,
    100000000,
    1000000000,
    10000000000,
    100000000000,
    1000000000000,
    10000000000000,
    100000000000000,
    1000000000000000,
    10000000000000000,
    100000000000000000,
];

// Ten to the power of a number of digits.
pub fn power(digits: usize) -> u64
    requires { digits ≤ 17 }
    ensures { result ≡ 10 ^ digits }
{
    POWERS[digits]
}

// The digits of a numeric string: their value, and how many they are.
#[derive(Clone, Copy)]
pub struct Digits {
    pub value: u64,
    pub count: usize,
}

// The integer of the digits and the 1 before them.
pub fn with_one(value: u64, count: usize) -> u64
    requires { (count ≤ 17) × (value < 10 ^ count) }
    ensures { result ≡ one_before count value }
{
    power(count) + value
}

// The digits behind the 1 of an integer, where they are 1 to `most`: the 1 stands at the highest power of ten that is not above the integer.
pub fn behind_one(v: u64, most: usize) -> Option<Digits>
    requires { most ≤ 17 }
    ensures { result ≡ numeric_of (numeric_in most (shortest 10 v)) }
{
    let count = v.checked_ilog10()? as usize;
    if count == 0 || most < count {
        return None;
    }
    let one = power(count);
    let value = v - one;
    if one <= value {
        return None;
    }
    Some(Digits { value, count })
}
